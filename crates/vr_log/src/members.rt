//! What the rules ask of the state of a member.
ghost use Rattle.std.specs.Prelude.{◌≡◌, ◌<◌, OnOk};
ghost use Rattle.vr_log.specs.Members.{is_normal, is_changing, primary_of, is_primary, is_other, is_primary_of, is_here, is_later, is_newer, is_up, is_recovering, leads, most_failures};
ghost use Rattle.vr_log.specs.Steps.{Did, asks, acknowledges};

use crate::message::VrMessage;
use crate::state::{Status, VrOut, VrState};
use std::alloc::AllocError;

impl VrState {
    pub fn is_normal(&self) -> bool
        ensures { result ≡ is_normal self.now }
    {
        matches!(self.status, Status::Normal)
    }

    pub fn is_changing(&self) -> bool
        ensures { result ≡ is_changing self.now }
    {
        matches!(self.status, Status::ViewChange)
    }

    /// Whether it takes part: it is not recovering, nor down.
    pub fn is_up(&self) -> bool
        ensures { result ≡ is_up self.now }
    {
        matches!(self.status, Status::Normal | Status::ViewChange)
    }

    pub fn is_recovering(&self) -> bool
        ensures { result ≡ is_recovering self.now }
    {
        matches!(self.status, Status::Recovering)
    }

    /// The primary of a view.
    pub fn primary_of(&self, view: u32) -> u8
        requires { 0 < self.now.controllers }
        ensures exact { result ≡ primary_of self.now view }
        ensures below { result < self.now.controllers }
    {
        (view % u32::from(self.controllers)) as u8
    }

    /// Whether this member is the primary of its view.
    pub fn is_primary(&self) -> bool
        requires { 0 < self.now.controllers }
        ensures { result ≡ is_primary self.now }
    {
        self.primary_of(self.view) == self.me
    }

    /// Whether this is another member of the group.
    pub fn is_other(&self, member: u8) -> bool
        ensures { result ≡ is_other self.now member }
    {
        member < self.controllers && member != self.me
    }

    /// Whether this is the primary of a view.
    pub fn is_primary_of(&self, member: u8, view: u32) -> bool
        requires { 0 < self.now.controllers }
        ensures { result ≡ is_primary_of self.now member view }
    {
        member == self.primary_of(view)
    }

    /// Whether this is the view in which the member is normal.
    pub fn is_here(&self, view: u32) -> bool
        ensures { result ≡ is_here self.now view }
    {
        self.is_normal() && view == self.view
    }

    /// Whether this is a view after the member's, which takes part in views.
    pub fn is_later(&self, view: u32) -> bool
        ensures { result ≡ is_later self.now view }
    {
        self.is_up() && self.view < view
    }

    /// Whether this is a later view, or the member's own while it changes.
    pub fn is_newer(&self, view: u32) -> bool
        ensures { result ≡ is_newer self.now view }
    {
        self.is_later(view) || (self.is_changing() && view == self.view)
    }

    /// Whether this member leads: it is normal, and the primary of its view.
    pub fn leads(&self) -> bool
        requires { 0 < self.now.controllers }
        ensures { result ≡ leads self.now }
    {
        self.is_normal() && self.is_primary()
    }

    /// How many members may fail.
    pub fn most_failures(&self) -> usize
        ensures { result ≡ most_failures self.now }
    {
        usize::from(self.controllers / 2)
    }

    /// Asks the primary of a view for what follows an op.
    pub fn ask(&self, view: u32, op: u64, out: &mut VrOut) -> Result<(), AllocError>
        requires { 0 < self.now.controllers }
        ensures { OnOk result (Did (asks self.now view op) self.now out.old out.new) }
    {
        out.tell(self.primary_of(view), VrMessage::GetState { view, op })?;
        Ok(())
    }

    /// Learns of a commit number, and acknowledges the log to the primary of the view.
    pub fn acknowledge(&mut self, commit: u64, out: &mut VrOut) -> Result<(), AllocError>
        requires { 0 < self.old.controllers }
        ensures { OnOk result (Did (acknowledges self.old commit) self.new out.old out.new) }
    {
        let op = self.log.len() as u64;
        self.commit = self.commit.max(commit.min(op));
        let view = self.view;
        out.tell(self.primary_of(view), VrMessage::PrepareOk { view, op })?;
        Ok(())
    }
}
