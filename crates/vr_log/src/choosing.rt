//! Which of the collected logs a view starts from, and what its primary lacks of it.
ghost use Rattle.std.specs.Prelude.{◌≡◌, ◌<◌, ◌≤◌, ◌++◌, ◌∷◌, [], length, IfSome, OnOk};
ghost use Rattle.vr_log.specs.Choosing.{has_collected, may_choose, length_of, is_better, best_of, front, fetch_letter, fetches};
ghost use Rattle.vr_log.specs.Valid.{IsValidState};

use crate::message::VrMessage;
use crate::state::{Collected, VrOut, VrState};
use std::alloc::AllocError;

/// The best of some collected logs, of which this is the first.
pub fn best_of<'a>(first: &'a Collected, rest: &'a [Collected]) -> &'a Collected
    ensures { result.now ≡ best_of first.now rest.now }
{
    let mut best = first;
    for log in rest {
        if is_better(log, best) {
            best = log;
        }
    }
    best
}

impl VrState {
    /// Whether the log of this member was collected.
    pub fn has_collected(&self, from: u8) -> bool
        ensures { result ≡ has_collected self.now from }
    {
        self.collected.as_slice().iter().any(|log| log.from == from)
    }

    /// Whether this member is the primary of a view that changes, and has its own log and those of f others.
    pub fn may_choose(&self) -> bool
        requires { 0 < self.now.controllers }
        ensures { result ≡ may_choose self.now }
    {
        self.is_changing()
            && self.is_primary()
            && self.has_collected(self.me)
            && self.most_failures() < self.collected.len()
    }

    /// How many committed entries a primary has: its own, or those that were supplied behind its first ones.
    pub fn front_len(&self) -> u128
        requires commit { self.now.commit ≤ length self.now.log }
        requires supply { IfSome self.now.supply (λ supplied. supplied.first ≤ self.now.commit) }
        ensures { result ≡ length (front self.now) }
    {
        match &self.supply {
            None => u128::from(self.commit),
            Some(supplied) => u128::from(supplied.first) + supplied.log.len() as u128,
        }
    }

    /// Fetches from the sender of the best log what this member lacks of it.
    pub fn fetch_from(&self, best: &Collected, out: &mut VrOut) -> Result<(), AllocError>
        ensures promise { out.new.promise ≡ out.old.promise }
        ensures letters { OnOk result (out.new.letters ≡ out.old.letters ++ fetch_letter self.now best.now ∷ []) }
    {
        let message = VrMessage::Fetch {
            view: self.view,
            op: self.commit,
        };
        out.tell(best.from, message)
    }

    /// Fetches what the start of a view waits for.
    pub fn fetch(&self, out: &mut VrOut) -> Result<(), AllocError>
        requires { IsValidState self.now }
        ensures promise { out.new.promise ≡ out.old.promise }
        ensures letters { OnOk result (out.new.letters ≡ out.old.letters ++ fetches self.now) }
    {
        if !self.may_choose() {
            return Ok(());
        }
        let Some((first, rest)) = self.collected.as_slice().split_first() else {
            return Ok(());
        };
        let best = best_of(first, rest);
        if u128::from(best.commit) <= self.front_len() {
            Ok(())
        } else {
            self.fetch_from(best, out)
        }
    }
}

fn length_of(log: &Collected) -> u128
    ensures { result ≡ length_of log.now }
{
    u128::from(log.commit) + log.log.len() as u128
}

fn is_better(a: &Collected, b: &Collected) -> bool
    ensures { result ≡ is_better a.now b.now }
{
    if a.normal == b.normal {
        let (long, short) = (length_of(a), length_of(b));
        if long == short {
            a.from < b.from
        } else {
            short < long
        }
    } else {
        b.normal < a.normal
    }
}
