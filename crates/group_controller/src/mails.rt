//! What a controller posts.
ghost use Rattle.std.specs.Prelude.{◌≡◌, [], true};
ghost use Rattle.group_controller.specs.Mails.{mailed};

use of_types::Spoken;
use std::alloc::Global;
use std::marker::Model;
use vr_log::VrLetters;

/// What a controller says, and to whom: a message to a switch, or what a step of the member sends to others.
#[derive(Drop)]
pub enum Mail {
    Switch {
        switch: u8,
        xid: u32,
        message: Spoken,
    },
    Members(VrLetters),
}

/// What a turn of a controller posts, which contracts see as the list of its letters. What several controllers are told
/// stands there once.
#[derive(Drop)]
pub struct Mails {
    mails: Vec<Mail>,
}

impl Model for Mails {
    ghost use Rattle.std.specs.Prelude.{List};
    ghost use Rattle.journal.specs.declared.journal.Letter.{Letter};
    ghost use Rattle.group_controller.specs.Mails.{mailed};
    ghost use Rattle.group_controller.specs.declared.messages.ControllerSays.{ControllerSays};

    ghost Value = { List (Letter ControllerSays) };

    ghost view = { λ m. mailed m.mails.items };
}

impl Mails {
    /// Nothing, which takes no memory.
    pub fn new(alloc: Global) -> Mails
        ensures { result ≡ [] }
    {
        Mails {
            mails: Vec::new(alloc),
        }
    }

    /// The letters of mails, in order.
    pub(crate) fn from_vec(mails: Vec<Mail>) -> Mails
        ensures { result ≡ mailed mails.items }
    {
        Mails { mails }
    }

    /// An empty list with the memory of this one.
    pub(crate) fn into_empty(self) -> Vec<Mail>
        ensures { result.items ≡ [] }
    {
        let mut mails = self.mails;
        mails.clear();
        mails
    }

    /// Whether there is no mail.
    pub fn is_empty(&self) -> bool
        ensures { result ≡ true → self.now ≡ [] }
    {
        self.mails.is_empty()
    }

    /// The mails, in order.
    pub fn as_slice(&self) -> &[Mail]
        ensures { mailed result.now ≡ self.now }
    {
        self.mails.as_slice()
    }
}
