//! What a step sends.
ghost use Rattle.std.specs.Prelude.{◌≡◌, ◌++◌, [], if◌then◌else◌, is_ok, true};
ghost use Rattle.vr_log.specs.Letters.{letters_in, mail_letters};

use crate::message::VrMessage;
use std::alloc::{AllocError, AllocFailed, Global};
use std::marker::Model;
use std::mem::replace;
use std::slice;

/// How many mails a list has room for at first.
const FEW_MAILS: usize = 4;

/// To whom a message goes: to one member, or to each other member of a group.
#[derive(Clone, Copy, PartialEq, Eq, Debug)]
pub enum Receivers {
    One(u8),
    Others { me: u8, controllers: u8 },
}

/// A message, and to whom it goes.
#[derive(Drop)]
pub struct Mail {
    pub to: Receivers,
    pub message: VrMessage,
}

/// Letters in order, which contracts see as the list of them. What each other member is told stands there once. One
/// mail, as most steps have, takes no list of its own.
#[derive(Drop)]
pub struct VrLetters {
    alloc: Global,
    mails: Kept,
}

/// No mail, one, or a list of any length.
#[derive(Drop)]
pub(crate) enum Kept {
    Nothing,
    One(Mail),
    Many(Vec<Mail>),
}

impl Model for VrLetters {
    ghost use Rattle.std.specs.Prelude.{List};
    ghost use Rattle.vr_log.specs.declared.message.VrLetter.{VrLetter};
    ghost use Rattle.vr_log.specs.Letters.{letters_in, mails_kept};

    ghost Value = { List VrLetter };

    ghost view = { λ l. letters_in (mails_kept l.mails) };
}

impl VrLetters {
    /// No letter, which takes no memory.
    pub fn new(alloc: Global) -> VrLetters
        ensures { result ≡ [] }
    {
        VrLetters {
            alloc,
            mails: Kept::Nothing,
        }
    }

    /// Appends the letters of a mail, ascending. An `Err` changes nothing.
    #[inline(always)]
    pub fn push(&mut self, mail: Mail) -> Result<(), AllocFailed<Mail>>
        ensures { self.new ≡ (if is_ok result then self.old ++ mail_letters mail else self.old) }
    {
        if self.is_empty() {
            self.mails = Kept::One(mail);
            Ok(())
        } else {
            self.push_behind(mail)
        }
    }

    /// The same, where there are mails.
    #[inline(never)]
    fn push_behind(&mut self, mail: Mail) -> Result<(), AllocFailed<Mail>>
        ensures { self.new ≡ (if is_ok result then self.old ++ mail_letters mail else self.old) }
    {
        match replace(&mut self.mails, Kept::Nothing) {
            Kept::Nothing => {
                self.mails = Kept::One(mail);
                Ok(())
            }
            Kept::One(first) => match Vec::with_capacity(self.alloc, FEW_MAILS) {
                Ok(mut mails) => {
                    mails.push_reserved(first);
                    mails.push_reserved(mail);
                    self.mails = Kept::Many(mails);
                    Ok(())
                }
                Err(AllocError) => {
                    self.mails = Kept::One(first);
                    Err(AllocFailed { value: mail })
                }
            },
            Kept::Many(mut mails) => {
                let answer = mails.push(mail);
                self.mails = Kept::Many(mails);
                answer
            }
        }
    }

    /// The mails, in order.
    #[inline(always)]
    pub fn as_slice(&self) -> &[Mail]
        ensures { letters_in result.now ≡ self.now }
    {
        match &self.mails {
            Kept::Nothing => &[],
            Kept::One(mail) => slice::from_ref(mail),
            Kept::Many(mails) => mails.as_slice(),
        }
    }

    /// Whether there is no mail.
    #[inline(always)]
    pub fn is_empty(&self) -> bool
        ensures { result ≡ true → self.now ≡ [] }
    {
        matches!(self.mails, Kept::Nothing)
    }

    /// Leaves no letter.
    #[inline(always)]
    pub fn clear(&mut self)
        ensures { self.new ≡ [] }
    {
        if !self.is_empty() {
            self.let_go();
        }
    }

    /// The same, where there are mails.
    #[inline(never)]
    fn let_go(&mut self)
        ensures { self.new ≡ [] }
    {
        self.mails = Kept::Nothing;
    }

    /// Gives the letters, and leaves none.
    #[inline(always)]
    pub fn take(&mut self) -> VrLetters
        ensures taken { result ≡ self.old }
        ensures left { self.new ≡ [] }
    {
        let none = VrLetters::new(self.alloc);
        replace(self, none)
    }
}
