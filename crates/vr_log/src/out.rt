//! How a step sends.
ghost use Rattle.std.specs.Prelude.{◌≡◌, ◌++◌, ◌∷◌, [], None, map, OnOk};
ghost use Rattle.vr_log.specs.Members.{others_below};
ghost use Rattle.vr_log.specs.Steps.{letter};

use crate::letters::{Mail, Receivers, VrLetters};
use crate::message::VrMessage;
use crate::state::VrOut;
use std::alloc::{AllocError, Global};

impl VrOut {
    /// Nothing is to be saved or sent yet.
    pub fn new(alloc: Global) -> VrOut
        ensures promise { result.promise ≡ None }
        ensures letters { result.letters ≡ [] }
    {
        VrOut {
            promise: None,
            letters: VrLetters::new(alloc),
        }
    }

    /// Nothing is to be saved or sent any more.
    #[inline(always)]
    pub fn clear(&mut self)
        ensures promise { self.new.promise ≡ None }
        ensures letters { self.new.letters ≡ [] }
    {
        self.promise = None;
        self.letters.clear();
    }

    /// One letter.
    #[inline(always)]
    pub fn tell(&mut self, to: u8, message: VrMessage) -> Result<(), AllocError>
        ensures promise { self.new.promise ≡ self.old.promise }
        ensures letters { OnOk result (self.new.letters ≡ self.old.letters ++ letter message to ∷ []) }
    {
        self.letters.push(Mail {
            to: Receivers::One(to),
            message,
        })?;
        Ok(())
    }

    /// One message to each other member of a group, ascending.
    #[inline(always)]
    pub fn tell_others(
        &mut self,
        me: u8,
        controllers: u8,
        message: VrMessage,
    ) -> Result<(), AllocError>
        ensures promise { self.new.promise ≡ self.old.promise }
        ensures letters { OnOk result (self.new.letters ≡ self.old.letters ++ map (letter message) (others_below me controllers)) }
    {
        self.letters.push(Mail {
            to: Receivers::Others { me, controllers },
            message,
        })?;
        Ok(())
    }
}
