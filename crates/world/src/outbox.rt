//! What an actor has still to post.
ghost use Rattle.std.specs.Prelude.{◌≡◌, true};
ghost use Rattle.world.specs.Debts.{has_none, letters_sealed, sender_of};

use group_controller::Mails;
use journal::{Actor, Mailbag, Outgoing, Said};
use of_switch::{Switch, SwitchSays};
use players::{Body, Player, seal_mails};
use std::alloc::AllocError;

/// The outbox of the newest input, as its actor said it, as long as it is not posted. It is sealed as it is posted, so that want
/// of memory loses none of it.
#[derive(Drop)]
pub enum Outbox {
    Controller {
        number: u8,
        letters: Mails,
    },
    Switch {
        number: u8,
        letters: Said<SwitchSays>,
    },
}

impl Outbox {
    /// Whose it is.
    pub fn sender(&self) -> Actor
        ensures { result ≡ sender_of self.now }
    {
        match self {
            Outbox::Controller { number, .. } => Actor::Controller(*number),
            Outbox::Switch { number, .. } => Actor::Switch(*number),
        }
    }

    /// Whether it has nothing to post.
    pub fn is_empty(&self) -> bool
        ensures { result ≡ true → has_none self.now ≡ true }
    {
        match self {
            Outbox::Controller { letters, .. } => letters.is_empty(),
            Outbox::Switch { letters, .. } => letters.is_empty(),
        }
    }
}

impl<B: Body> Outgoing<B> for Outbox {
    ghost letters = { λ outbox. letters_sealed B.sealing outbox };

    /// Adds its letters, sealed.
    #[inline(always)]
    fn add_to(&self, bag: &mut Mailbag<B>) -> Result<(), AllocError> {
        match self {
            Outbox::Controller { letters, .. } => seal_mails(bag, letters.as_slice()),
            Outbox::Switch { letters, .. } => Switch::seal::<B>(letters, bag),
        }
    }
}
