//! Actors take turns: an input, what it makes them save, and what they say.
ghost use Rattle.std.specs.Prelude.{◌≡◌, ◌⊎◌, [], List, IfOk, OnOk, OnErr};
ghost use Rattle.journal.specs.declared.journal.Letter.{Letter};
ghost use Rattle.run_spec.specs.Legal.{AreTyped};
ghost use Rattle.run_spec.specs.States.{sealed_letters};
ghost use Rattle.players.specs.Turns.{ControllerTurned, ControllerWanted, IsReadyBeside, SwitchTurned};

use crate::body::Body;
use crate::player::Player;
use app_core::App;
use group_controller::{Controller, ControllerInput, Mails};
use journal::{Mailbag, Said, Stable};
use of_switch::{Switch, SwitchInput, SwitchSays};
use std::alloc::AllocError;

/// An actor that takes turns beside what it saves to: a controller beside its stable pair, a switch beside nothing.
pub trait TakesTurns<W>: Player {
    /// It may take a turn beside this.
    ghost ready: { Self → W → Type 0 };
    /// It takes an input, and says these letters.
    ghost turned: { Self → W → Self.Input → Self → W → List (Letter Self.Says) → Type 0 };
    /// It found no memory for an input, and this is what that leaves.
    ghost wanted: { Self → W → Self → W → Type 0 };

    /// Takes an input, and gives what it says.
    fn take_turn(&mut self, beside: &mut W, input: Self::Input) -> Result<Self::Post, AllocError>
        requires { ready self.old beside.old }
        ensures turned { IfOk result (λ post. turned self.old beside.old input self.new beside.new (Self.Player.letters post)) }
        ensures wanted { OnErr result (wanted self.old beside.old self.new beside.new) };
}

impl TakesTurns<()> for Switch {
    ghost ready = { λ state nothing. Unit {0} };

    ghost turned = { λ old nothing input new none letters. SwitchTurned old input new letters };

    ghost wanted = { λ old nothing new none. new ≡ old };

    fn take_turn(
        &mut self,
        _beside: &mut (),
        input: SwitchInput,
    ) -> Result<Said<SwitchSays>, AllocError> {
        self.turn(input)
    }
}

impl<A: App, W: Stable> TakesTurns<W> for Controller<A> {
    ghost ready = { IsReadyBeside A.law W.saving };

    ghost turned = { ControllerTurned A.law W.saving };

    ghost wanted = { ControllerWanted A.law W.saving };

    fn take_turn(&mut self, beside: &mut W, input: ControllerInput) -> Result<Mails, AllocError> {
        self.turn(input, beside)
    }
}

/// An actor takes an input, and gives what it says. Each number of it fits its field.
pub fn typed_turn<P: TakesTurns<W>, W>(
    player: &mut P,
    beside: &mut W,
    input: P::Input,
) -> Result<P::Post, AllocError>
    requires { P.ready player.old beside.old }
    ensures turned { IfOk result (λ post. P.turned player.old beside.old input player.new beside.new (P.letters post) × AreTyped P.said (P.letters post)) }
    ensures wanted { OnErr result (P.wanted player.old beside.old player.new beside.new) }
{
    let post = player.take_turn(beside, input)?;
    P::fits(&post);
    Ok(post)
}

/// An actor takes an input, and what it says is sealed into an empty bag. Each number of it fits its field. Where there is no memory
/// to seal it, it is lost.
pub fn sealed_turn<P: TakesTurns<W>, W, B: Body>(
    player: &mut P,
    beside: &mut W,
    input: P::Input,
    bag: &mut Mailbag<B>,
) -> Result<(), AllocError>
    requires ready { P.ready player.old beside.old }
    requires empty { bag.old ≡ [] }
    ensures turned { OnOk result ((letters : List (Letter P.Says)) × P.turned player.old beside.old input player.new beside.new letters
        × (bag.new ≡ sealed_letters P.said B.sealing letters) × AreTyped P.said letters) }
    ensures wanted { OnErr result (P.wanted player.old beside.old player.new beside.new
        ⊎ ((letters : List (Letter P.Says)) × P.turned player.old beside.old input player.new beside.new letters × AreTyped P.said letters)) }
    ensures lost { OnErr result (bag.new ≡ []) }
{
    let post = typed_turn(player, beside, input)?;
    let sealed = P::seal::<B>(&post, bag);
    if sealed.is_err() {
        bag.clear();
    }
    sealed
}
