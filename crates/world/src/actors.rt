//! The actors of a world: as they start, which take part, and one of them takes an input.
ghost use Rattle.std.specs.Prelude.{◌≡◌, ◌<◌, ◌^◌, ℕ, List, length, IfOk, OnErr};
ghost use Rattle.std.specs.List.{AllByRecursion};
ghost use Rattle.of_types.specs.Setups.{IsSetup};
ghost use Rattle.vr_log.specs.Members.{is_up};
ghost use Rattle.group_controller.specs.Turns.{AreAlike, ForEachKinds, state_of};
ghost use Rattle.run_spec.specs.Legal.{AreTyped, FitsTypes};
ghost use Rattle.run_spec.specs.States.{controller_message, switch_message};
ghost use Rattle.world.specs.World.{AreNew, AreStocked, IsNew, IsStocked, starting_switches};
ghost use Rattle.world.specs.Actors.{SwitchTakes, ControllerTakes, ControllerWants, IsServed};

use app_core::App;
use group_controller::{Controller, ControllerInput, Mails};
use journal::{Local, Said, Stable};
use of_switch::{Switch, SwitchInput, SwitchSays};
use of_types::Setup;
use players::typed_turn;
use std::alloc::{AllocError, Global};
use vr_log::Status;

/// The controllers of a group as it starts, each with the applications of its lives.
pub fn controllers_of<A: App>(
    alloc: Global,
    setup: &Setup,
    shelves: Vec<Vec<A>>,
) -> Result<Vec<Controller<A>>, AllocError>
    requires setup { IsSetup setup.now }
    requires each { length shelves.items ≡ setup.now.controllers }
    requires stocked { (kinds : List ℕ) × AreStocked A.law kinds shelves.items }
    ensures { ForEachKinds (λ kinds. AreStocked A.law kinds shelves.items)
        (λ kinds. IfOk result (λ group. AreNew A.law setup.now kinds setup.now.controllers group.items)) }
{
    let mut controllers = Vec::new(alloc);
    let mut number = 0u8;
    for lives in shelves {
        controllers.push(controller_of(alloc, number, setup, lives)?)?;
        number += 1;
    }
    Ok(controllers)
}

/// The switches of a setup as they start.
pub fn switches_of(alloc: Global, setup: &Setup) -> Result<Vec<Switch>, AllocError>
    requires { IsSetup setup.now }
    ensures { IfOk result (λ switches. switches.items ≡ starting_switches setup.now) }
{
    let mut switches = Vec::new(alloc);
    for number in 0..setup.ports.len() {
        switches.push(Switch::new(alloc, number as u8, setup)?)?;
    }
    Ok(switches)
}

/// Whether a controller takes part: it is neither down nor recovering.
pub fn takes_part<A: App>(controller: &Controller<A>) -> bool
    ensures { result ≡ is_up (state_of controller.now).vr }
{
    matches!(controller.status(), Status::Normal | Status::ViewChange)
}

/// The numbers of a local input fit their types.
pub fn fits_types(input: &Local)
    ensures { FitsTypes input.now }
{
    match input {
        Local::Suspect { view } => {
            let _view = *view;
        }
        Local::Frame { bytes, .. } => {
            are_bytes(bytes.as_slice());
        }
        _ => {}
    }
}

/// The switch of a number takes an input. Each number of what it says fits its field. Where it finds no memory it is as it was.
pub fn switch_takes(
    switches: &mut [Switch],
    number: u8,
    input: SwitchInput,
) -> Result<Said<SwitchSays>, AllocError>
    requires { number < length switches.old }
    ensures takes { IfOk result (λ letters. SwitchTakes input switches.old number switches.new letters × AreTyped switch_message letters) }
    ensures wants { OnErr result (switches.new ≡ switches.old) }
{
    typed_turn::<Switch, ()>(&mut switches[number as usize], &mut (), input)
}

/// The controller of a number takes an input, beside its stable pair. Each number of what it says fits its field. Where it finds
/// no memory it is down, and no save was made.
pub fn controller_takes<A: App, W: Stable>(
    controllers: &mut [Controller<A>],
    stables: &mut [W],
    number: u8,
    input: ControllerInput,
) -> Result<Mails, AllocError>
    requires there { number < length controllers.old }
    requires stable { number < length stables.old }
    requires ready { IsServed A.law W.saving controllers.old stables.old number }
    ensures takes { IfOk result (λ letters. AreTyped controller_message letters ×
        ControllerTakes A.law W.saving input controllers.old stables.old number controllers.new stables.new letters) }
    ensures wants { OnErr result (ControllerWants A.law W.saving controllers.old stables.old number controllers.new stables.new) }
{
    typed_turn::<Controller<A>, W>(
        &mut controllers[number as usize],
        &mut stables[number as usize],
        input,
    )
}

/// Applications in order, turned round: the next one is the last.
fn shelf_of<A: App>(alloc: Global, lives: Vec<A>) -> Result<Vec<A>, AllocError>
    ensures long { IfOk result (λ shelf. length shelf.items ≡ length lives.items) }
    ensures alike { ForEachKinds (λ kinds. AreAlike A.law kinds lives.items)
        (λ kinds. IfOk result (λ shelf. AreAlike A.law kinds shelf.items)) }
{
    let mut lives = lives;
    let mut shelf = Vec::new(alloc);
    'lives: while let Some(life) = lives.pop() {
        shelf.push(life)?;
    }
    Ok(shelf)
}

/// The controller of a number as its group starts, with the applications of its lives in order.
fn controller_of<A: App>(
    alloc: Global,
    number: u8,
    setup: &Setup,
    lives: Vec<A>,
) -> Result<Controller<A>, AllocError>
    requires setup { IsSetup setup.now }
    requires member { number < setup.now.controllers }
    requires stocked { (kinds : List ℕ) × IsStocked A.law kinds lives.items }
    ensures { ForEachKinds (λ kinds. IsStocked A.law kinds lives.items)
        (λ kinds. IfOk result (IsNew A.law setup.now kinds number)) }
{
    let mut shelf = shelf_of(alloc, lives)?;
    match shelf.pop() {
        Some(first) => Controller::new(alloc, number, setup, first, shelf),
        None => unreachable!(),
    }
}

/// Bytes have eight bits.
fn are_bytes(bytes: &[u8])
    ensures { AllByRecursion (λ b. b < 2 ^ 8) bytes.now }
{}
