//! The generator: scenarios of many frames, made of four numbers.
ghost use Rattle.std.specs.Prelude.{◌≡◌, ◌<◌, ◌≤◌, ◌++◌, Contains, IfOk, OnOk, replicate, [], ◌∷◌};
ghost use Rattle.scenario.specs.Generated as generator;
ghost use Rattle.scenario.specs.Scenario.{IsScenario};

use crate::scenario::{Scenario, Steps};
use journal::{Actor, Local, Turn};
use of_bytes::{four, two, zeros};
use of_types::{Links, Octets, PortCounts, Rules, Setup};
use std::alloc::{AllocError, Global};

/// How many ports each switch of a generated scenario has.
const PORTS: u32 = 4;

/// How many bytes each frame has.
const FRAME: usize = 64;

/// The type of a frame of a local experiment (IEEE 802).
const LOCAL_TYPE: u16 = 0x88b5;

/// The scenario that four numbers make: so many controllers and switches of four ports, and so many
/// frames, each at the next switch. Each round of the switches takes the next pair of ports, beginning with
/// the one that `number` names. Behind the frames, where there are three controllers or more, the one that
/// `number` names crashes.
pub fn generate(
    alloc: Global,
    number: u32,
    controllers: u8,
    switches: u8,
    frames: u32,
) -> Result<Scenario, AllocError>
    requires group { Contains (1 ∷ 3 ∷ 5 ∷ 7 ∷ []) controllers }
    requires some { 1 ≤ switches }
    requires few { switches ≤ 64 }
    requires short { frames ≤ 2048 }
    ensures exact { IfOk result (λ scenario. scenario ≡ generator.generated number controllers switches frames) }
    ensures form { IfOk result (λ scenario. IsScenario scenario) }
{
    let ports = port_counts(alloc, switches)?;
    let steps = script(alloc, number, controllers, switches, frames)?;
    Ok(Scenario {
        setup: Setup {
            controllers,
            ports,
            links: Links::new(alloc),
            deny: Rules::new(alloc),
        },
        steps,
    })
}

/// The port that a frame of a round goes from, counted from 0.
fn from_port(number: u32, round: u32) -> u32
    ensures { result ≡ generator.from_port number round }
{
    ((u64::from(round) + u64::from(number)) % 4) as u32
}

/// The port of the host that it goes to.
fn to_port(number: u32, round: u32) -> u32
    ensures { result ≡ generator.to_port number round }
{
    (from_port(number, round) + 1 + round / 4 % 3) % 4
}

/// The address of the host at a port of a switch, counted from 0.
#[tactic(auto, unfolding(crate::specs::Generated::host_address))]
fn host_address(switch: u8, port: u32) -> [u8; 6]
    requires { port < 4 }
    ensures { result ≡ generator.host_address switch port }
{
    [2, 0, 0, 0, switch, port as u8 + 1]
}

/// A frame of 64 bytes from one host to another of its switch.
#[tactic(auto, unfolding(crate::specs::Generated::frame_between))]
fn frame_between(
    alloc: Global,
    switch: u8,
    from: u32,
    to: u32,
    number: u32,
) -> Result<Octets, AllocError>
    requires from { from < 4 }
    requires to { to < 4 }
    ensures { IfOk result (λ frame. frame ≡ generator.frame_between switch from to number) }
{
    let mut frame = Octets::from_vec(Vec::with_capacity(alloc, FRAME)?);
    frame.append(&host_address(switch, to))?;
    frame.append(&host_address(switch, from))?;
    frame.append(&two(LOCAL_TYPE))?;
    frame.append(&four(number))?;
    frame.append(&zeros::<46>())?;
    Ok(frame)
}

/// The turn of a frame, by its number.
#[tactic(auto, unfolding(crate::specs::Generated::frame_turn))]
fn frame_turn(alloc: Global, number: u32, switches: u8, frame: u32) -> Result<Turn, AllocError>
    requires { 0 < switches }
    ensures { IfOk result (λ turn. turn ≡ generator.frame_turn number switches frame) }
{
    let switch = (frame % u32::from(switches)) as u8;
    let round = frame / u32::from(switches);
    let from = from_port(number, round);
    let bytes = frame_between(alloc, switch, from, to_port(number, round), frame)?;
    Ok(Turn::Local {
        actor: Actor::Switch(switch),
        input: Local::Frame {
            port: from + 1,
            bytes,
        },
    })
}

/// The frames of a scenario, and the crash of one of several controllers behind them.
fn script(
    alloc: Global,
    number: u32,
    controllers: u8,
    switches: u8,
    frames: u32,
) -> Result<Steps, AllocError>
    requires some { 0 < switches }
    requires group { 0 < controllers }
    ensures { IfOk result (λ steps. steps ≡ generator.script number controllers switches frames) }
{
    let mut steps = Steps::from_vec(Vec::with_capacity(alloc, frames as usize + 1)?);
    'frames: for frame in 0..frames {
        steps.push(frame_turn(alloc, number, switches, frame)?)?;
    }
    if controllers >= 3 {
        let actor = Actor::Controller((number % u32::from(controllers)) as u8);
        let input = Local::Crash;
        steps.push(Turn::Local { actor, input })?;
    }
    Ok(steps)
}

/// So many switches of four ports.
fn port_counts(alloc: Global, switches: u8) -> Result<PortCounts, AllocError>
    ensures { IfOk result (λ counts. counts ≡ replicate switches 4) }
{
    Ok(PortCounts::from_vec(vec![in alloc; PORTS; usize::from(switches)]?))
}
