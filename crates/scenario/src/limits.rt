//! A scenario that is written, held against its limits. What passes one is `None`, or a fault.
ghost use Rattle.std.specs.Prelude.{◌≡◌, ◌≤◌, ◌++◌, [], length, sum_by, replicate, IfOk, IfSome, OnOk, nat_le};
ghost use Rattle.scenario.specs.declared.scenario.FaultKind.TheVariants as kind;
ghost use Rattle.scenario.specs.declared.scenario.FaultPlace.TheVariants as place;
ghost use Rattle.scenario.specs.Faults.{each, each_alone};
ghost use Rattle.scenario.specs.Limits as limits;
ghost use Rattle.scenario.specs.Scenario.{GivesScenario, scenario_within, setup_within, steps_within};

use crate::scenario::{FaultKind, FaultPlace, Scenario, ScenarioFault, Steps};
use crate::written::{
    Written, WrittenLink, WrittenPrefix, WrittenRule, WrittenStep, WrittenSwitch,
};
use journal::{Actor, Local, Turn};
use of_types::{
    Items, LONGEST_FRAME, Link, Links, Octets, PortCounts, Prefix, Rule, Rules, SHORTEST_FRAME,
    Setup,
};
use std::alloc::{AllocError, Global};
use wires::is_taken;

/// The most switches.
pub const MOST_SWITCHES: usize = 64;

/// The most ports of a switch.
pub const MOST_PORTS: u64 = 48;

/// The most wires.
pub const MOST_LINKS: usize = 1024;

/// The most rules of the firewall.
pub const MOST_RULES: usize = 16;

/// The most turns of a script.
pub const MOST_STEPS: u64 = 100_000;

/// How often one step may be taken.
pub const MOST_TIMES: u64 = 1000;

/// The greatest choice of a draw or a loss.
pub const MOST_CHOICE: u64 = 4_294_967_295;

/// The greatest view of a suspicion.
pub const MOST_VIEW: u64 = 1_000_000;

/// How often an actor may restart.
pub const MOST_RESTARTS: usize = 15;

/// A turn, and how often it is taken.
#[derive(Drop)]
pub struct Timed {
    pub turn: Turn,
    pub times: u64,
}

/// How often a step is taken.
fn times_of(step: &WrittenStep) -> u64
    ensures { result ≡ limits.times_of step.now }
{
    match step {
        WrittenStep::Tick { times, .. }
        | WrittenStep::Draw { times, .. }
        | WrittenStep::Lose { times, .. } => *times,
        _ => 1,
    }
}

/// Whether the steps are no more turns than a script may have.
fn are_few(steps: &[WrittenStep]) -> bool
    ensures { result ≡ nat_le (sum_by limits.times_of steps.now) MOST_STEPS }
{
    let mut turns = 0;
    for step in steps {
        let times = times_of(step);
        if times > MOST_STEPS - turns {
            return false;
        }
        turns += times;
    }
    true
}

/// Whether a scenario as a whole is within its limits.
fn is_within_limits(written: &Written) -> bool
    ensures { result ≡ limits.is_within_limits written.now }
{
    matches!(written.controllers, 1 | 3 | 5 | 7)
        && (1..=MOST_SWITCHES).contains(&written.switches.len())
        && written.links.len() <= MOST_LINKS
        && written.deny.len() <= MOST_RULES
        && written.steps.len() as u64 <= MOST_STEPS
        && are_few(written.steps.as_slice())
}

/// How many ports a switch has.
fn port_count(switch: WrittenSwitch) -> Option<u32>
    ensures { result ≡ limits.ports_within switch }
{
    if (1..=MOST_PORTS).contains(&switch.ports) {
        Some(switch.ports as u32)
    } else {
        None
    }
}

fn ports_within(alloc: Global, switches: &[WrittenSwitch]) -> Result<PortCounts, ScenarioFault>
    ensures exact { GivesScenario result (each_alone kind.Limit place.Switch limits.ports_within switches.now) }
    ensures as_many { IfOk result (λ counts. length counts ≡ length switches.now) }
{
    let mut counts = PortCounts::new(alloc);
    'switches: for (index, switch) in switches.iter().enumerate() {
        let Some(count) = port_count(*switch) else {
            return Err(ScenarioFault::refused(FaultKind::Limit, FaultPlace::Switch(index as u64)));
        };
        counts.push(count)?;
    }
    Ok(counts)
}

/// Whether a switch has a port.
fn is_port(ports: &[u32], switch: u64, port: u64) -> bool
    ensures { result ≡ limits.is_port_within ports.now switch port }
{
    match ports.get(switch as usize) {
        Some(count) => (1..=u64::from(*count)).contains(&port),
        None => false,
    }
}

/// A wire between two ports, and not from one to itself.
fn link_between(ports: &[u32], link: WrittenLink) -> Option<Link>
    requires { length ports.now ≤ MOST_SWITCHES }
    ensures { result ≡ limits.link_between ports.now link }
{
    if is_port(ports, link.switch, link.port)
        && is_port(ports, link.peer, link.peer_port)
        && !(link.switch == link.peer && link.port == link.peer_port)
    {
        Some(Link {
            switch: link.switch as u8,
            port: link.port as u32,
            peer: link.peer as u8,
            peer_port: link.peer_port as u32,
        })
    } else {
        None
    }
}

/// A wire whose ports are no ends of those before it.
fn link_within(ports: &[u32], before: &[Link], link: WrittenLink) -> Option<Link>
    requires { length ports.now ≤ MOST_SWITCHES }
    ensures { result ≡ limits.link_within ports.now before.now link }
{
    let link = link_between(ports, link)?;
    (!is_taken(link.switch, link.port, before)
        && !is_taken(link.peer, link.peer_port, before)).then_some(link)
}

fn links_within(
    alloc: Global,
    ports: &[u32],
    written: &[WrittenLink],
) -> Result<Links, ScenarioFault>
    requires { length ports.now ≤ MOST_SWITCHES }
    ensures { GivesScenario result (each kind.Limit place.Link (limits.link_within ports.now) [] written.now) }
{
    let mut links = Links::new(alloc);
    'links: for (index, link) in written.iter().enumerate() {
        let Some(link) = link_within(ports, links.as_slice(), *link) else {
            return Err(ScenarioFault::refused(FaultKind::Limit, FaultPlace::Link(index as u64)));
        };
        links.push(link)?;
    }
    Ok(links)
}

/// A prefix of addresses. Bits past its length are zero.
fn prefix_within(prefix: WrittenPrefix) -> Option<Prefix>
    ensures { result ≡ limits.prefix_within prefix }
{
    let [first, second, third, fourth] = prefix.bytes;
    if first <= 255 && second <= 255 && third <= 255 && fourth <= 255 && prefix.length <= 32 {
        let address = 256 * (256 * (256 * first + second) + third) + fourth;
        let unit = 1u64 << (32 - prefix.length);
        Some(Prefix {
            address: (address - address % unit) as u32,
            length: prefix.length as u8,
        })
    } else {
        None
    }
}

/// Whether a rule for a protocol may have this port.
fn is_port_of(proto: u64, port: Option<u64>) -> bool
    ensures { result ≡ limits.is_port_of proto port }
{
    match port {
        Some(port) => proto != 0 && port <= 65535,
        None => true,
    }
}

/// A rule of the firewall.
fn rule_within(rule: WrittenRule) -> Option<Rule>
    ensures { result ≡ limits.rule_within rule }
{
    let src = prefix_within(rule.src)?;
    let dst = prefix_within(rule.dst)?;
    if matches!(rule.proto, 0 | 6 | 17) && is_port_of(rule.proto, rule.port) {
        Some(Rule {
            proto: rule.proto as u8,
            src,
            dst,
            port: rule.port.map(|port| port as u16),
        })
    } else {
        None
    }
}

fn rules_within(alloc: Global, written: &[WrittenRule]) -> Result<Rules, ScenarioFault>
    ensures { GivesScenario result (each_alone kind.Limit place.Deny limits.rule_within written.now) }
{
    let mut rules = Rules::new(alloc);
    'rules: for (index, rule) in written.iter().enumerate() {
        let Some(rule) = rule_within(*rule) else {
            return Err(ScenarioFault::refused(FaultKind::Limit, FaultPlace::Deny(index as u64)));
        };
        rules.push(rule)?;
    }
    Ok(rules)
}

/// Whether an actor is one of so many controllers and switches.
fn is_actor(controllers: u8, switches: usize, actor: Actor) -> bool
    ensures { result ≡ limits.is_actor controllers switches actor }
{
    match actor {
        Actor::Controller(number) => number < controllers,
        Actor::Switch(number) => usize::from(number) < switches,
    }
}

/// Whether an actor has not restarted too often.
fn may_restart(restarts: &[Actor], actor: Actor) -> bool
    ensures { result ≡ limits.may_restart restarts.now actor }
{
    restarts.iter().filter(|other| actor.is(**other)).count() < MOST_RESTARTS
}

/// A local input that an actor takes once.
fn once(actor: Actor, input: Local) -> Timed
    ensures { result ≡ limits.once actor input }
{
    Timed {
        turn: Turn::Local { actor, input },
        times: 1,
    }
}

/// A turn that is taken so often.
fn times_within(turn: Turn, times: u64) -> Option<Timed>
    ensures { result ≡ limits.times_within turn times }
{
    if (1..=MOST_TIMES).contains(&times) {
        Some(Timed { turn, times })
    } else {
        None
    }
}

/// A frame at a port of a switch.
fn frame_within(ports: &[u32], switch: u64, port: u64, bytes: Octets) -> Option<Timed>
    requires { length ports.now ≤ MOST_SWITCHES }
    ensures { result ≡ limits.frame_within ports.now switch port bytes }
{
    if is_port(ports, switch, port) && (SHORTEST_FRAME..=LONGEST_FRAME).contains(&bytes.len()) {
        let port = port as u32;
        Some(once(Actor::Switch(switch as u8), Local::Frame { port, bytes }))
    } else {
        None
    }
}

/// A change of a port of a switch.
fn port_within(ports: &[u32], switch: u64, port: u64, up: bool) -> Option<Timed>
    requires { length ports.now ≤ MOST_SWITCHES }
    ensures { result ≡ limits.port_within ports.now switch port up }
{
    if is_port(ports, switch, port) {
        let port = port as u32;
        Some(once(Actor::Switch(switch as u8), Local::Port { port, up }))
    } else {
        None
    }
}

/// A suspicion at a controller.
fn suspect_within(controllers: u8, controller: u64, view: u64) -> Option<Timed>
    ensures { result ≡ limits.suspect_within controllers controller view }
{
    if controller < u64::from(controllers) && (1..=MOST_VIEW).contains(&view) {
        let view = view as u32;
        Some(once(Actor::Controller(controller as u8), Local::Suspect { view }))
    } else {
        None
    }
}

/// A restart of a controller or a switch.
fn restart_within(restarts: &[Actor], actor: Actor) -> Option<Timed>
    ensures { result ≡ limits.restart_within restarts.now actor }
{
    if may_restart(restarts, actor) {
        Some(once(actor, Local::Restart))
    } else {
        None
    }
}

/// The turn of a step and how often it is taken, where these have restarted before it.
#[tactic(auto, using(crate::proofs::Turns::turn_taken))]
fn turn_within(
    controllers: u8,
    ports: &[u32],
    restarts: &[Actor],
    step: WrittenStep,
) -> Option<Timed>
    requires { length ports.now ≤ MOST_SWITCHES }
    ensures exact { result ≡ limits.turn_within controllers ports.now restarts.now step }
    ensures taken { IfSome result (λ timed. 1 ≤ timed.times) }
{
    let is_controller = |number: u64| number < u64::from(controllers);
    match step {
        WrittenStep::Frame {
            switch,
            port,
            bytes,
        } => frame_within(ports, switch, port, bytes),
        WrittenStep::Port { switch, port, up } => port_within(ports, switch, port, up),
        WrittenStep::Tick { actor, times } if is_actor(controllers, ports.len(), actor) => {
            let input = Local::Tick;
            times_within(Turn::Local { actor, input }, times)
        }
        WrittenStep::Draw {
            actor,
            choice,
            keep,
            times,
        } if is_actor(controllers, ports.len(), actor) && choice <= MOST_CHOICE => times_within(
            Turn::Draw {
                actor,
                choice,
                keep,
            },
            times,
        ),
        WrittenStep::Lose {
            actor,
            choice,
            times,
        } if is_actor(controllers, ports.len(), actor) && choice <= MOST_CHOICE => {
            times_within(Turn::Lose { actor, choice }, times)
        }
        WrittenStep::Suspect { controller, view } => suspect_within(controllers, controller, view),
        WrittenStep::Crash { controller } if is_controller(controller) => {
            Some(once(Actor::Controller(controller as u8), Local::Crash))
        }
        WrittenStep::RestartController { controller } if is_controller(controller) => {
            restart_within(restarts, Actor::Controller(controller as u8))
        }
        WrittenStep::RestartSwitch { switch } if switch < ports.len() as u64 => {
            restart_within(restarts, Actor::Switch(switch as u8))
        }
        _ => None,
    }
}

/// Notes who restarts at a turn.
fn note_restart(restarts: &mut Vec<Actor>, turn: &Turn) -> Result<(), AllocError>
    ensures { OnOk result (restarts.new.items ≡ restarts.old.items ++ limits.restarted_actors turn.now) }
{
    if let Turn::Local {
        actor,
        input: Local::Restart,
    } = turn
    {
        restarts.push(*actor)?;
    }
    Ok(())
}

/// Appends a turn as often as it is taken.
fn repeat(steps: &mut Steps, timed: Timed) -> Result<(), AllocError>
    requires { 1 ≤ timed.times }
    ensures { OnOk result (steps.new ≡ steps.old ++ limits.repeated_member timed) }
{
    'times: for _ in 1..timed.times {
        steps.push(timed.turn.copy()?)?;
    }
    steps.push(timed.turn)?;
    Ok(())
}

/// The steps of a script, each as often as it is taken.
#[tactic(auto, unfolding(crate::specs::Scenario::steps_within))]
fn steps_within(
    alloc: Global,
    controllers: u8,
    ports: &[u32],
    written: Items<WrittenStep>,
) -> Result<Steps, ScenarioFault>
    requires { length ports.now ≤ MOST_SWITCHES }
    ensures { GivesScenario result (steps_within controllers ports.now written) }
{
    let mut steps = Steps::new(alloc);
    let mut restarts = Vec::new(alloc);
    let mut place: u64 = 0;
    'steps: for step in written.into_vec() {
        let Some(timed) = turn_within(controllers, ports, restarts.as_slice(), step) else {
            return Err(ScenarioFault::refused(FaultKind::Limit, FaultPlace::Step(place)));
        };
        note_restart(&mut restarts, &timed.turn)?;
        repeat(&mut steps, timed)?;
        place += 1;
    }
    Ok(steps)
}

/// The setup of what is written within its limits.
#[tactic(auto, unfolding(crate::specs::Scenario::setup_within))]
fn setup_within(alloc: Global, written: &Written) -> Result<Setup, ScenarioFault>
    ensures exact { GivesScenario result (setup_within written.now) }
    ensures few { IfOk result (λ setup. length setup.ports ≤ MOST_SWITCHES) }
{
    if !is_within_limits(written) {
        return Err(ScenarioFault::refused(FaultKind::Limit, FaultPlace::Top));
    }
    let controllers = written.controllers as u8;
    let ports = ports_within(alloc, written.switches.as_slice())?;
    let links = links_within(alloc, ports.as_slice(), written.links.as_slice())?;
    let deny = rules_within(alloc, written.deny.as_slice())?;
    Ok(Setup {
        controllers,
        ports,
        links,
        deny,
    })
}

/// What is written within its limits.
#[tactic(auto, unfolding(crate::specs::Scenario::scenario_within))]
pub fn scenario_within(alloc: Global, written: Written) -> Result<Scenario, ScenarioFault>
    ensures { GivesScenario result (scenario_within written) }
{
    let setup = setup_within(alloc, &written)?;
    let steps = steps_within(
        alloc,
        setup.controllers,
        setup.ports.as_slice(),
        written.steps,
    )?;
    Ok(Scenario { setup, steps })
}
