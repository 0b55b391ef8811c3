//! Reading actions and instructions.
ghost use Rattle.std.specs.Prelude.{◌≡◌, ◌≤◌, length, IfOk};
ghost use Rattle.of_bytes.specs.Reading.{Gives};
ghost use Rattle.of_messages.specs.Answers.{GivesBody};
ghost use Rattle.of_messages.specs.Reading.{is_bad_action_length, output_at, actions_at, instruction_length_at, instruction_at, second_at, instructions_at};

use crate::fault::BodyFault;
use of_bytes::{u16_at, u32_at};
use of_types::{
    APPLY_ACTIONS, Actions, BAD_ACTION, BAD_ACTION_LENGTH, BAD_INSTRUCTION, BAD_LENGTH, OUTPUT,
    OUTPUT_LENGTH, Refusal,
};
use std::alloc::Global;

/// The ports of all actions.
pub fn read_actions(alloc: Global, bytes: &[u8]) -> Result<Actions, BodyFault>
    ensures { GivesBody (λ ports. ports) result (actions_at bytes.now) }
{
    let mut ports = Actions::new(alloc);
    let mut rest = bytes;
    'actions: while !rest.is_empty() {
        let port = output(rest)?;
        ports.push(port)?;
        let (_, after) = rest.split_at(usize::from(OUTPUT_LENGTH));
        rest = after;
    }
    Ok(ports)
}

/// The ports that the instructions of a FLOW_MOD output to.
#[tactic(auto, unfolding(crate::specs::Reading::instructions_at))]
pub fn read_instructions(alloc: Global, bytes: &[u8]) -> Result<Actions, BodyFault>
    ensures { GivesBody (λ ports. ports) result (instructions_at bytes.now) }
{
    if bytes.is_empty() {
        return Ok(Actions::new(alloc));
    }
    let (actions, rest) = instruction(bytes)?;
    let ports = read_actions(alloc, actions)?;
    with_no_second(ports, rest)
}

fn is_bad_action_length(bytes: &[u8]) -> bool
    ensures { result ≡ is_bad_action_length bytes.now }
{
    if bytes.len() < 4 {
        return true;
    }
    let len = usize::from(u16_at(bytes, 2));
    len % 8 != 0 || len < 8 || bytes.len() < len
}

/// The port of the action at the front.
#[tactic(auto, unfolding(crate::specs::Reading::output_at))]
fn output(bytes: &[u8]) -> Result<u32, Refusal>
    ensures exact { result ≡ output_at bytes.now }
    ensures there { IfOk result (λ _. 16 ≤ length bytes.now) }
{
    if is_bad_action_length(bytes) {
        return Err(BAD_ACTION_LENGTH);
    }
    if u16_at(bytes, 0) != OUTPUT {
        return Err(BAD_ACTION);
    }
    if u16_at(bytes, 2) != OUTPUT_LENGTH {
        return Err(BAD_ACTION_LENGTH);
    }
    Ok(u32_at(bytes, 4))
}

/// The length of the instruction at the front.
#[tactic(auto, unfolding(crate::specs::Reading::instruction_length_at))]
fn instruction_length(bytes: &[u8]) -> Result<usize, Refusal>
    ensures exact { result ≡ instruction_length_at bytes.now }
    ensures there { IfOk result (λ len. (8 ≤ len) × (len ≤ length bytes.now)) }
{
    if bytes.len() < 4 {
        return Err(BAD_LENGTH);
    }
    let len = usize::from(u16_at(bytes, 2));
    if len < 8 || bytes.len() < len {
        return Err(BAD_LENGTH);
    }
    Ok(len)
}

/// The actions of the instruction at the front, and what comes behind it.
#[tactic(auto, unfolding(crate::specs::Reading::instruction_at))]
fn instruction(bytes: &[u8]) -> Result<(&[u8], &[u8]), Refusal>
    ensures { Gives (λ x. (x.0.now, x.1.now)) result (instruction_at bytes.now) }
{
    let len = instruction_length(bytes)?;
    if u16_at(bytes, 0) != APPLY_ACTIONS {
        return Err(BAD_INSTRUCTION);
    }
    Ok((&bytes[8..len], &bytes[len..]))
}

/// A second instruction is refused, whatever it is.
#[tactic(auto, unfolding(crate::specs::Reading::second_at))]
fn with_no_second(ports: Actions, rest: &[u8]) -> Result<Actions, BodyFault>
    ensures { GivesBody (λ ports. ports) result (second_at ports rest.now) }
{
    if rest.is_empty() {
        return Ok(ports);
    }
    instruction_length(rest)?;
    Err(BodyFault::Wire(BAD_INSTRUCTION))
}
