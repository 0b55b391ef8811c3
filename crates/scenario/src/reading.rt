//! Reading a scenario: first the shape of all that is written, then its limits.
ghost use Rattle.std.specs.Prelude.{◌≡◌, ℕ, Option, map, IfOk, option_map};
ghost use Rattle.serde_json.specs.Data.{Data};
ghost use Rattle.serde_json.specs.Read.{read};
ghost use Rattle.serde_json.specs.View.{view};
ghost use Rattle.scenario.specs.declared.scenario.FaultKind.TheVariants as kind;
ghost use Rattle.scenario.specs.declared.scenario.FaultPlace.{FaultPlace};
ghost use Rattle.scenario.specs.declared.scenario.FaultPlace.TheVariants as place;
ghost use Rattle.scenario.specs.Faults.{each_alone};
ghost use Rattle.scenario.specs.Grammar as grammar;
ghost use Rattle.scenario.specs.Scenario.{GivesScenario, IsScenario, text_of, json_of, scenario_of};
ghost use Rattle.scenario.specs.Written.{written_of_json};

use crate::grammar::{link_of, lists_of, rule_of, step_of, switch_of};
use crate::limits::scenario_within;
use crate::scenario::{FaultKind, FaultPlace, Scenario, ScenarioFault};
use crate::written::{Written, WrittenLink, WrittenRule, WrittenStep, WrittenSwitch};
use of_types::Items;
use serde_json::Value;
use std::alloc::{AllocError, Global};
use std::str;

/// The most bytes of a scenario.
pub const SCENARIO_LIMIT: usize = 16_777_216;

/// What stands in one of the lists of a scenario.
trait Listed: Drop {
    /// What a value says.
    ghost said: { Data → Option Self };
    /// Where the fault of an item stands.
    ghost stands: { ℕ → FaultPlace };

    /// What a value says.
    fn read(alloc: Global, value: &Value) -> Result<Option<Self>, AllocError>
        ensures { IfOk result (λ found. found ≡ said (view value.now)) };

    /// Where the fault of an item stands.
    fn place(index: u64) -> FaultPlace
        ensures { result ≡ stands index };
}

impl Listed for WrittenSwitch {
    ghost said = { grammar.switch_of };

    ghost stands = { place.Switch };

    fn read(_: Global, value: &Value) -> Result<Option<WrittenSwitch>, AllocError> {
        Ok(switch_of(value))
    }

    fn place(index: u64) -> FaultPlace {
        FaultPlace::Switch(index)
    }
}

impl Listed for WrittenLink {
    ghost said = { grammar.link_of };

    ghost stands = { place.Link };

    fn read(_: Global, value: &Value) -> Result<Option<WrittenLink>, AllocError> {
        Ok(link_of(value))
    }

    fn place(index: u64) -> FaultPlace {
        FaultPlace::Link(index)
    }
}

impl Listed for WrittenRule {
    ghost said = { grammar.rule_of_json };

    ghost stands = { place.Deny };

    fn read(_: Global, value: &Value) -> Result<Option<WrittenRule>, AllocError> {
        Ok(rule_of(value))
    }

    fn place(index: u64) -> FaultPlace {
        FaultPlace::Deny(index)
    }
}

impl Listed for WrittenStep {
    ghost said = { grammar.step_of_json };

    ghost stands = { place.Step };

    fn read(alloc: Global, value: &Value) -> Result<Option<WrittenStep>, AllocError> {
        step_of(alloc, value)
    }

    fn place(index: u64) -> FaultPlace {
        FaultPlace::Step(index)
    }
}

/// What each value of a list says, up to the first that has another shape.
fn read_each<L: Listed>(alloc: Global, values: &[Value]) -> Result<Items<L>, ScenarioFault>
    ensures { GivesScenario result (each_alone kind.Shape L.stands L.said (map view values.now)) }
{
    let mut items = Items::new(alloc);
    'values: for (index, value) in values.iter().enumerate() {
        let Some(item) = L::read(alloc, value)? else {
            return Err(ScenarioFault::refused(FaultKind::Shape, L::place(index as u64)));
        };
        items.push(item)?;
    }
    Ok(items)
}

/// What is written of a scenario.
#[tactic(auto, unfolding(crate::specs::Written::written_of_json))]
fn written_of(alloc: Global, value: &Value) -> Result<Written, ScenarioFault>
    ensures { GivesScenario result (written_of_json (view value.now)) }
{
    let Some(lists) = lists_of(value) else {
        return Err(ScenarioFault::refused(FaultKind::Shape, FaultPlace::Top));
    };
    Ok(Written {
        controllers: lists.controllers,
        switches: read_each(alloc, lists.switches)?,
        links: read_each(alloc, lists.links)?,
        deny: read_each(alloc, lists.deny)?,
        steps: read_each(alloc, lists.steps)?,
    })
}

/// The text that bytes are.
fn text_of(bytes: &[u8]) -> Option<&str>
    ensures { option_map (λ text. text.now) result ≡ text_of bytes.now }
{
    str::from_utf8(bytes).ok()
}

/// The JSON value of a text.
fn value_of(alloc: Global, text: &str) -> Result<Option<Value>, AllocError>
    ensures { IfOk result (λ found. option_map view found ≡ read text.now) }
{
    match Value::from_str(alloc, text) {
        Ok(value) => Ok(Some(value)),
        Err(error) if error.is_memory() => Err(AllocError),
        Err(_) => Ok(None),
    }
}

/// The JSON value of bytes.
fn json_of(alloc: Global, bytes: &[u8]) -> Result<Option<Value>, AllocError>
    ensures { IfOk result (λ found. option_map view found ≡ json_of bytes.now) }
{
    match text_of(bytes) {
        Some(text) => value_of(alloc, text),
        None => Ok(None),
    }
}

/// Reads a scenario: a JSON object with exactly the members `controllers`, `switches` and `steps`, and
/// `links` and `deny` where they are not left out. docs/REPORT.md has the whole form.
///
/// Numbers are whole, from 0 to the greatest of 64 bits, with neither a point nor an exponent. Of members
/// with one name the last stands.
///
/// # Errors
///
/// `Refused` tells the first fault: more than 16,777,216 bytes are of kind `Size` and bytes that are no
/// JSON text of kind `Json`, both at `Top`; then comes the first fault of shape at any place, and only then
/// the first of a limit. `OutOfMemory` comes only if memory ran out.
#[tactic(auto, unfolding(crate::specs::Scenario::scenario_of))]
pub fn read_scenario(alloc: Global, bytes: &[u8]) -> Result<Scenario, ScenarioFault>
    ensures exact { GivesScenario result (scenario_of bytes.now) }
    ensures form { IfOk result (λ scenario. IsScenario scenario) }
{
    if bytes.len() > SCENARIO_LIMIT {
        return Err(ScenarioFault::refused(FaultKind::Size, FaultPlace::Top));
    }
    let Some(value) = json_of(alloc, bytes)? else {
        return Err(ScenarioFault::refused(FaultKind::Json, FaultPlace::Top));
    };
    let written = written_of(alloc, &value)?;
    scenario_within(alloc, written)
}
