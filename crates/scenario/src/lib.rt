//! Scenarios, read from JSON: the setup of a run and the steps of its script.
#![tactic(auto)]

mod generator;
mod grammar;
mod json;
mod limits;
mod reading;
mod scenario;
mod written;

pub use generator::generate;
pub use reading::{SCENARIO_LIMIT, read_scenario};
pub use scenario::{Fault, FaultKind, FaultPlace, Scenario, ScenarioFault, Steps};
