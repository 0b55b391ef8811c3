//! The flow table of a switch in a form that finds its rows by priority and exact destination.
#![tactic(auto)]

mod changes;
mod entries;
mod index;
mod place;

pub use index::FlowIndex;
