//! The tests of single crates, apart from them, so that each crate is proved once: what no run of the program reaches. Of the parts
//! below a controller these are refusals by a caller's fault, limits, refused memory, ends that fail, and what threads meet
//! that share a board; each run of a table is played on both of its forms. From the applications up they are `route_app`
//! and `app_upgrade`, bodies of bytes, and `write_report`. Of bodies only what a way adds stands here, which is the head of
//! what is refused and the lengths of a link: what bytes say stands in the lines of `run_codecs`, and what an audit finds in
//! the cases that `run_cases` plays. Turns of a switch, events of a slot and turns of a group's controllers are computed
//! as theorems (`proofs/SwitchTurns.antt`, `RareTurns.antt`, `Computed.antt`, `Routed.antt` and `ControllerTurns.antt`).
//!
//! A proof of a function costs by the types that it can reach. So a value of a large one stands in few functions, and a test
//! itself sees numbers alone.
#![tactic(auto)]

#[cfg(test)]
mod boards;
#[cfg(test)]
mod bodies;
#[cfg(test)]
mod buffers;
#[cfg(test)]
mod changes;
#[cfg(test)]
mod clocks;
#[cfg(test)]
mod entries;
#[cfg(test)]
mod fence;
#[cfg(test)]
mod forgetting;
#[cfg(test)]
mod frame;
#[cfg(test)]
mod journals;
#[cfg(test)]
mod limits;
#[cfg(test)]
mod log;
#[cfg(test)]
mod normal;
#[cfg(test)]
mod orders;
#[cfg(test)]
mod reports;
#[cfg(test)]
mod routes;
#[cfg(test)]
mod slots;
#[cfg(test)]
mod sources;
#[cfg(test)]
mod tables;
#[cfg(test)]
mod timeouts;
#[cfg(test)]
mod written;
