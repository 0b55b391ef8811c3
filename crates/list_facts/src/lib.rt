//! Words for lists that the laws of runs stand on, and what holds of them: what stands in a list, what begins one, and
//! what stands at its places. No code is here.
//!
//! What an actor holds behind its own entries, and what it owes: one fold, of each kind of actor.
#![tactic(auto)]
