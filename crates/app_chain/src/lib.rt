//! Chains of parts, boxed or not. A chain is an application: it asks its parts in order until one stops, and joins
//! their commands.
#![tactic(auto)]

mod chain;
mod life;
mod shown;

pub use chain::{Chain, ChainOf, MOST_COMMANDS};
pub use life::{LifeChain, LifeOf};
pub use shown::{has_kinds, is_within};
