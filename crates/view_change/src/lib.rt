//! View changes of a replicated group (Viewstamped Replication Revisited, 4.2). The logs that members send
//! leave out what is committed, and the primary of a new view fetches what it lacks (our own rule).
#![tactic(auto)]

mod adopting;
mod cases;
mod checking;
mod entering;
mod starting;

pub use adopting::adopt;
pub use cases::{
    on_do_view_change, on_fetch, on_start_view, on_start_view_change, on_supply, suspect,
};
pub use checking::enter_and_check;
