//! The two stages of the replicated log: events are received, and later processed (Ravana, 3.2).
#![tactic(auto)]

mod counts;

pub use counts::{
    committed_behind, first_unprocessed, is_processed_by, may_come, may_follow, may_process,
    next_place, processed_of,
};
