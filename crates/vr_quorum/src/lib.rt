//! What a member decides once enough others have answered (Viewstamped Replication Revisited, 4.1 to 4.3): up to
//! where entries are committed, which log a view starts with, whether a recovery may end.
#![tactic(auto)]

mod committing;
mod ending;
mod starting;

pub use committing::own_commit;
pub use ending::{greatest_view, is_enough};
pub use starting::starting_log;
