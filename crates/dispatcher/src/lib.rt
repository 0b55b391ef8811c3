//! What a primary makes of the committed log (Ravana, 4.2): what its application issues for each event, which commands
//! still want a result, and what is answered to switches.
#![tactic(auto)]

mod answers;
mod commands;
mod counts;
mod dispatcher;
mod few;
mod highest;
mod ledger;
mod lives;
mod marks;
mod numbered;

pub use answers::{AckThrough, EventAction, HandledEvent};
pub use dispatcher::Dispatcher;
pub use few::Few;
pub use numbered::NumberedOrder;
