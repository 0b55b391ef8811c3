//! Cases of the program: calls, and what is wanted of them. They are read from files and from rows of tables, and an answer
//! is held against what is wanted.
#![tactic(auto)]

mod call;
mod case;
mod difference;
mod files;
mod kept;
mod passing;
mod row;
mod tally;
mod wanted;

pub use call::{Answer, Call, ControllerSave, words_of};
pub use case::Case;
pub use difference::{Difference, shown};
pub use files::read_text;
pub use kept::{Kind, read_case};
pub use passing::{Passes, Waits};
pub use row::{name_of, read_row};
pub use tally::Tally;
pub use wanted::{Passage, Wanted};
