//! The command line of the programs: what words ask for, the statuses and lines that a call ends with, and the whole call of a
//! program that makes something of a report.
#![tactic(auto)]

mod conversion;
mod status;
mod text;
mod words;

pub use conversion::{Ending, Taken, end_call, take_report};
pub use status::{NO_MEMORY, WRITE_FAILED};
pub use text::{Text, differs_line, unread_line};
pub use words::{Job, WordsFault, accepted_words, read_words, words_of};
