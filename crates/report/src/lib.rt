//! The report of a run: what it holds, its text, and how it is read back.
#![tactic(auto)]

mod canonical;
mod counted;
mod fault;
mod fitting;
mod heads;
mod journal_lines;
mod laws;
mod line;
mod lines;
mod log_lines;
mod outline;
mod parts;
mod reading;
mod record;
mod report_text;
mod room;
mod setup_lines;
mod sheet;
mod spelled;
mod sums;
mod switch_lines;
mod switches;
mod words;
mod writing;

pub use fault::ReportFault;
pub use fitting::{journal_fits, record_fits};
pub use laws::{record_law, report_law};
pub use outline::{Outline, read_outline};
pub use parts::ReportText;
pub use reading::{REPORT_LIMIT, read_report};
pub use record::{Record, RowRecord, SwitchRecord};
pub use report_text::{text, text_of_run};
pub use sheet::Growing;
pub use sums::{Sums, last_line};
pub use words::{
    write_actor, write_digits, write_labelled, write_newline, write_number, write_word,
};
pub use writing::write_report;
