//! What may be forgotten: it changes nothing of what is said from then on. No code is here: each law is a function that does
//! nothing, and whose clauses say it.
#![tactic(auto)]

mod marks;
mod switches;

pub use marks::marks_forget;
pub use switches::switches_forget;
