// Refusals: what the book, a file and a call of a job can refuse, and what is printed of any refusal. Lines and
// sheets have their own faults, which are carried here whole.
#![tactic(auto)]

pub mod book;
pub mod file;
pub mod job;
pub mod layer;
pub mod refusal;
