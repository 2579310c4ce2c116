// Clauses, lists of them, and what a sheet that holds clauses is.
#![tactic(auto)]

pub mod clause;
pub mod listing;
pub mod marks;
pub mod sheet;
pub mod sheet_fault;
pub mod units;
