// Sheets over lent memory, in which the clauses lie one after another: in cells or as text; and a ceiling over any
// sheet.
#![tactic(auto)]

pub mod ceiling;
pub mod finished;
pub mod flat;
mod layout;
pub mod memory;
mod reading;
pub mod text;
mod writing;
