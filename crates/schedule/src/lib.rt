// Schedule files: variables and lines as a row of records.
#![tactic(auto)]

mod bodies;
mod fields;
pub mod line;
pub mod mark;
pub mod reader;
pub mod record;
