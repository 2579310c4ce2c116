#![tactic(auto)]

// Tests that cross crates: worked lines, one run over every sheet and each layer, and the encoders on real sheets.
#[cfg(test)]
mod encoders_on_sheets;
#[cfg(test)]
mod every_sheet;
#[cfg(test)]
mod exercise;
#[cfg(test)]
mod lent_memory;
#[cfg(test)]
mod normal_forms;
#[cfg(test)]
mod unit_clauses;
#[cfg(test)]
mod working_lines;
