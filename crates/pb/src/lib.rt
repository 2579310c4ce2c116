// Lines: weighted yes-or-no constraints over numbered variables, and the form that the encoders take.
#![tactic(auto)]

pub mod constraint;
pub mod line_fault;
pub mod relation;
pub mod term;
pub mod variables;
pub mod working;
