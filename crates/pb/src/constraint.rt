// A line as it is entered, over terms that are lent, and its limits.
use crate::relation::Relation;
use crate::term::Term;

/// The most terms that a line may have.
pub const MOST_TERMS: usize = 64;

/// The greatest size of a line's bound, which may be negative.
pub const MOST_BOUND: u32 = 1_000_000;

/// A line as it is entered: the total of its terms is to stand in a relation to its bound.
#[derive(Clone, Copy, PartialEq, Eq, Debug)]
pub struct Constraint<'a> {
    /// How the total is to stand to the bound.
    pub relation: Relation,
    /// What the total is compared with, within [`MOST_BOUND`] of 0.
    pub bound: i32,
    /// The terms, in the order in which they were entered, at most [`MOST_TERMS`].
    pub terms: &'a [Term],
}
