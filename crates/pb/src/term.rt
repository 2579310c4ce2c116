// What a line's total is summed from.

/// The greatest size of a term's weight, which may be negative.
pub const MOST_WEIGHT: u32 = 10_000;

/// A weight that counts where a literal holds.
#[derive(Clone, Copy, PartialEq, Eq, Debug, Default)]
pub struct Term {
    /// What the term adds to the total where its literal holds, within [`MOST_WEIGHT`] of 0.
    pub weight: i32,
    /// `v`, that variable v is true, or `-v`, that it is false.
    // Literals of clauses have 32 bits, so that the complement of every literal of 16 bits exists there.
    pub literal: i16,
}
