// The working form of a line: positive weights, each variable at most once and rising, and only
// two relations left.
ghost use Rattle.std.specs.Prelude.{◌≡◌};
ghost use Rattle.pb.specs.Normal.{sense_of};

use crate::constraint::{MOST_BOUND, MOST_TERMS};
use crate::relation::Relation;
use crate::term::MOST_WEIGHT;

/// The most that the weights of a normal form come to: as many terms as a line may have, each of the
/// greatest weight.
pub const MOST_WEIGHT_SUM: u32 = MOST_TERMS as u32 * MOST_WEIGHT;

/// The greatest bound of a normal form: a line's greatest bound, or one past it where the relation is
/// strict, once lowered and once raised by the most that weights come to.
pub const MOST_WORKING_BOUND: u32 = MOST_BOUND + 1 + 2 * MOST_WEIGHT_SUM;

/// How a working line's total is to stand to its bound.
#[derive(Clone, Copy, PartialEq, Eq, Debug)]
pub enum Sense {
    /// The total is the bound or more.
    AtLeast,
    /// The total is the bound.
    Exactly,
}

/// Every relation but "exactly" is an "at least" once the line is in normal form.
impl From<Relation> for Sense {
    ghost from_gives = { λ relation r. r ≡ sense_of relation };

    fn from(relation: Relation) -> Sense {
        match relation {
            Relation::AtLeast | Relation::AtMost | Relation::MoreThan | Relation::LessThan =>
                Sense::AtLeast,
            Relation::Exactly => Sense::Exactly,
        }
    }
}

/// A term of a working line: a weight that counts where a literal holds.
// A type of its own beside Term, since its weight has no sign.
#[derive(Clone, Copy, PartialEq, Eq, Debug, Default)]
pub struct WorkingTerm {
    /// What the term adds to the total where its literal holds.
    pub weight: u32,
    /// `v`, that variable v is true, or `-v`, that it is false.
    pub literal: i16,
}

/// A working line over terms that are lent.
// A type of its own beside Constraint, since its relation has two cases and its bound no sign.
#[derive(Clone, Copy, PartialEq, Eq, Debug)]
pub struct WorkingLine<'a> {
    /// How the total is to stand to the bound.
    pub sense: Sense,
    /// What the total is compared with.
    pub bound: u32,
    /// The terms; in normal form by rising variable, and of positive weight.
    pub terms: &'a [WorkingTerm],
}

/// A working line but for its terms, which are the first of a table that is lent.
#[derive(Clone, Copy, PartialEq, Eq, Debug)]
pub struct WorkingHead {
    /// How the total is to stand to the bound.
    pub sense: Sense,
    /// What the total is compared with.
    pub bound: u32,
    /// How many of the table's first terms are the line's.
    pub count: usize,
}

impl WorkingHead {
    /// At least 0, without terms: met by every assignment.
    pub const EMPTY: WorkingHead = WorkingHead {
        sense: Sense::AtLeast,
        bound: 0,
        count: 0,
    };

    /// At least 1, without terms: met by none.
    pub const IMPOSSIBLE: WorkingHead = WorkingHead {
        sense: Sense::AtLeast,
        bound: 1,
        count: 0,
    };
}
