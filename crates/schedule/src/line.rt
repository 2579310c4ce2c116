// A line as it was read. Its terms lie in an array of its own, so that it borrows nothing.
ghost use Rattle.std.specs.Prelude.{◌≡◌, ◌≤◌, length};
ghost use Rattle.pb.specs.declared.constraint.TheConstants.{MOST_TERMS};
ghost use Rattle.pb.specs.Lines.{entered_line};

use pb::constraint::{Constraint, MOST_TERMS};
use pb::relation::Relation;
use pb::term::Term;

/// A line of a schedule file, whose terms are not judged yet.
#[derive(Clone, Copy, PartialEq, Eq, Debug)]
pub struct ReadLine {
    /// How its total and its bound are to compare.
    pub relation: Relation,
    /// Its bound.
    pub bound: i32,
    /// Where its first record stands in the file, in bytes from the first.
    pub offset: usize,
    // an array with its count beside it, since a ReadLine can be copied, as no ArrayVec can.
    // only the first `count` of these are the line's
    pub(crate) terms: [Term; MOST_TERMS],
    pub(crate) count: usize,
    ghost few: { count ≤ MOST_TERMS },
}

impl ReadLine {
    ghost use Rattle.schedule.specs.ReadLine.{line_of};

    /// The line's terms, in the order of the file.
    pub fn terms(&self) -> &[Term]
        ensures terms { result.now ≡ (line_of self.now).terms }
        ensures few { length result.now ≤ MOST_TERMS }
    {
        &self.terms[0..self.count]
    }

    /// The line as it is to be entered, over its own terms.
    pub fn constraint(&self) -> Constraint<'_>
        ensures { entered_line result ≡ line_of self.now }
    {
        Constraint {
            relation: self.relation,
            bound: self.bound,
            terms: self.terms(),
        }
    }
}
