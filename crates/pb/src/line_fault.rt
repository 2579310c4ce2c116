// What can be wrong with one line.

/// What is wrong with a line. Terms are numbered from 1.
#[derive(Clone, Copy, PartialEq, Eq, Debug)]
pub enum LineFault {
    /// The relation's number is that of none.
    Relation,
    /// The bound is further from 0 than [`MOST_BOUND`](crate::constraint::MOST_BOUND).
    Bound,
    /// There are more terms than [`MOST_TERMS`](crate::constraint::MOST_TERMS).
    Terms,
    /// This term's literal is 0, or of no variable of the job.
    Literal(usize),
    /// This term's weight is further from 0 than [`MOST_WEIGHT`](crate::term::MOST_WEIGHT).
    Weight(usize),
}
