// What the book, which keeps a job's variables, lines and settled literals, can refuse.

/// A refusal by the book. Lines are numbered from 1.
#[derive(Clone, Copy, PartialEq, Eq, Debug)]
pub enum BookFault {
    /// A job has 1 to 256 variables.
    Variables,
    /// There is no free line, or there are fewer free terms than the line has: so many lines are held.
    Full(usize),
    /// There is no line of this number.
    NoLine(usize),
    /// The line of this number is written.
    Written(usize),
    /// The line of this number is out of the encoder's reach.
    Reach(usize),
    /// An auxiliary of the line of this number would have a number above 60,000.
    Auxiliary(usize),
    /// There is no write or post to take back, or the sheet is shorter than where the latest one began.
    Withdraw,
    /// The line of this number, the first such, is not written; or, as 0, a settled literal is not posted.
    Open(usize),
}
