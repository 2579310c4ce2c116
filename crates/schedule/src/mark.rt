// The four kinds of record, by their marks: CH, LN, TM and EN.
ghost use Rattle.std.specs.Prelude.{◌≡◌};
ghost use Rattle.schedule.specs.Records.{body_size};

/// How many letters a mark has.
pub const MARK_SIZE: usize = 2;

/// How many bytes follow CH: the number of variables.
pub const VARIABLES_SIZE: usize = 2;

/// How many bytes follow LN: a relation, a number of terms and a bound.
pub const LINE_SIZE: usize = 6;

/// How many bytes follow TM: a weight and a literal.
pub const TERM_SIZE: usize = 6;

/// How many bytes follow EN.
pub const END_SIZE: usize = 0;

/// The mark that a record begins with, which says what the record holds.
#[derive(Clone, Copy, PartialEq, Eq, Debug)]
pub enum Mark {
    /// CH: how many variables there are.
    Variables,
    /// LN: a line, but for its terms.
    Line,
    /// TM: a term of the line before it.
    Term,
    /// EN: the end of the file.
    End,
}

impl Mark {
    /// How many bytes follow the mark.
    pub fn body_size(self) -> usize
        ensures { result ≡ body_size self }
    {
        match self {
            Mark::Variables => VARIABLES_SIZE,
            Mark::Line => LINE_SIZE,
            Mark::Term => TERM_SIZE,
            Mark::End => END_SIZE,
        }
    }
}
