// What clauses are made of.

/// A part of a clause: a literal, or what holds under every assignment or under none.
#[derive(Clone, Copy, PartialEq, Eq, Debug)]
pub enum Part {
    /// v, that variable v is true, or -v, that it is false.
    Literal(i32),
    /// It holds under every assignment.
    Always,
    /// It holds under none.
    Never,
}
