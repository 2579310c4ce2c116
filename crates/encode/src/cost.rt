// What encoding a line comes to.

/// What encoding a line that is in reach comes to.
#[derive(Clone, Copy, PartialEq, Eq, Debug)]
pub struct Cost {
    /// How many auxiliaries the line takes.
    pub auxiliaries: usize,
}
