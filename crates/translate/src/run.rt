// How far a run over the lines of a file has come.
use fault::refusal::Refusal;
use pb::variables::Variables;

// The book of a run, by what is left of it, and what writing has come to.
#[derive(Clone, Copy, PartialEq, Eq, Debug)]
pub(crate) struct Run {
    pub(crate) variables: Variables,
    // lines entered so far
    pub(crate) held: usize,
    // terms that are still free
    pub(crate) free: usize,
    // the highest number taken by a variable or an auxiliary, or the first refusal of writing
    pub(crate) written: Result<u16, Refusal>,
}
