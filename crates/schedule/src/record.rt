// A record as a part of the file.
ghost use Rattle.std.specs.Prelude.{◌≡◌, length};

use crate::mark::Mark;

/// A record of a schedule file, which it borrows.
#[derive(Clone, Copy, PartialEq, Eq, Debug)]
pub struct Record<'a> {
    /// What kind of record it is.
    pub mark: Mark,
    /// What follows the mark.
    pub body: &'a [u8],
    /// Where the mark stands in the file, in bytes from the first.
    pub offset: usize,
}

impl<'a> Record<'a> {
    // The body, of the size that goes with the mark.
    pub(crate) fn bytes<const SIZE: usize>(&self) -> [u8; SIZE]
        requires { length self.now.body.now ≡ SIZE }
        ensures { result ≡ self.now.body.now }
    {
        *self.body.first_chunk().unwrap()
    }
}
