// What can be wrong with a schedule file: a fault of its form, or a line's or the book's own fault, whole, with the
// offset of the record that it was met at.
ghost use Rattle.std.specs.Prelude.{◌≡◌};
ghost use Rattle.fault.specs.declared.file.FileFault.TheVariants.{Line, Book};

use crate::book::BookFault;
use pb::line_fault::LineFault;

/// A fault of a schedule file. Offsets are counted in bytes from the file's first, which has 0.
#[derive(Clone, Copy, PartialEq, Eq, Debug)]
pub enum FileFault {
    /// The record that begins here is cut short.
    Short(usize),
    /// The mark that stands here is not one that may come.
    Mark(usize),
    /// Bytes follow the last record, from here on.
    Trailing(usize),
    /// The record here holds, or belongs to, a line that something is wrong with.
    Line(usize, LineFault),
    /// The book refuses what the record here says.
    Book(usize, BookFault),
}

/// A fault with the offset of the record that it was met at.
#[derive(Clone, Copy, PartialEq, Eq, Debug)]
pub struct AtOffset<E> {
    /// Where the record stands in the file, in bytes from the first.
    pub offset: usize,
    /// What is wrong there.
    pub fault: E,
}

impl From<AtOffset<LineFault>> for FileFault {
    ghost from_gives = { λ a r. r ≡ Line a.offset a.fault };

    fn from(a: AtOffset<LineFault>) -> FileFault {
        FileFault::Line(a.offset, a.fault)
    }
}

impl From<AtOffset<BookFault>> for FileFault {
    ghost from_gives = { λ a r. r ≡ Book a.offset a.fault };

    fn from(a: AtOffset<BookFault>) -> FileFault {
        FileFault::Book(a.offset, a.fault)
    }
}
