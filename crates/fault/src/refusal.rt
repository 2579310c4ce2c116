// What is printed of a refusal, and the table of numbers, layers and places.
ghost use Rattle.std.specs.Prelude.{◌≡◌, Some};
ghost use Rattle.fault.specs.Refusals.{
  line_refusal,
  book_refusal,
  sheet_refusal,
  job_refusal,
  file_refusal,
  refusal_text,
};

use crate::book::BookFault;
use crate::file::{AtOffset, FileFault};
use crate::job::JobFault;
use crate::layer::Layer;
use cnf::sheet_fault::{SheetCause, SheetFault};
use pb::line_fault::LineFault;
use std::fmt;

/// A refusal as it is printed.
#[derive(Clone, Copy, PartialEq, Eq, Debug)]
pub struct Refusal {
    // a number, since it is printed as one; it is made once from the enums and nothing switches on it
    /// 1 to 19, by the cause.
    pub number: u8,
    /// Who refuses.
    pub layer: Layer,
    /// A term, a line, a count of clauses or an offset: the table in docs/refusals.md says which.
    pub place: usize,
    /// Where in the schedule file it was met; 0 outside a file.
    pub offset: usize,
}

impl Refusal {
    /// The refusal of this number, by this layer, at this place, met at this offset.
    pub fn new(number: u8, layer: Layer, place: usize, offset: usize) -> Refusal
        ensures { result ≡ record { number = number; layer = layer; place = place; offset = offset } }
    {
        Refusal {
            number,
            layer,
            place,
            offset,
        }
    }
}

// The refusal of a line that the record at this offset of a file holds; the offset is 0 outside a file.
impl From<AtOffset<LineFault>> for Refusal {
    ghost from_gives = { λ a r. r ≡ line_refusal a.fault a.offset };

    fn from(a: AtOffset<LineFault>) -> Refusal {
        let offset = a.offset;
        match a.fault {
            LineFault::Relation => Refusal::new(2, Layer::Lines, 0, offset),
            LineFault::Bound => Refusal::new(3, Layer::Lines, 0, offset),
            LineFault::Terms => Refusal::new(4, Layer::Lines, 0, offset),
            LineFault::Literal(term) => Refusal::new(5, Layer::Lines, term, offset),
            LineFault::Weight(term) => Refusal::new(6, Layer::Lines, term, offset),
        }
    }
}

// The refusal of a call on the book; the offset is 0 outside a file.
impl From<AtOffset<BookFault>> for Refusal {
    ghost from_gives = { λ a r. r ≡ book_refusal a.fault a.offset };

    fn from(a: AtOffset<BookFault>) -> Refusal {
        let offset = a.offset;
        match a.fault {
            BookFault::Variables => Refusal::new(1, Layer::Book, 0, offset),
            BookFault::Full(held) => Refusal::new(7, Layer::Book, held, offset),
            BookFault::NoLine(line) => Refusal::new(8, Layer::Book, line, offset),
            BookFault::Written(line) => Refusal::new(9, Layer::Book, line, offset),
            BookFault::Reach(line) => Refusal::new(10, Layer::Book, line, offset),
            BookFault::Auxiliary(line) => Refusal::new(11, Layer::Book, line, offset),
            BookFault::Withdraw => Refusal::new(12, Layer::Book, 0, offset),
            BookFault::Open(place) => Refusal::new(13, Layer::Book, place, offset),
        }
    }
}

// The refusal of a call on a sheet, which is outside any file.
impl From<SheetFault> for Refusal {
    ghost from_gives = { λ fault r. r ≡ sheet_refusal fault };

    fn from(fault: SheetFault) -> Refusal {
        let number = match fault.cause {
            SheetCause::Malformed => 14,
            SheetCause::Full => 15,
            SheetCause::Cut => 16,
        };
        Refusal::new(number, Layer::Sheet, fault.count, 0)
    }
}

// The refusal of a call on a job, outside a file.
impl From<JobFault> for Refusal {
    ghost from_gives = { λ fault r. r ≡ job_refusal fault };

    fn from(fault: JobFault) -> Refusal {
        match fault {
            JobFault::Line(fault) => Refusal::from(AtOffset { offset: 0, fault }),
            JobFault::Book(fault) => Refusal::from(AtOffset { offset: 0, fault }),
            JobFault::Sheet(fault) => Refusal::from(fault),
        }
    }
}

// The refusal of a file: a fault of the form has its place for an offset.
impl From<FileFault> for Refusal {
    ghost from_gives = { λ fault r. r ≡ file_refusal fault };

    fn from(fault: FileFault) -> Refusal {
        match fault {
            FileFault::Short(at) => Refusal::new(17, Layer::File, at, at),
            FileFault::Mark(at) => Refusal::new(18, Layer::File, at, at),
            FileFault::Trailing(at) => Refusal::new(19, Layer::File, at, at),
            FileFault::Line(offset, fault) => Refusal::from(AtOffset { offset, fault }),
            FileFault::Book(offset, fault) => Refusal::from(AtOffset { offset, fault }),
        }
    }
}

impl fmt::Display for Refusal {
    ghost output = { λ refusal. Some (refusal_text refusal) };

    fn fmt<W: fmt::Write>(&self, f: &mut fmt::Formatter<W>) -> fmt::Result {
        let number = self.number;
        let layer = self.layer;
        let place = self.place;
        let offset = self.offset;
        write!(f, "refused {number} {layer} {place} {offset}")
    }
}
