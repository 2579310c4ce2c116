// What a call of a job can refuse.
ghost use Rattle.std.specs.Prelude.{◌≡◌};
ghost use Rattle.fault.specs.declared.job.JobFault.TheVariants.{Line, Book, Sheet};
ghost use Rattle.fault.specs.Refusals.{write_fault};

use crate::book::BookFault;
use cnf::sheet_fault::SheetFault;
use encode::encode_fault::EncodeFault;
use pb::line_fault::LineFault;

/// A refusal by one of the layers that a job's calls go through, whole.
#[derive(Clone, Copy, PartialEq, Eq, Debug)]
pub enum JobFault {
    /// Something is wrong with the line.
    Line(LineFault),
    /// The book refuses.
    Book(BookFault),
    /// The sheet refuses.
    Sheet(SheetFault),
}

impl From<LineFault> for JobFault {
    ghost from_gives = { λ fault r. r ≡ Line fault };

    fn from(fault: LineFault) -> JobFault {
        JobFault::Line(fault)
    }
}

impl From<BookFault> for JobFault {
    ghost from_gives = { λ fault r. r ≡ Book fault };

    fn from(fault: BookFault) -> JobFault {
        JobFault::Book(fault)
    }
}

impl From<SheetFault> for JobFault {
    ghost from_gives = { λ fault r. r ≡ Sheet fault };

    fn from(fault: SheetFault) -> JobFault {
        JobFault::Sheet(fault)
    }
}

/// An encoder's refusal with the number of the line that was to be written, which the encoder does not know.
#[derive(Clone, Copy, PartialEq, Eq, Debug)]
pub struct WriteFault {
    /// The number of the line.
    pub line: usize,
    /// What the encoder or the sheet refused.
    pub fault: EncodeFault,
}

impl From<WriteFault> for JobFault {
    ghost from_gives = { λ w r. r ≡ write_fault w.line w.fault };

    fn from(write: WriteFault) -> JobFault {
        match write.fault {
            EncodeFault::Reach => JobFault::Book(BookFault::Reach(write.line)),
            EncodeFault::Sheet(fault) => JobFault::Sheet(fault),
        }
    }
}
