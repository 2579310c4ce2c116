// A working line put on a sheet by an encoder.
ghost use Rattle.std.specs.Prelude.{◌≡◌, ◌≤◌, IfOk};
ghost use Rattle.cnf.specs.declared.clause.TheConstants.{LAST_NUMBER};
ghost use Rattle.fault.specs.Refusals.{book_refusal};
ghost use Rattle.pb.specs.Lines.{working_of};
ghost use Rattle.translate.specs.Translation.{write_by};
ghost use Rattle.translate.specs.Streaming.{progress, OnlyAppends};

use cnf::clause::LAST_NUMBER;
use cnf::sheet::Sheet;
use encode::encode_fault::EncodeFault;
use encode::encoder::Encoder;
use fault::book::BookFault;
use fault::file::AtOffset;
use fault::refusal::Refusal;
use pb::working::WorkingLine;

// The refusal of a call on the book, which is outside any file.
fn refused(fault: BookFault) -> Refusal
    ensures { result ≡ book_refusal fault 0 }
{
    Refusal::from(AtOffset { offset: 0, fault })
}

// Writes the line of this number, whose auxiliaries come after the numbers taken, and answers how many are taken then;
// or leaves the sheet.
pub(crate) fn write<E: Encoder, S: Sheet>(
    encoder: &E,
    number: usize,
    taken: u16,
    line: WorkingLine<'_>,
    sheet: &mut S,
) -> Result<u16, Refusal>
    requires { taken ≤ LAST_NUMBER }
    ensures appends { OnlyAppends S.Sheet sheet.old sheet.new }
    ensures low { IfOk result (λ last. last ≤ LAST_NUMBER) }
    ensures comes { write_by (E.Encoder.meaning encoder.now) (S.Sheet.fits sheet.old) number
        (record { held = S.Sheet.held sheet.old; numbers = taken }) (working_of line.entry)
        ≡ progress result (S.Sheet.held sheet.new) }
{
    let first = taken + 1;
    let cost = encoder
        .reach(line, first)
        .ok_or(refused(BookFault::Reach(number)))?;
    if cost.auxiliaries > usize::from(LAST_NUMBER - taken) {
        return Err(refused(BookFault::Auxiliary(number)));
    }
    match encoder.encode(line, first, sheet) {
        Ok(_) => Ok(taken + cost.auxiliaries as u16),
        Err(EncodeFault::Sheet(fault)) => Err(Refusal::from(fault)),
        // the encoder has said that the line is in reach
        Err(EncodeFault::Reach) => unreachable!(),
    }
}
