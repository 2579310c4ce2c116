// An encoder turns a working line into clauses over the line's variables and auxiliaries of its own.
ghost use Rattle.std.specs.Prelude.{◌≡◌};
ghost use Rattle.encode.specs.Calls.{reach_answer, Encoded};
ghost use Rattle.encode.specs.Law.{Encoding, Lawful};
ghost use Rattle.pb.specs.Lines.{working_of};

use crate::cost::Cost;
use crate::encode_fault::EncodeFault;
use cnf::sheet::Sheet;
use pb::working::WorkingLine;

/// What turns working lines into clauses, by a meaning that keeps the law of encoders.
pub trait Encoder {
    ghost meaning: { Self → Encoding };

    ghost lawful: { (e : Self) → Lawful (meaning e) };

    /// What a line comes to whose auxiliaries are numbered on from `first`, or nothing where it is out of reach.
    fn reach(&self, line: WorkingLine<'_>, first: u16) -> Option<Cost>
        ensures { result ≡ reach_answer (meaning self.now) (working_of line.entry) first };

    /// Puts the whole list of a line on a sheet, its auxiliaries numbered on from `first`, and answers how many
    /// clauses that is; or is refused, and the sheet holds what it held.
    fn encode<S: Sheet>(
        &self,
        line: WorkingLine<'_>,
        first: u16,
        sheet: &mut S,
    ) -> Result<usize, EncodeFault>
        ensures encoded { Encoded S.Sheet sheet.old sheet.new result
            (meaning self.now) (working_of line.entry) first };
}
