// An encoder made of two: one for the lines of few terms, the other for the rest.
ghost use Rattle.encode.specs.Calls.{Encoded, UntouchedOutOfReach};
ghost use Rattle.encode.specs.Choice.{up_to};
ghost use Rattle.encode.proofs.Choosing.{up_to_lawful};
ghost use Rattle.pb.specs.Lines.{working_of};

use cnf::sheet::Sheet;
use encode::cost::Cost;
use encode::encode_fault::EncodeFault;
use encode::encoder::Encoder;
use pb::working::WorkingLine;

/// An encoder that gives each line to one of two, by how many terms it has.
#[derive(Clone, Copy, PartialEq, Eq, Debug)]
pub struct UpTo<E: Encoder, F: Encoder> {
    /// The most terms that a line of few has.
    pub most: usize,
    /// What encodes the lines of few terms.
    pub few: E,
    /// What encodes the others.
    pub many: F,
}

impl<E: Encoder, F: Encoder> Encoder for UpTo<E, F> {
    ghost meaning = { λ u. up_to u.most (E.Encoder.meaning u.few) (F.Encoder.meaning u.many) };

    ghost lawful = { λ u. up_to_lawful u.most (E.Encoder.meaning u.few) (F.Encoder.meaning u.many)
        (E.Encoder.lawful u.few) (F.Encoder.lawful u.many) };

    // both calls ask which encoder, as one value for either would be an enum of the two with a match in both
    fn reach(&self, line: WorkingLine<'_>, first: u16) -> Option<Cost> {
        if line.terms.len() <= self.most {
            self.few.reach(line, first)
        } else {
            self.many.reach(line, first)
        }
    }

    fn encode<S: Sheet>(
        &self,
        line: WorkingLine<'_>,
        first: u16,
        sheet: &mut S,
    ) -> Result<usize, EncodeFault>
        ensures encoded { Encoded S.Sheet sheet.old sheet.new result
            (up_to self.now.most (E.Encoder.meaning self.now.few) (F.Encoder.meaning self.now.many))
            (working_of line.entry) first }
        ensures untouched { UntouchedOutOfReach
            (up_to self.now.most (E.Encoder.meaning self.now.few) (F.Encoder.meaning self.now.many))
            (working_of line.entry) first sheet.old sheet.new }
    {
        self.reach(line, first).ok_or(EncodeFault::Reach)?;
        if line.terms.len() <= self.most {
            self.few.encode(line, first, sheet)
        } else {
            self.many.encode(line, first, sheet)
        }
    }
}
