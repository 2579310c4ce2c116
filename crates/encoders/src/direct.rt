// The direct encoder takes the lines of few terms, and has no auxiliaries.
ghost use Rattle.encode.specs.Calls.{Encoded, UntouchedOutOfReach};
ghost use Rattle.encode.specs.Direct.{direct_encoding};
ghost use Rattle.encode.specs.DirectWorked.{DirectWorkedCases};
ghost use Rattle.encode.specs.Extending.{LinesTogether};
ghost use Rattle.encode.specs.Law.{Lawful};
ghost use Rattle.encode.specs.Models.{ModelsExtend};
ghost use Rattle.encode.proofs.Directing.{direct_lawful};
ghost use Rattle.pb.specs.Lines.{working_of};

use cnf::listing::give_all;
use cnf::sheet::Sheet;
use encode::cost::Cost;
use encode::encode_fault::EncodeFault;
use encode::encoder::Encoder;
use pb::working::WorkingLine;
use short_line::ShortLine;

mod listing;
mod sets;
mod short_line;

/// The direct encoder. It keeps nothing: a line's clauses depend on the line alone.
#[derive(Clone, Copy, PartialEq, Eq, Debug, Default)]
pub struct Direct;

impl Direct {
    /// The encoder, with its law, what that comes to for a line and for lines one after another, and worked cases.
    pub fn new() -> Direct
        ensures law { Lawful direct_encoding }
        ensures models { ModelsExtend direct_encoding }
        ensures lines { LinesTogether }
        ensures worked { DirectWorkedCases }
    {
        Direct
    }
}

impl Encoder for Direct {
    ghost meaning = { λ _. direct_encoding };

    ghost lawful = { λ _. direct_lawful };

    fn reach(&self, line: WorkingLine<'_>, _first: u16) -> Option<Cost> {
        ShortLine::new(line).map(|_| Cost { auxiliaries: 0 })
    }

    fn encode<S: Sheet>(
        &self,
        line: WorkingLine<'_>,
        _first: u16,
        sheet: &mut S,
    ) -> Result<usize, EncodeFault>
        ensures encoded { Encoded S.Sheet sheet.old sheet.new result direct_encoding (working_of line.entry) _first }
        ensures untouched { UntouchedOutOfReach direct_encoding (working_of line.entry) _first sheet.old sheet.new }
    {
        let short = ShortLine::new(line).ok_or(EncodeFault::Reach)?;
        Ok(give_all(&short, sheet)?)
    }
}
