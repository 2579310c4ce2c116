// From the bytes of a schedule file to clauses.
#![tactic(auto)]

ghost use Rattle.std.specs.Prelude.{◌≡◌, Err, MatchResult, IfOk};
ghost use Rattle.encode.specs.declared.reaches.TheConstants.{MOST_DIRECT_TERMS};
ghost use Rattle.encode.specs.Models.{ModelsExtend};
ghost use Rattle.cnf.specs.Sheets.{SameSheet};
ghost use Rattle.pb.specs.Laws.{FormsKeep};
ghost use Rattle.schedule.specs.Place.{offset_of, rest_of};
ghost use Rattle.translate.specs.Books.{EntersWhatFits, BookLimits};
ghost use Rattle.translate.specs.Translation.{encoding, translation, Done, Undone, OfSchedules};
ghost use Rattle.translate.specs.Streaming.{fresh, progress, coming, OnlyAppends};
ghost use Rattle.translate.specs.Whole.{WholeLists};
ghost use Rattle.translate.specs.Solutions.{Meant};

use cnf::sheet::Sheet;
use encode::encoder::Encoder;
use encode::reaches::MOST_DIRECT_TERMS;
use encoders::choice::UpTo;
use encoders::direct::Direct;
use encoders::order::Order;
use fault::refusal::Refusal;
use header::Header;
use pb::variables::Variables;
use run::Run;
use schedule::reader::Reader;

pub mod header;
mod run;
mod taking;
mod writing;

// Takes line by line to the end of the file, and answers the highest number taken by a variable or an auxiliary.
fn write_lines<E: Encoder, S: Sheet>(
    encoder: &E,
    reader: &mut Reader<'_>,
    variables: Variables,
    sheet: &mut S,
) -> Result<u16, Refusal>
    ensures appends { OnlyAppends S.Sheet sheet.old sheet.new }
    ensures comes { coming (E.Encoder.meaning encoder.now) (S.Sheet.fits sheet.old) (fresh variables)
        (S.Sheet.held sheet.old) (offset_of reader.old) (rest_of reader.old)
        ≡ progress result (S.Sheet.held sheet.new) }
{
    let mut run = Run::new(variables);
    while let Some(line) = reader.line()? {
        run.take_line(encoder, &line, sheet)?;
    }
    run.written
}

// Reads the whole file and writes its lines after what the sheet holds.
fn write_file<E: Encoder, S: Sheet>(
    encoder: &E,
    input: &[u8],
    sheet: &mut S,
) -> Result<Header, Refusal>
    ensures appends { OnlyAppends S.Sheet sheet.old sheet.new }
    ensures cases { MatchResult result
        (λ h. Done (E.Encoder.meaning encoder.now) (S.Sheet.fits sheet.old) input.now (S.Sheet.held sheet.old)
        (S.Sheet.held sheet.new) h)
        (λ r. translation (E.Encoder.meaning encoder.now) (S.Sheet.fits sheet.old) (S.Sheet.held sheet.old) input.now
        ≡ Err r) }
{
    let mut reader = Reader::new(input);
    let variables = reader.variables()?;
    let numbers = write_lines(encoder, &mut reader, variables, sheet)?;
    Ok(Header {
        variables: numbers,
        clauses: sheet.count(),
    })
}

/// Writes the clauses that an encoder makes of a schedule file after what the sheet holds, and answers what stands
/// before them; or says why not, and the sheet holds what it held. Its memory past that is free: lines before the one
/// that was refused may have left something there.
// encoder and sheet as two parameters, here and below, since one is only read and the other written, and no call
// keeps both.
#[tactic(auto, using(crate::proofs::Steps::of_a_schedule))]
pub fn translate_by<E: Encoder, S: Sheet>(
    encoder: &E,
    input: &[u8],
    sheet: &mut S,
) -> Result<Header, Refusal>
    ensures stays { SameSheet S.Sheet sheet.old sheet.new }
    ensures cases { MatchResult result
        (λ h. Done (E.Encoder.meaning encoder.now) (S.Sheet.fits sheet.old) input.now (S.Sheet.held sheet.old)
        (S.Sheet.held sheet.new) h)
        (λ r. Undone (E.Encoder.meaning encoder.now) (S.Sheet.fits sheet.old) input.now (S.Sheet.held sheet.old)
        (S.Sheet.held sheet.new) r) }
    ensures reads { OfSchedules (E.Encoder.meaning encoder.now) (S.Sheet.fits sheet.old) input.now
        (S.Sheet.held sheet.old) }
    ensures enters { EntersWhatFits }
    ensures limits { BookLimits }
    ensures forms { FormsKeep }
    ensures models { ModelsExtend (E.Encoder.meaning encoder.now) }
    ensures whole { WholeLists (E.Encoder.meaning encoder.now) (S.Sheet.fits sheet.old) input.now
        (S.Sheet.held sheet.old) }
    ensures means { IfOk result (λ h. Meant input.now (S.Sheet.held sheet.old) (S.Sheet.held sheet.new) h) }
{
    let before = sheet.count();
    let outcome = write_file(encoder, input, sheet);
    if outcome.is_err() {
        // lines before the refused one may have been written
        let _ = sheet.cut(before);
    }
    outcome
}

/// The direct encoder for lines of few terms, the order encoder for the others.
pub fn by_terms() -> UpTo<Direct, Order>
    ensures most { result.most ≡ MOST_DIRECT_TERMS }
    ensures meaning { ⟦<UpTo<Direct, Order> as Encoder>⟧.meaning result ≡ encoding }
{
    UpTo {
        most: MOST_DIRECT_TERMS,
        few: Direct::new(),
        many: Order::new(),
    }
}

/// The same by the encoder that goes by a line's terms.
pub fn translate<S: Sheet>(input: &[u8], sheet: &mut S) -> Result<Header, Refusal>
    ensures stays { SameSheet S.Sheet sheet.old sheet.new }
    ensures cases { MatchResult result
        (λ h. Done encoding (S.Sheet.fits sheet.old) input.now (S.Sheet.held sheet.old) (S.Sheet.held sheet.new) h)
        (λ r. Undone encoding (S.Sheet.fits sheet.old) input.now (S.Sheet.held sheet.old) (S.Sheet.held sheet.new) r) }
    ensures reads { OfSchedules encoding (S.Sheet.fits sheet.old) input.now (S.Sheet.held sheet.old) }
    ensures enters { EntersWhatFits }
    ensures limits { BookLimits }
    ensures forms { FormsKeep }
    ensures models { ModelsExtend encoding }
    ensures whole { WholeLists encoding (S.Sheet.fits sheet.old) input.now (S.Sheet.held sheet.old) }
    ensures means { IfOk result (λ h. Meant input.now (S.Sheet.held sheet.old) (S.Sheet.held sheet.new) h) }
{
    translate_by(&by_terms(), input, sheet)
}
