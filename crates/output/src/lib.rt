// The clause text of a schedule file, or why it was refused; and printing that.
#![tactic(auto)]

ghost use Rattle.std.specs.Prelude.{◌≡◌, length, take, Err, MatchResult, IfOk};
ghost use Rattle.output.specs.declared.TheConstants.{MOST_INPUT};
ghost use Rattle.output.specs.Printed.{limited, text_outcome, Printed};
ghost use Rattle.sheets.specs.FinishedText.{text_in};
ghost use Rattle.translate.specs.Solutions.{Meant};
ghost use Rattle.translate.specs.Translation.{Done, encoding, translation};

mod cases;

pub use cases::print_cases;
use cnf::sheet::Sheet;
use fault::refusal::Refusal;
use sheets::ceiling::Ceiling;
use sheets::finished::{FinishedText, finish};
use sheets::text::TextSheet;
use std::io;
use std::io::Write;
use translate::header::Header;
use translate::translate;

/// How many bytes of a file are looked at.
pub const MOST_INPUT: usize = 8192;

// How many bytes the text may have.
const TEXT_ROOM: usize = 24_576;

/// The most clauses of a file.
pub const MOST_CLAUSES: usize = 4_000;

// Writes the clauses of a file's first bytes to a sheet, or none where they go past the limit.
fn write_limited<S: Sheet>(file: &[u8], sheet: &mut S) -> Result<Header, Refusal>
    ensures cases { MatchResult result
        (λ h. Done encoding (limited (S.Sheet.fits sheet.old) (S.Sheet.held sheet.old)) (take MOST_INPUT file.now)
        (S.Sheet.held sheet.old) (S.Sheet.held sheet.new) h)
        (λ r. translation encoding (limited (S.Sheet.fits sheet.old) (S.Sheet.held sheet.old)) (S.Sheet.held sheet.old)
        (take MOST_INPUT file.now) ≡ Err r) }
    ensures means { IfOk result (λ h. Meant (take MOST_INPUT file.now) (S.Sheet.held sheet.old)
        (S.Sheet.held sheet.new) h) }
{
    let seen = MOST_INPUT.min(file.len());
    let mut limited = Ceiling::new(sheet, MOST_CLAUSES);
    translate(&file[0..seen], &mut limited)
}

/// The clause text of a file's first bytes, in lent bytes, with what stands before it; or why there is none. The lent
/// bytes past the text, and all of them after a refusal, are free: what is written is not told until the file is read.
pub fn clause_text<'a>(
    file: &[u8],
    bytes: &'a mut [u8],
) -> Result<(Header, FinishedText<'a>), Refusal>
    ensures { MatchResult result
        (λ r. Printed (length bytes.old) file.now r.0 (text_in r.1))
        (λ r. text_outcome (length bytes.old) file.now ≡ Err r) }
{
    let mut text = TextSheet::new(bytes);
    let header = write_limited(file, &mut text)?;
    Ok((header, finish(text)))
}

/// Prints what comes of a file. No contract can say what is printed: it is what `clause_text` answers.
pub fn print(rt: &HostRuntime, file: &[u8]) -> io::Result<()> {
    // an array of the most bytes, since a sheet writes to memory that it is lent, and no library takes any from the
    // heap.
    let mut bytes = [0; TEXT_ROOM];
    match clause_text(file, &mut bytes) {
        Ok((header, text)) => {
            println!(rt; "{header}")?;
            rt.stdout().write_all(text.bytes())
        }
        Err(refusal) => println!(rt; "{refusal}"),
    }
}
