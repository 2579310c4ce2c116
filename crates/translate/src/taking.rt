// A line that was read is entered into the book of a run and written.
ghost use Rattle.std.specs.Prelude.{◌≡◌, ◌+◌, ◌^◌, ◌<◌, ◌≤◌, IfOk, MatchResult};
ghost use Rattle.cnf.specs.declared.clause.TheConstants.{LAST_NUMBER};
ghost use Rattle.pb.specs.declared.constraint.TheConstants.{MOST_TERMS};
ghost use Rattle.pb.specs.Lines.{line_in};
ghost use Rattle.pb.specs.Tightened.{tightened};
ghost use Rattle.schedule.specs.ReadLine.{line_of};
ghost use Rattle.schedule.specs.Reading.{offset_of_fault, line_size};
ghost use Rattle.translate.specs.Streaming.{fresh, OnlyAppends, GoesOn, EndsWith};
ghost use Rattle.translate.specs.Entering.{Entered, NotEntered};

use crate::run::Run;
use crate::writing::write;
use cnf::sheet::Sheet;
use encode::encoder::Encoder;
use fault::book::BookFault;
use fault::file::{AtOffset, FileFault};
use lines::checked_line::CheckedLine;
use lines::tightening::tighten;
use pb::constraint::MOST_TERMS;
use pb::line_fault::LineFault;
use pb::variables::Variables;
use pb::working::{WorkingHead, WorkingLine, WorkingTerm};
use schedule::line::ReadLine;
use schedule::mark::{MARK_SIZE, TERM_SIZE};

/// The most lines that the book of a run holds.
pub const MOST_LINES: usize = 24;

/// The most terms that its lines have in all.
pub const MOST_BOOK_TERMS: usize = 512;

// A term's fault stands at the record of that term, any other at the line's first record.
fn fault_offset(at: usize, fault: LineFault) -> usize
    requires { offset_of_fault at fault < 2 ^ 64 }
    ensures { result ≡ offset_of_fault at fault }
{
    match fault {
        LineFault::Literal(term) | LineFault::Weight(term) => at + (MARK_SIZE + TERM_SIZE) * term,
        LineFault::Relation | LineFault::Bound | LineFault::Terms => at,
    }
}

// Tightens the line whose terms stand in the table.
fn tighten_in(line: WorkingHead, form: &mut [WorkingTerm; MOST_TERMS]) -> WorkingHead
    requires { line.count ≤ MOST_TERMS }
    ensures line { tightened (line_in line form.old) ≡ line_in result form.new }
    ensures few { result.count ≤ MOST_TERMS }
{
    let count = line.count;
    tighten(line.sense, line.bound, &mut form[0..count])
}

impl Run {
    // A run before its first line.
    pub(crate) fn new(variables: Variables) -> Run
        ensures { result ≡ fresh variables }
    {
        Run {
            variables,
            held: 0,
            free: MOST_BOOK_TERMS,
            written: Ok(variables.count()),
        }
    }

    // The line's normal form, where the line is sound and the book has room for it.
    // a condition and no ghost field of ReadLine, whose offset is public, so that whoever sets it would owe the fact.
    fn enter(
        &self,
        line: &ReadLine,
        form: &mut [WorkingTerm; MOST_TERMS],
    ) -> Result<WorkingHead, FileFault>
        requires { line.now.offset + line_size (line_of line.now) < 2 ^ 64 }
        ensures { MatchResult result (λ f. Entered (line_of line.now) self.now f form.new)
            (λ x. NotEntered (line_of line.now) line.now.offset self.now x) }
    {
        let at = line.offset;
        let checked = CheckedLine::new(self.variables, line.constraint()).map_err(
            |fault| -> AtOffset<LineFault>
                requires { offset_of_fault at fault < 2 ^ 64 }
            {
                AtOffset {
                    offset: fault_offset(at, fault),
                    fault,
                }
            },
        )?;
        if self.held >= MOST_LINES || line.terms().len() > self.free {
            return Err(FileFault::from(AtOffset {
                offset: line.offset,
                fault: BookFault::Full(self.held),
            }));
        }
        match checked.normal_form(form) {
            Some(normal) => Ok(normal),
            // the table has as many places as a line may have terms
            None => unreachable!(),
        }
    }

    // Enters the line and, unless writing was refused before, writes it.
    pub(crate) fn take_line<E: Encoder, S: Sheet>(
        &mut self,
        encoder: &E,
        line: &ReadLine,
        sheet: &mut S,
    ) -> Result<(), FileFault>
        requires ends { line.now.offset + line_size (line_of line.now) < 2 ^ 64 }
        requires low { IfOk self.old.written (λ last. last ≤ LAST_NUMBER) }
        ensures low { IfOk self.new.written (λ last. last ≤ LAST_NUMBER) }
        ensures appends { OnlyAppends S.Sheet sheet.old sheet.new }
        ensures cases { MatchResult result
            (λ _. GoesOn (E.Encoder.meaning encoder.now) (S.Sheet.fits sheet.old) self.old (S.Sheet.held sheet.old)
            self.new (S.Sheet.held sheet.new) line.now.offset (line_of line.now))
            (λ x. EndsWith (E.Encoder.meaning encoder.now) (S.Sheet.fits sheet.old) self.old (S.Sheet.held sheet.old) x
            line.now.offset (line_of line.now)) }
    {
        // a table and a head, since the normal form is written to memory that is lent, and is tightened there in
        // place.
        let mut form = [WorkingTerm::default(); MOST_TERMS];
        let normal = self.enter(line, &mut form)?;
        self.held += 1;
        self.free -= line.terms().len();
        if let Ok(taken) = self.written {
            let WorkingHead {
                sense,
                bound,
                count,
            } = tighten_in(normal, &mut form);
            let terms = &form[0..count];
            let working = WorkingLine {
                sense,
                bound,
                terms,
            };
            self.written = write(encoder, self.held, taken, working, sheet);
        }
        Ok(())
    }
}
