// A reader over the bytes of a schedule file.
ghost use Rattle.std.specs.Prelude.{◌≡◌, ◌+◌, ◌*◌, ◌≤◌, length, Some, None, Ok, Err, MatchOption, MatchResult};
ghost use Rattle.pb.specs.Variables.{variable_count};
ghost use Rattle.schedule.specs.Records.{record_body, line_body, record_size};
ghost use Rattle.schedule.specs.Reading.{read_variables, read_terms, read_line, line_size};
ghost use Rattle.schedule.specs.Writing.{ReadsBack, ReadsOnly};
ghost use Rattle.schedule.specs.Faults.{FaultsHaveCause, CausesGiveFault};
ghost use Rattle.schedule.specs.ReadLine.{line_of};

use crate::bodies;
use crate::fields::{LineHeader, term_in, variables_in};
use crate::line::ReadLine;
use crate::mark::{MARK_SIZE, Mark};
use crate::record::Record;
use fault::book::BookFault;
use fault::file::{AtOffset, FileFault};
use lines::check::check_head;
use pb::constraint::MOST_TERMS;
use pb::term::Term;
use pb::variables::Variables;

/// Reads a schedule file record by record. A call that is refused leaves the reader where it stood.
#[derive(Debug, Drop)]
pub struct Reader<'a> {
    input: &'a [u8],
    // the place beside the input: faults name it, and the contracts say where the reader stands.
    // where the next record begins
    offset: usize,
    ghost inside: { offset ≤ length input.now },
}

impl<'a> Reader<'a> {
    ghost use Rattle.schedule.specs.Place.{input_of, offset_of, rest_of, ReadOn};

    /// A reader that stands at the file's first byte. What the calls below answer, and what the check of each line
    /// finds in it, comes together in the definition of reading a file, by which the file of a schedule reads back as
    /// that schedule, nothing else is read as one, and a fault is answered where its cause stands and nowhere else.
    pub fn new(input: &'a [u8]) -> Reader<'a>
        ensures input { input_of result ≡ input.now }
        ensures start { offset_of result ≡ 0 }
        ensures back { ReadsBack }
        ensures only { ReadsOnly }
        ensures faults { FaultsHaveCause }
        ensures causes { CausesGiveFault }
    {
        Reader { input, offset: 0 }
    }

    /// The record that begins here, which has to have this mark.
    pub fn record(&mut self, due: Mark) -> Result<Record<'a>, FileFault>
        ensures cases { MatchResult result
            (λ d. (record_body due (offset_of self.old) (rest_of self.old) ≡ Ok d.body.now) × (d.mark ≡ due)
            × (d.offset ≡ offset_of self.old) × ReadOn self.old self.new (record_size due))
            (λ e. (record_body due (offset_of self.old) (rest_of self.old) ≡ Err e) × ReadOn self.old self.new 0) }
    {
        let offset = self.offset;
        let body = bodies::body_of(due, self.rest(), offset)?;
        self.offset = offset + MARK_SIZE + body.len();
        Ok(Record {
            mark: due,
            body,
            offset,
        })
    }

    /// The first record of a line, or nothing where the file ends here as it should.
    pub fn line_or_end(&mut self) -> Result<Option<Record<'a>>, FileFault>
        ensures cases { MatchResult result
            (λ o. MatchOption o
            ((line_body (offset_of self.old) (rest_of self.old) ≡ Ok None)
            × ReadOn self.old self.new (record_size Mark.End))
            (λ d. (line_body (offset_of self.old) (rest_of self.old) ≡ Ok (Some d.body.now)) × (d.mark ≡ Mark.Line)
            × (d.offset ≡ offset_of self.old) × ReadOn self.old self.new (record_size Mark.Line)))
            (λ e. (line_body (offset_of self.old) (rest_of self.old) ≡ Err e) × ReadOn self.old self.new 0) }
    {
        if bodies::ends(self.rest(), self.offset)? {
            self.offset += MARK_SIZE;
            return Ok(None);
        }
        self.record(Mark::Line).map(Some)
    }

    /// How many variables the file has.
    pub fn variables(&mut self) -> Result<Variables, FileFault>
        ensures cases { MatchResult result
            (λ v. (read_variables (offset_of self.old) (rest_of self.old) ≡ Ok (variable_count v))
            × ReadOn self.old self.new (record_size Mark.Variables))
            (λ e. (read_variables (offset_of self.old) (rest_of self.old) ≡ Err e) × ReadOn self.old self.new 0) }
    {
        let record = self.record(Mark::Variables)?;
        let Some(variables) = Variables::new(variables_in(record.bytes())) else {
            let offset = record.offset;
            // back to where it stood
            self.offset = offset;
            let fault = BookFault::Variables;
            return Err(FileFault::from(AtOffset { offset, fault }));
        };
        Ok(variables)
    }

    /// The line that begins here, with its terms, or nothing where the file ends here as it should.
    pub fn line(&mut self) -> Result<Option<ReadLine>, FileFault>
        ensures cases { MatchResult result
            (λ o. MatchOption o
            ((read_line (offset_of self.old) (rest_of self.old) ≡ Ok None)
            × ReadOn self.old self.new (record_size Mark.End))
            (λ l. (read_line (offset_of self.old) (rest_of self.old) ≡ Ok (Some (line_of l)))
            × (l.offset ≡ offset_of self.old) × ReadOn self.old self.new (line_size (line_of l))))
            (λ e. (read_line (offset_of self.old) (rest_of self.old) ≡ Err e) × ReadOn self.old self.new 0) }
    {
        let start = self.offset;
        let read = self.take_line();
        if read.is_err() {
            self.offset = start;
        }
        read
    }

    // Reads as `line` does, but at a fault the records before it stay read.
    fn take_line(&mut self) -> Result<Option<ReadLine>, FileFault>
        ensures cases { MatchResult result
            (λ o. MatchOption o
            ((read_line (offset_of self.old) (rest_of self.old) ≡ Ok None)
            × ReadOn self.old self.new (record_size Mark.End))
            (λ l. (read_line (offset_of self.old) (rest_of self.old) ≡ Ok (Some (line_of l)))
            × (l.offset ≡ offset_of self.old) × ReadOn self.old self.new (line_size (line_of l))))
            (λ e. (read_line (offset_of self.old) (rest_of self.old) ≡ Err e)
            × (input_of self.new ≡ input_of self.old)) }
    {
        let Some(record) = self.line_or_end()? else {
            return Ok(None);
        };
        let offset = record.offset;
        let header = LineHeader::from(record.bytes());
        let bound = header.bound;
        let count = header.terms as usize;
        let checked = check_head(header.relation, bound, count);
        let relation = checked.map_err(|fault| AtOffset { offset, fault })?;
        let mut terms = [Term::default(); MOST_TERMS];
        self.take_terms(&mut terms[..count])?;
        Ok(Some(ReadLine {
            relation,
            bound,
            offset,
            terms,
            count,
        }))
    }

    // Fills the places with the terms of the next records, one each.
    #[tactic(auto, using(crate::proofs::Terms::term_more, crate::proofs::Terms::term_refused))]
    fn take_terms(&mut self, terms: &mut [Term]) -> Result<(), FileFault>
        ensures cases { MatchResult result
            (λ _. (read_terms (length terms.new) (offset_of self.old) (rest_of self.old) ≡ Ok terms.new)
            × ReadOn self.old self.new (record_size Mark.Term * length terms.new))
            (λ e. (read_terms (length terms.new) (offset_of self.old) (rest_of self.old) ≡ Err e)
            × (input_of self.new ≡ input_of self.old)) }
    {
        for term in terms.iter_mut() {
            let record = self.record(Mark::Term)?;
            *term = term_in(record.bytes());
        }
        Ok(())
    }

    // What is still to be read.
    fn rest(&self) -> &'a [u8]
        ensures rest { result.now ≡ rest_of self.now }
        ensures size { offset_of self.now + length result.now ≡ length (input_of self.now) }
    {
        &self.input[self.offset..]
    }
}
