// The bodies of records, found by their marks. Here `rest` is what is left of a file, and `offset` is where that
// begins in the file.
ghost use Rattle.std.specs.Prelude.{◌≡◌, ℕ, ◌+◌, ◌^◌, ◌<◌, ◌≤◌, false, cond, List, ◌∷◌, length, Some, None, Ok, Err};
ghost use Rattle.std.specs.Prelude.{MatchOption, MatchResult};
ghost use Rattle.schedule.specs.Records.{body_size, record_size, first_letter, second_letter, is_mark, record_body};
ghost use Rattle.schedule.specs.Records.{line_body, is_at_end, some_body};

use crate::mark::{MARK_SIZE, Mark};
use fault::file::FileFault;

// The mark that these bytes begin with, and what follows it.
#[tactic(auto, using(crate::proofs::Rests::two_before))]
fn marked(rest: &[u8]) -> Option<(Mark, &[u8])>
    ensures { MatchOption result
        ((m : Mark) (x y : ℕ) (tail : List ℕ) → rest.now ≡ x ∷ y ∷ tail → is_mark m x y ≡ false)
        (λ p. rest.now ≡ first_letter p.0 ∷ second_letter p.0 ∷ p.1.now) }
{
    match rest {
        [b'C', b'H', tail @ ..] => Some((Mark::Variables, tail)),
        [b'L', b'N', tail @ ..] => Some((Mark::Line, tail)),
        [b'T', b'M', tail @ ..] => Some((Mark::Term, tail)),
        [b'E', b'N', tail @ ..] => Some((Mark::End, tail)),
        _ => None,
    }
}

// The body of the record that the rest has to begin with.
#[tactic(auto, using(crate::proofs::Marks::no_record))]
pub(crate) fn body_of(due: Mark, rest: &[u8], offset: usize) -> Result<&[u8], FileFault>
    ensures { MatchResult result
        (λ b. (record_body due offset rest.now ≡ Ok b.now) × (length b.now ≡ body_size due)
        × (record_size due ≤ length rest.now))
        (λ e. record_body due offset rest.now ≡ Err e) }
{
    if rest.len() < MARK_SIZE {
        return Err(FileFault::Short(offset));
    }
    let Some((mark, tail)) = marked(rest) else {
        return Err(FileFault::Mark(offset));
    };
    if mark != due {
        return Err(FileFault::Mark(offset));
    }
    let size = due.body_size();
    if tail.len() < size {
        return Err(FileFault::Short(offset));
    }
    Ok(&tail[0..size])
}

// Whether the last record begins here.
#[tactic(auto, using(crate::proofs::Marks::no_end))]
fn at_end(rest: &[u8]) -> bool
    ensures { result ≡ is_at_end rest.now }
{
    matches!(marked(rest), Some((Mark::End, _)))
}

// Whether the file ends here, as it should.
pub(crate) fn ends(rest: &[u8], offset: usize) -> Result<bool, FileFault>
    requires { offset + length rest.now < 2 ^ 64 }
    ensures { MatchResult result
        (λ b. cond b
        ((line_body offset rest.now ≡ Ok None) × (length rest.now ≡ record_size Mark.End))
        (line_body offset rest.now ≡ some_body (record_body Mark.Line offset rest.now)))
        (λ e. line_body offset rest.now ≡ Err e) }
{
    if !at_end(rest) {
        return Ok(false);
    }
    if rest.len() > MARK_SIZE {
        return Err(FileFault::Trailing(offset + MARK_SIZE));
    }
    Ok(true)
}
