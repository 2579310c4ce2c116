// Numbers and bytes written at a place of lent bytes, and how many bytes the numbers take.
ghost use Rattle.std.specs.Prelude.{◌≡◌, ◌+◌, ◌^◌, ◌<◌, ◌≤◌, [], ◌∷◌, ◌++◌, length, sum_by};
ghost use Rattle.std.specs.Fmt.{signed_decimal};
ghost use Rattle.cnf.specs.FormedClause.{clause_in};
ghost use Rattle.cnf.specs.Tables.{overwritten};
ghost use Rattle.cnf.specs.Text.{row};

use cnf::clause::FormedClause;
use itoa::Buffer;

// The literals' bytes, with the space behind each.
fn literals_size(literals: &[i32]) -> usize
    requires { sum_by (λ l. length (signed_decimal l) + 1) literals.now < 2 ^ 64 }
    ensures { result ≡ sum_by (λ l. length (signed_decimal l) + 1) literals.now }
{
    literals
        .iter()
        .map(|literal| Buffer::new().format(*literal).len() + 1)
        .sum()
}

// How many bytes a clause's row has.
pub(crate) fn row_size(clause: FormedClause<'_>) -> usize
    ensures { result ≡ length (row (clause_in clause.entry)) }
{
    // and the 0 and the line feed that end it
    literals_size(clause.literals()) + 2
}

// Writes a literal in decimal and the space behind it, and answers the place after it.
#[tactic(auto, using(cnf::proofs::Overwriting::overwritten_then))]
pub(crate) fn put_literal(out: &mut [u8], at: usize, literal: i32, buffer: &mut Buffer) -> usize
    requires { at + length (signed_decimal literal) < length out.old }
    ensures after { out.new ≡ overwritten at (signed_decimal literal ++ 32 ∷ []) out.old }
    ensures ends { result ≡ at + length (signed_decimal literal) + 1 }
{
    let end = put_bytes(out, at, buffer.format(literal).as_bytes());
    put_bytes(out, end, b" ")
}

// Writes from this place on, and answers the place after it.
// the place is given and answered, since a writer over the bytes would answer a Result that is never an error.
pub(crate) fn put_bytes(out: &mut [u8], at: usize, text: &[u8]) -> usize
    requires { at + length text.now ≤ length out.old }
    ensures after { out.new ≡ overwritten at text.now out.old }
    ensures ends { result ≡ at + length text.now }
{
    let end = at + text.len();
    out[at..end].copy_from_slice(text);
    end
}
