// Sums of weights, in 128 bits, since a table may have any length.
ghost use Rattle.std.specs.Prelude.{◌≡◌};
ghost use Rattle.pb.specs.Settled.{same_literal, weight_on};
ghost use Rattle.pb.specs.Sums.{weight_sum};

use pb::working::WorkingTerm;

// The sum of the weights.
pub(crate) fn total(terms: &[WorkingTerm]) -> u128
    ensures { result ≡ weight_sum terms.now }
{
    terms.iter().map(|t| u128::from(t.weight)).sum()
}

// The sum of the weights on one literal.
pub(crate) fn total_on(literal: i32, terms: &[WorkingTerm]) -> u128
    ensures { result ≡ weight_on literal terms.now }
{
    terms
        .iter()
        .filter(|t| is_on(literal, **t))
        .map(|t| u128::from(t.weight))
        .sum()
}

// Whether a term is on this literal.
fn is_on(literal: i32, term: WorkingTerm) -> bool
    ensures { result ≡ same_literal term.literal literal }
{
    i32::from(term.literal) == literal
}
