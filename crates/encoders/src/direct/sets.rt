// Terms few enough to try every set of them, and their sets, by mask: the lowest bit stands for the first term.
ghost use Rattle.std.specs.Prelude.{◌≡◌, ◌/◌, ◌^◌, ◌≤◌, ◌↔◌, length, IsSome, IfSome};
ghost use Rattle.pb.specs.Sums.{weight_sum};
ghost use Rattle.encode.specs.declared.reaches.TheConstants.{MOST_DIRECT_TERMS};
ghost use Rattle.encode.specs.Direct.{has_first, sum_outside, each_lifts, is_least, literal_by, literals_in};
ghost use Rattle.encoders.specs.Masks.{is_in_set};

use arrayvec::ArrayVec;
use encode::reaches::MOST_DIRECT_TERMS;
use pb::working::WorkingTerm;

// Terms few enough to try every set of them.
#[derive(Clone, Copy, PartialEq, Eq, Debug)]
pub(crate) struct ShortTerms<'a> {
    pub(crate) terms: &'a [WorkingTerm],
    ghost few: { length terms.now ≤ MOST_DIRECT_TERMS },
}

impl<'a> ShortTerms<'a> {
    // These terms, if they are few enough.
    pub(crate) fn new(terms: &'a [WorkingTerm]) -> Option<ShortTerms<'a>>
        ensures within { IsSome result ↔ (length terms.now ≤ MOST_DIRECT_TERMS) }
        ensures same { IfSome result (λ short. short.terms.now ≡ terms.now) }
    {
        if terms.len() <= MOST_DIRECT_TERMS {
            Some(ShortTerms { terms })
        } else {
            None
        }
    }

    // The sum of all weights.
    pub(crate) fn sum(self) -> u64
        ensures { result ≡ weight_sum self.entry.terms.now }
    {
        self.terms.iter().map(|t| u64::from(t.weight)).sum()
    }

    // How many sets of terms there are.
    pub(crate) fn sets(self) -> u32
        ensures { result ≡ 2 ^ length self.entry.terms.now }
    {
        1 << self.terms.len()
    }

    // Whether a set is a least one that cannot all be missed.
    pub(crate) fn is_least(self, bound: u64, mask: u32) -> bool
        ensures { result ≡ is_least self.entry.terms.now bound mask }
    {
        let sum = self.sum_outside(mask);
        sum < bound && self.each_lifts(mask, sum, bound)
    }

    // The sum of the weights outside a set.
    fn sum_outside(self, mask: u32) -> u64
        ensures { result ≡ sum_outside self.entry.terms.now mask }
    {
        self.terms
            .iter()
            .scan(mask, |rest, t| {
                Some(if take_first(rest) { 0 } else { t.weight })
            })
            .map(|weight| u64::from(weight))
            .sum()
    }

    // Whether each weight in a set brings the sum to the bound or above.
    fn each_lifts(self, mask: u32, sum: u64, bound: u64) -> bool
        ensures { result ≡ each_lifts self.entry.terms.now mask sum bound }
    {
        let missing = bound.saturating_sub(sum);
        self.terms
            .iter()
            .scan(mask, |rest, t| {
                Some(!take_first(rest) || missing <= u64::from(t.weight))
            })
            .all(|lifts| lifts)
    }

    // The literals of a set, or their complements.
    // a bool, since the definitions choose by this same one.
    pub(crate) fn literals_in(self, mask: u32, flip: bool) -> ArrayVec<i32, MOST_DIRECT_TERMS>
        ensures { result.items ≡ literals_in flip self.entry.terms.now mask }
    {
        let mut literals = ArrayVec::new();
        for (place, t) in self.terms.iter().enumerate() {
            if is_in_set(mask, place) {
                literals.push(literal_by(t.literal, flip));
            }
        }
        literals
    }
}

// Takes the first place off a set, and answers whether it was in it. Going over all terms this is cheaper than to ask
// for each place.
fn take_first(mask: &mut u32) -> bool
    ensures first { result ≡ has_first mask.old }
    ensures rest { mask.new ≡ mask.old / 2 }
{
    let is_first = *mask % 2 == 1;
    *mask /= 2;
    is_first
}

// Whether the term at a place is in a set.
fn is_in_set(mask: u32, place: usize) -> bool
    ensures { result ≡ is_in_set mask place }
{
    place < 32 && (mask >> place) % 2 == 1
}

// A literal or its complement, as clauses have it.
fn literal_by(literal: i16, flip: bool) -> i32
    ensures { result ≡ literal_by flip literal }
{
    let wide = i32::from(literal);
    if flip { -wide } else { wide }
}
