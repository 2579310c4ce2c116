// The first literal that a working line forces.
ghost use Rattle.std.specs.Prelude.{◌≡◌, [], ◌∷◌};
ghost use Rattle.pb.specs.Laws.{ForcedHolds, ForcedInRange, ForcedIsNamed, ForcedNone};
ghost use Rattle.pb.specs.Lines.{working_of};
ghost use Rattle.pb.specs.Settled.{forced as forced_of, forced_by};

use crate::sums::total;
use pb::working::{Sense, WorkingLine, WorkingTerm};

// The literal that one term forces, where the weights sum to this: it holds where the others do not
// reach the bound, and of "exactly" it does not where its weight alone exceeds the bound.
fn forced_alone(sense: Sense, sum: u128, bound: u128, term: WorkingTerm) -> Option<i32>
    ensures { result ≡ forced_by sense sum bound (term ∷ []) }
{
    let weight = u128::from(term.weight);
    let literal = i32::from(term.literal);
    match sense {
        Sense::Exactly if bound < weight => Some(-literal),
        Sense::AtLeast | Sense::Exactly => (sum.saturating_sub(weight) < bound).then_some(literal),
    }
}

// What the first of the terms that forces a literal forces.
fn first_forced(sense: Sense, sum: u128, bound: u128, terms: &[WorkingTerm]) -> Option<i32>
    ensures { result ≡ forced_by sense sum bound terms.now }
{
    terms
        .iter()
        .find_map(|t| forced_alone(sense, sum, bound, *t))
}

/// The first literal in term order that holds in every assignment that meets the line, as far as one
/// weight and the sum of the others tell; nothing where the weights do not reach the bound.
#[tactic(auto, using(pb::proofs::Laws::forced_laws))]
pub fn forced(line: WorkingLine<'_>) -> Option<i32>
    ensures value { result ≡ forced_of (working_of line.entry) }
    ensures holds { ForcedHolds }
    ensures named { ForcedInRange }
    ensures names { ForcedIsNamed }
    ensures none { ForcedNone }
{
    let sum = total(line.terms);
    let bound = u128::from(line.bound);
    if sum < bound {
        return None;
    }
    first_forced(line.sense, sum, bound, line.terms)
}
