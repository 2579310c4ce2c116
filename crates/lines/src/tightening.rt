// Smaller weights and a smaller bound that the same assignments meet.
ghost use Rattle.std.specs.Prelude.{◌≡◌, ℕ, ◌<◌, map};
ghost use Rattle.pb.specs.Laws.{TightenKeeps, TightenIsNormal, TightenIsTight, TightenOnce, TightenNamesNoMore};
ghost use Rattle.pb.specs.Laws.{DivisorIsGreatest, FormsKeep};
ghost use Rattle.pb.specs.Worked.{Worked};
ghost use Rattle.pb.specs.Tightened.{saturated, divided, tightened, tightened_exactly, tightened_least};
ghost use Rattle.lines.specs.Tables.{HoldsLine, reweighed};

use crate::divisors::common;
use crate::sums::total;
use pb::working::{Sense, WorkingHead, WorkingTerm};

// Changes each weight as asked; the literals stay.
fn reweigh<F: Fn(u32) -> u32>(terms: &mut [WorkingTerm], change: F)
    requires { F.IsAlwaysCallable change }
    ensures { (f : ℕ → ℕ) → ((x y : ℕ) → F.post change x y → y ≡ f x) → terms.new ≡ map (reweighed f) terms.old }
{
    for t in terms.iter_mut() {
        t.weight = change(t.weight);
    }
}

// A weight above the bound counts no more than the bound.
fn saturate(bound: u32, terms: &mut [WorkingTerm])
    ensures { terms.new ≡ saturated bound terms.old }
{
    reweigh(terms, |weight| weight.min(bound));
}

fn divide(divisor: u32, terms: &mut [WorkingTerm])
    requires { 0 < divisor }
    ensures { terms.new ≡ divided divisor terms.old }
{
    reweigh(terms, |weight| weight / divisor);
}

// Cuts the weights to the bound, then divides. They reach the bound, so their divisor is not 0.
#[tactic(auto, using(crate::proofs::DividedLines::least_positive, crate::proofs::DividedLines::least_holds))]
fn tighten_least(bound: u32, terms: &mut [WorkingTerm]) -> WorkingHead
    ensures { HoldsLine (tightened_least bound terms.old) result terms.old terms.new }
{
    if bound == 0 {
        return WorkingHead::EMPTY;
    }
    if total(terms) < u128::from(bound) {
        return WorkingHead::IMPOSSIBLE;
    }
    saturate(bound, terms);
    let divisor = common(terms);
    divide(divisor, terms);
    WorkingHead {
        sense: Sense::AtLeast,
        bound: bound.div_ceil(divisor),
        count: terms.len(),
    }
}

// Divides the weights as they are, where their divisor divides the bound too.
#[tactic(auto, using(crate::proofs::DividedLines::zero_holds, crate::proofs::DividedLines::exactly_holds))]
fn tighten_exactly(bound: u32, terms: &mut [WorkingTerm]) -> WorkingHead
    ensures { HoldsLine (tightened_exactly bound terms.old) result terms.old terms.new }
{
    let count = terms.len();
    if bound == 0 && count == 0 {
        return WorkingHead::EMPTY;
    }
    if total(terms) < u128::from(bound) {
        return WorkingHead::IMPOSSIBLE;
    }
    let divisor = common(terms);
    if divisor == 0 {
        // Every weight is 0, and so is the bound, which they reach.
        return WorkingHead {
            sense: Sense::Exactly,
            bound,
            count,
        };
    }
    if bound % divisor != 0 {
        return WorkingHead::IMPOSSIBLE;
    }
    divide(divisor, terms);
    WorkingHead {
        sense: Sense::Exactly,
        bound: bound / divisor,
        count,
    }
}

/// Divides the weights and the bound of a line, whose terms are the whole table, by the weights'
/// greatest common divisor; of "at least" the weights are cut to the bound before, and the bound is
/// rounded up. Where every assignment is seen to meet the line, or none, it has no terms left, and the
/// table stays as it was.
#[tactic(auto, using(pb::proofs::Laws::tightened_laws))]
pub fn tighten(sense: Sense, bound: u32, terms: &mut [WorkingTerm]) -> WorkingHead
    ensures left { HoldsLine (tightened (record { sense = sense; bound = bound; terms = terms.old }))
        result terms.old terms.new }
    ensures keeps { TightenKeeps }
    ensures is_normal { TightenIsNormal }
    ensures leaves { TightenIsTight }
    ensures once { TightenOnce }
    ensures names { TightenNamesNoMore }
    ensures divisor { DivisorIsGreatest }
    ensures forms { FormsKeep }
    ensures worked { Worked }
{
    match sense {
        Sense::AtLeast => tighten_least(bound, terms),
        Sense::Exactly => tighten_exactly(bound, terms),
    }
}
