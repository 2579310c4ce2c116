// What is left of a line where a literal holds.
ghost use Rattle.pb.specs.Laws.{ReducedKeeps, ReducedIsNormal};
ghost use Rattle.pb.specs.Laws.{ReducedDropsVariable, ReducedNamesNoMore, ReducedSameWhereUnnamed};
ghost use Rattle.pb.specs.Settled.{others, reduced};
ghost use Rattle.lines.specs.Tables.{HoldsTerms, HoldsLine};

use crate::sums::total_on;
use pb::working::{Sense, WorkingHead, WorkingTerm};

// Moves the terms of other variables to the front, in their order, and says how many they are.
// A loop over places, since a lent slice has no `retain`.
fn keep_others(literal: i32, terms: &mut [WorkingTerm]) -> usize
    ensures { HoldsTerms (others literal terms.old) result terms.old terms.new }
{
    let variable = literal.unsigned_abs();
    let mut count = 0;
    for i in 0..terms.len() {
        let t = terms[i];
        if u32::from(t.literal.unsigned_abs()) != variable {
            terms[count] = t;
            count += 1;
        }
    }
    count
}

/// Drops the literal's variable from a line whose terms are the whole table, and takes the weight on
/// the literal from its bound. Below 0, "at least" stops at 0, and "exactly" cannot be met, which
/// leaves the table as it was.
#[tactic(auto, using(pb::proofs::Laws::reduced_laws))]
pub fn reduce(literal: i32, sense: Sense, bound: u32, terms: &mut [WorkingTerm]) -> WorkingHead
    ensures left { HoldsLine (reduced literal (record { sense = sense; bound = bound; terms = terms.old }))
        result terms.old terms.new }
    ensures keeps { ReducedKeeps }
    ensures is_normal { ReducedIsNormal }
    ensures drops { ReducedDropsVariable }
    ensures names { ReducedNamesNoMore }
    ensures same { ReducedSameWhereUnnamed }
{
    let weight = total_on(literal, terms);
    let left = match sense {
        Sense::AtLeast => Some(u128::from(bound).saturating_sub(weight)),
        Sense::Exactly => u128::from(bound).checked_sub(weight),
    };
    let Some(left) = left else {
        return WorkingHead::IMPOSSIBLE;
    };
    let count = keep_others(literal, terms);
    WorkingHead {
        sense,
        bound: left as u32,
        count,
    }
}
