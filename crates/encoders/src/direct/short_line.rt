// A line whose terms are few enough to try every set of them.
ghost use Rattle.std.specs.Prelude.{◌≡◌, ◌≤◌, ◌↔◌, length, IsSome, IfSome};

use crate::direct::sets::ShortTerms;
use encode::reaches::MOST_DIRECT_TERMS;
use pb::working::{Sense, WorkingLine};

#[derive(Clone, Copy, PartialEq, Eq, Debug)]
pub(crate) struct ShortLine<'a> {
    pub(crate) sense: Sense,
    pub(crate) bound: u32,
    pub(crate) terms: ShortTerms<'a>,
}

impl<'a> ShortLine<'a> {
    // The line, if its terms are few enough.
    pub(crate) fn new(line: WorkingLine<'a>) -> Option<ShortLine<'a>>
        ensures within { IsSome result ↔ (length line.entry.terms.now ≤ MOST_DIRECT_TERMS) }
        ensures same { IfSome result (λ short. (short.sense ≡ line.entry.sense)
            × ((short.bound ≡ line.entry.bound) × (short.terms.terms.now ≡ line.entry.terms.now))) }
    {
        let terms = ShortTerms::new(line.terms)?;
        Some(ShortLine {
            sense: line.sense,
            bound: line.bound,
            terms,
        })
    }
}
