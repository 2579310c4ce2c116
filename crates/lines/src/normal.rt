// The normal form of a line: "at least" or "exactly", a bound that is not negative, and for each
// variable at most one term, of positive weight, by rising variable.
ghost use Rattle.std.specs.Prelude.{◌≡◌, ◌≤◌, length, unsigned_abs};
ghost use Rattle.pb.specs.declared.constraint.TheConstants.{MOST_BOUND};
ghost use Rattle.pb.specs.Normal.{threshold};
ghost use Rattle.lines.specs.CheckedLine.{checked_variables, checked_line};
ghost use Rattle.lines.specs.Forms.{Formed, Floor};

use crate::checked_line::CheckedLine;
use crate::nets::Nets;
use pb::relation::Relation;
use pb::working::{Sense, WorkingHead, WorkingTerm};

// The normal form of a checked line, its terms in the first places of a table that has room for them.
pub(crate) fn form_of(line: CheckedLine<'_>, form: &mut [WorkingTerm]) -> WorkingHead
    requires { length (checked_line line).terms ≤ length form.old }
    ensures { Formed (checked_variables line.entry) (checked_line line.entry) result form.old form.new }
{
    let nets = Nets::new(line);
    let relation = line.line.relation;
    let sense = Sense::from(relation);
    let bound = bound_from(relation, line.line.bound) - nets.lowered() + nets.raised() as i32;
    let Some(bound) = floor(sense, bound) else {
        return WorkingHead::IMPOSSIBLE;
    };
    let count = nets.gather(form);
    WorkingHead {
        sense,
        bound,
        count,
    }
}

// The bound once the relation is "at least" or "exactly".
fn bound_from(relation: Relation, bound: i32) -> i32
    requires { unsigned_abs bound ≤ MOST_BOUND }
    ensures { result ≡ threshold relation bound }
{
    match relation {
        Relation::AtLeast | Relation::Exactly => bound,
        Relation::AtMost => -bound,
        Relation::MoreThan => bound + 1,
        Relation::LessThan => 1 - bound,
    }
}

// Below 0, "at least" stops at 0, and "exactly" cannot be met.
fn floor(sense: Sense, bound: i32) -> Option<u32>
    ensures { Floor sense bound result }
{
    if bound >= 0 {
        return Some(bound as u32);
    }
    match sense {
        Sense::AtLeast => Some(0),
        Sense::Exactly => None,
    }
}
