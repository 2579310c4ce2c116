// The net weights of a line's variables, and what a normal form takes from them.
ghost use Rattle.std.specs.Prelude.{◌≡◌, ℕ, ◌*◌, ◌≤◌, [], ◌∷◌, length, take, drop, pos, ◌+ℤ◌, ◌≢◌, unsigned_abs};
ghost use Rattle.pb.specs.declared.term.TheConstants.{MOST_WEIGHT};
ghost use Rattle.pb.specs.declared.variables.TheConstants.{MOST_VARIABLES};
ghost use Rattle.pb.specs.declared.working.TheConstants.{MOST_WEIGHT_SUM};
ghost use Rattle.pb.specs.Checks.{IsTermInRange};
ghost use Rattle.pb.specs.Normal.{negated, weight_under, share, lowering, lowered, raise_of, raised, term_of};
ghost use Rattle.pb.specs.Normal.{gathered};
ghost use Rattle.lines.specs.CheckedLine.{checked_variables, checked_line};
ghost use Rattle.lines.specs.Nets.{net_in, IsNetsOf, IsWithin};

use crate::checked_line::CheckedLine;
use pb::relation::Relation;
use pb::term::Term;
use pb::variables::MOST_VARIABLES;
use pb::working::WorkingTerm;

// One place for each number that a variable may have, and one for 0.
const PLACES: usize = MOST_VARIABLES as usize + 1;

// The net weights of a line, each at its variable's number, and how far the terms on complements
// lower the bound.
#[derive(Drop)]
pub(crate) struct Nets<'a> {
    line: CheckedLine<'a>,
    // An array, so that no heap is needed.
    table: [i32; PLACES],
    lowered_by: i32,
    ghost tabled: { IsNetsOf (negated (checked_line line).relation) (checked_line line).terms table },
    ghost summed: { lowered_by ≡ lowered (negated (checked_line line).relation) (checked_line line).terms },
}

impl<'a> Nets<'a> {
    pub(crate) fn new(line: CheckedLine<'a>) -> Nets<'a>
        ensures variables { checked_variables result.line ≡ checked_variables line.entry }
        ensures line { checked_line result.line ≡ checked_line line.entry }
    {
        let negate = is_negated(line.line.relation);
        let mut table = [0; PLACES];
        let mut lowered_by = 0;
        for term in line.line.terms {
            lowered_by += add_term(negate, *term, &mut table);
        }
        Nets {
            line,
            table,
            lowered_by,
        }
    }

    // How far the bound falls.
    pub(crate) fn lowered(&self) -> i32
        ensures { result ≡ lowered (negated (checked_line self.now.line).relation) (checked_line self.now.line).terms }
    {
        self.lowered_by
    }

    // How far the negative net weights raise the bound.
    pub(crate) fn raised(&self) -> u32
        ensures sum { result ≡ raised (checked_variables self.now.line) 1 (net_in self.now.table) }
        ensures fits { result ≤ MOST_WEIGHT_SUM }
    {
        let last = usize::from(self.line.variables.count());
        self.table[1..=last].iter().map(|net| raise_by(*net)).sum()
    }

    // Writes the terms of the variables whose net weight is not 0, by rising variable, and answers
    // how many they are.
    pub(crate) fn gather(&self, form: &mut [WorkingTerm]) -> usize
        requires { length (checked_line self.now.line).terms ≤ length form.old }
        ensures number { result ≡ length (gathered (checked_variables self.now.line) 1 (net_in self.now.table)) }
        ensures terms { take result form.new ≡ gathered (checked_variables self.now.line) 1 (net_in self.now.table) }
        ensures rest { drop result form.new ≡ drop result form.old }
    {
        let mut count = 0;
        for v in 1..=self.line.variables.count() {
            let net = self.table[usize::from(v)];
            if net != 0 {
                form[count] = term_from(v, net);
                count += 1;
            }
        }
        count
    }
}

// Whether the relation is one of "at most", which is "at least" with every weight negated.
fn is_negated(relation: Relation) -> bool
    ensures { result ≡ negated relation }
{
    match relation {
        Relation::AtMost | Relation::LessThan => true,
        Relation::AtLeast | Relation::Exactly | Relation::MoreThan => false,
    }
}

// A weight on a complement is one of the opposite sign on the variable, and lowers the bound, by as
// much as the answer says.
fn add_term(negate: bool, term: Term, table: &mut [i32; PLACES]) -> i32
    requires in_range { IsTermInRange MOST_VARIABLES term }
    requires within { IsWithin (2 * MOST_WEIGHT_SUM) table.old }
    ensures sum { result ≡ lowering term.literal (weight_under negate term) }
    ensures table { (v : ℕ)
        → net_in table.new v ≡ net_in table.old v +ℤ share v term.literal (weight_under negate term) }
{
    let weight = weight_of(negate, term);
    let variable = usize::from(term.literal.unsigned_abs());
    if term.literal < 0 {
        table[variable] -= weight;
        return weight;
    }
    table[variable] += weight;
    0
}

// The weight of a term, negated if asked.
fn weight_of(negate: bool, term: Term) -> i32
    requires { unsigned_abs term.weight ≤ MOST_WEIGHT }
    ensures { result ≡ weight_under negate term }
{
    if negate { -term.weight } else { term.weight }
}

// A negative net weight raises the bound by its size.
fn raise_by(net: i32) -> u32
    ensures { result ≡ raise_of net }
{
    if net < 0 { net.unsigned_abs() } else { 0 }
}

// The term of a variable with this net weight: one on its complement where that is negative.
fn term_from(variable: u16, net: i32) -> WorkingTerm
    requires { (variable ≤ MOST_VARIABLES) × (net ≢ pos 0) }
    ensures { term_of variable net ≡ result ∷ [] }
{
    let literal = variable as i16;
    WorkingTerm {
        weight: net.unsigned_abs(),
        literal: if net < 0 { -literal } else { literal },
    }
}
