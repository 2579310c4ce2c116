// Which lines are refused, and by what.
ghost use Rattle.std.specs.Prelude.{◌≡◌, Some, None, MatchResult};
ghost use Rattle.pb.specs.Checks.{sized, checked_head, terms_fault};
ghost use Rattle.pb.specs.Variables.{variable_count};

use pb::constraint::{MOST_BOUND, MOST_TERMS};
use pb::line_fault::LineFault;
use pb::relation::Relation;
use pb::term::{MOST_WEIGHT, Term};
use pb::variables::Variables;

/// The relation of a line by its number, where its bound and the number of its terms are in range.
///
/// # Errors
///
/// The first fault of these: the relation, the bound, the number of terms.
pub fn check_head(relation: u8, bound: i32, terms: usize) -> Result<Relation, LineFault>
    ensures { result ≡ checked_head relation bound terms }
{
    let found = Relation::try_from(relation)?;
    check_size(bound, terms)?;
    Ok(found)
}

// The bound first, then the number of terms.
pub(crate) fn check_size(bound: i32, terms: usize) -> Result<(), LineFault>
    ensures { result ≡ sized tt bound terms }
{
    if bound.unsigned_abs() > MOST_BOUND {
        return Err(LineFault::Bound);
    }
    if terms > MOST_TERMS {
        return Err(LineFault::Terms);
    }
    Ok(())
}

/// Whether every term is of a variable of the job, and of a weight in range.
///
/// # Errors
///
/// The first fault, term by term: of each its literal, then its weight.
pub fn check_terms(variables: Variables, terms: &[Term]) -> Result<(), LineFault>
    ensures { MatchResult result
        (λ _. terms_fault (variable_count variables) 1 terms.now ≡ None)
        (λ e. terms_fault (variable_count variables) 1 terms.now ≡ Some e) }
{
    let most = variables.count();
    for (i, term) in terms.iter().enumerate() {
        let variable = term.literal.unsigned_abs();
        if variable == 0 || variable > most {
            return Err(LineFault::Literal(i + 1));
        }
        if term.weight.unsigned_abs() > MOST_WEIGHT {
            return Err(LineFault::Weight(i + 1));
        }
    }
    Ok(())
}
