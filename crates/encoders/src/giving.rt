// How the encoders give clauses: the one that says that one of some literals holds, and the one of some parts.
ghost use Rattle.std.specs.Prelude.{◌≡◌, [], MatchOption};
ghost use Rattle.cnf.specs.Sheets.{GivenEach};
ghost use Rattle.encode.specs.Parts.{disjunction, clause_of};

use arrayvec::ArrayVec;
use cnf::sheet::Sheet;
use cnf::sheet_fault::SheetFault;
use encode::part::Part;

// Gives the clause that says that one of some literals holds. Every clause of an encoder is given here.
pub(crate) fn give_disjunction<S: Sheet>(literals: &[i32], sheet: &mut S) -> Result<(), SheetFault>
    ensures { GivenEach S.Sheet sheet.old sheet.new result (disjunction literals.now) }
{
    sheet.give(literals)?;
    Ok(())
}

// The literals of some parts, or nothing where a part always holds.
fn literals_of<const N: usize>(parts: &[Part; N]) -> Option<ArrayVec<i32, N>>
    ensures { MatchOption result
        (clause_of parts.now ≡ [])
        (λ literals. clause_of parts.now ≡ disjunction literals.items) }
{
    let mut literals = ArrayVec::new();
    for part in parts {
        match *part {
            Part::Literal(literal) => literals.push(literal),
            Part::Always => return None,
            Part::Never => {}
        }
    }
    Some(literals)
}

// Gives the clause of some parts, unless one always holds.
pub(crate) fn give_parts<const N: usize, S: Sheet>(
    parts: &[Part; N],
    sheet: &mut S,
) -> Result<(), SheetFault>
    ensures { GivenEach S.Sheet sheet.old sheet.new result (clause_of parts.now) }
{
    match literals_of(parts) {
        Some(literals) => give_disjunction(&literals, sheet),
        None => Ok(()),
    }
}
