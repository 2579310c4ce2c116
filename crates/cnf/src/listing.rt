// Lists of clauses that are made as they are given, and giving one all or nothing.
ghost use Rattle.std.specs.Prelude.{List, map, MatchResult};
ghost use Rattle.cnf.specs.Clauses.{Clause, of_literals};
ghost use Rattle.cnf.specs.Laws.{Satisfaction};
ghost use Rattle.cnf.specs.Sheets.{SameSheet, GivenEach, AllGiven, TakenBack, GivenAll};

use crate::sheet::Sheet;
use crate::sheet_fault::SheetFault;

/// A list of clauses, of which no more than one has to be there at a time.
pub trait Listing {
    ghost clauses: { Self → List Clause };

    /// Gives the clauses one after another. The first refusal ends it: the clauses before are on the sheet then, and
    /// the sheet's refusal is the answer.
    fn give_each<S: Sheet>(&self, sheet: &mut S) -> Result<(), SheetFault>
        ensures { GivenEach S.Sheet sheet.old sheet.new result (clauses self.now) };
}

/// Clauses that are there already.
#[derive(Clone, Copy, PartialEq, Eq, Debug)]
pub struct Clauses<'a, 'b>(pub &'a [&'b [i32]]);

impl<'a, 'b> Listing for Clauses<'a, 'b> {
    ghost clauses = { λ s. map (λ c. of_literals c.now) s.0.now };

    fn give_each<S: Sheet>(&self, sheet: &mut S) -> Result<(), SheetFault> {
        for clause in self.0 {
            let _ = sheet.give(clause)?;
        }
        Ok(())
    }
}

// Gives the clauses one after another and answers how many more the sheet holds; or takes back those before a refusal.
fn give_or_take_back<L: Listing, S: Sheet>(list: &L, sheet: &mut S) -> Result<usize, SheetFault>
    ensures stays { SameSheet S.Sheet sheet.old sheet.new }
    ensures cases { MatchResult result
        (λ more. AllGiven S.Sheet sheet.old sheet.new more (L.Listing.clauses list.now))
        (λ fault. TakenBack S.Sheet sheet.old sheet.new fault (L.Listing.clauses list.now)) }
{
    let before = sheet.count();
    match list.give_each(sheet) {
        Ok(()) => Ok(sheet.count() - before),
        Err(fault) => {
            // the sheet holds `before` clauses or more, so that this cut is not refused
            let _ = sheet.cut(before);
            Err(SheetFault {
                count: before,
                ..fault
            })
        }
    }
}

/// Gives all clauses of a list and answers how many they are; or is refused, and the sheet holds what it held. The
/// refusal has the cause of the first clause that was refused, and counts the clauses before the call.
///
/// A sheet's memory past the cells in use is free: where a list was taken back, its first clauses may still lie there.
pub fn give_all<L: Listing, S: Sheet>(list: &L, sheet: &mut S) -> Result<usize, SheetFault>
    ensures given { GivenAll S.Sheet sheet.old sheet.new result (L.Listing.clauses list.now) }
    ensures meaning { Satisfaction }
{
    give_or_take_back(list, sheet)
}
