// The clauses of a line, given to a sheet mask by mask.
ghost use Rattle.cnf.specs.Sheets.{GivenEach};
ghost use Rattle.encode.specs.Direct.{set_clause, set_clauses, direct_clauses};

use crate::direct::sets::ShortTerms;
use crate::direct::short_line::ShortLine;
use crate::giving::give_disjunction;
use cnf::listing::Listing;
use cnf::sheet::Sheet;
use cnf::sheet_fault::SheetFault;
use pb::working::Sense;

impl Listing for ShortLine<'_> {
    ghost clauses = { λ l. direct_clauses l.sense l.bound l.terms.terms.now };

    fn give_each<S: Sheet>(&self, sheet: &mut S) -> Result<(), SheetFault> {
        let bound = u64::from(self.bound);
        let of_literals = LeastSets {
            terms: self.terms,
            bound,
            flip: false,
        };
        of_literals.give_each(sheet)?;
        match self.sense {
            Sense::AtLeast => Ok(()),
            Sense::Exactly => {
                // the total is no more than the bound just where the complements' weights make up the rest of the sum
                let of_complements = LeastSets {
                    terms: self.terms,
                    bound: self.terms.sum().saturating_sub(bound),
                    flip: true,
                };
                of_complements.give_each(sheet)
            }
        }
    }
}

// The least sets of terms, where their literals are to reach a bound, or with `flip` their complements are.
#[derive(Clone, Copy, PartialEq, Eq, Debug)]
struct LeastSets<'a> {
    terms: ShortTerms<'a>,
    bound: u64,
    // a bool, since the definitions choose the literals or their complements by this same one.
    flip: bool,
}

impl LeastSets<'_> {
    // Gives the clause of a set, if it is a least one.
    fn give<S: Sheet>(&self, mask: u32, sheet: &mut S) -> Result<(), SheetFault>
        ensures { GivenEach S.Sheet sheet.old sheet.new result
            (set_clause self.now.flip self.now.terms.terms.now self.now.bound mask) }
    {
        if self.terms.is_least(self.bound, mask) {
            give_disjunction(&self.terms.literals_in(mask, self.flip), sheet)?;
        }
        Ok(())
    }
}

impl Listing for LeastSets<'_> {
    ghost clauses = { λ l. set_clauses l.flip l.terms.terms.now l.bound };

    fn give_each<S: Sheet>(&self, sheet: &mut S) -> Result<(), SheetFault> {
        for mask in 0..self.terms.sets() {
            self.give(mask, sheet)?;
        }
        Ok(())
    }
}
