// A limit of clauses over any sheet, another ceiling included.
ghost use Rattle.std.specs.Prelude.{◌≡◌, ◌≤◌, false, max, length, OnErr, refl};
ghost use Rattle.cnf.proofs.Limiting.{limited_begins, limited_holds};
ghost use Rattle.cnf.specs.Calls.{give_answer, give_held, cut_answer, cut_held};
ghost use Rattle.cnf.specs.Clauses.{of_literals};

use cnf::clause::is_well_formed;
use cnf::sheet::Sheet;
use cnf::sheet_fault::{SheetCause, SheetFault};

/// A sheet that has another one below, and a limit of clauses.
#[derive(Drop)]
pub struct Ceiling<'a, S: Sheet> {
    below: &'a mut S,
    most: usize,
    ghost few: { length (S.Sheet.held below.now) ≤ most },
}

impl<'a, S: Sheet> Ceiling<'a, S> {
    ghost use Rattle.sheets.specs.Ceiling.{below_of, limit_of, loan_of};

    /// A ceiling at so many clauses. A sheet that holds more already sets the limit itself.
    pub fn new(below: &'a mut S, most: usize) -> Ceiling<'a, S>
        ensures below { below_of result ≡ below.old }
        ensures same { loan_of result ≡ below.entry.ghost_name }
        ensures most { limit_of result ≡ max most (length (S.Sheet.held below.old)) }
    {
        let held = below.count();
        Ceiling {
            below,
            most: most.max(held),
        }
    }
}

impl<'a, S: Sheet> Sheet for Ceiling<'a, S> {
    ghost use Rattle.sheets.specs.Ceiling.{limit_of, below_of, loan_of, held_by, fits_in, passes_on, Unchanged};

    ghost held = { held_by };

    ghost fits = { fits_in };

    ghost sound = { λ s. limited_holds s.most (S.Sheet.fits s.below.now) (S.Sheet.held s.below.now) s.few
        (S.Sheet.sound s.below.now) };

    ghost begins = { λ s. limited_begins s.most (S.Sheet.fits s.below.now) (S.Sheet.begins s.below.now) };

    ghost loan = { loan_of };

    // A refused call leaves the limit and, of the sheet below, what that sheet promises to leave.
    ghost unchanged = { Unchanged };

    fn count(&self) -> usize {
        self.below.count()
    }

    fn literal(&self, i: usize, j: usize) -> Option<i32> {
        self.below.literal(i, j)
    }

    fn give(&mut self, clause: &[i32]) -> Result<usize, SheetFault>
        ensures rule { fits_in self.new ≡ fits_in self.old }
        ensures same { loan_of self.new ≡ loan_of self.old }
        ensures limit { limit_of self.new ≡ limit_of self.old }
        ensures answer { result ≡ give_answer (fits_in self.old) (held_by self.old) (of_literals clause.now) }
        ensures after { held_by self.new ≡ give_held (fits_in self.old) (held_by self.old) (of_literals clause.now) }
        ensures refused { OnErr result (Unchanged self.old self.new) }
        // where the ceiling itself refuses, everything is as it was, whatever sheet is below
        ensures itself { passes_on (limit_of self.old) (held_by self.old) (of_literals clause.now) ≡ false
            → self.new ≡ self.old }
    {
        let count = self.count();
        if !is_well_formed(clause) {
            return Err(SheetFault {
                cause: SheetCause::Malformed,
                count,
            });
        }
        if count >= self.most {
            return Err(SheetFault {
                cause: SheetCause::Full,
                count,
            });
        }
        self.below.give(clause)
    }

    fn cut(&mut self, keep: usize) -> Result<(), SheetFault>
        ensures rule { fits_in self.new ≡ fits_in self.old }
        ensures same { loan_of self.new ≡ loan_of self.old }
        ensures limit { limit_of self.new ≡ limit_of self.old }
        ensures answer { result ≡ cut_answer (held_by self.old) keep }
        ensures after { held_by self.new ≡ cut_held (held_by self.old) keep }
        ensures refused { OnErr result (Unchanged self.old self.new) }
        // every refusal is the ceiling's own
        ensures itself { OnErr result (self.new ≡ self.old) }
    {
        let count = self.count();
        if keep > count {
            return Err(SheetFault {
                cause: SheetCause::Cut,
                count,
            });
        }
        self.below.cut(keep)
    }

    ghost reflexive = { λ s. record { limit = refl; below = S.Sheet.reflexive s.below.now } };
}
