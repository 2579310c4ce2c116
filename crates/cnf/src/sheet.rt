// What a sheet of clauses is: a list of clauses, oldest first, that grows at its end and can be cut.
ghost use Rattle.std.specs.Borrow.{GName};
ghost use Rattle.std.specs.Prelude.{◌≡◌, true, List, OnErr, length};
ghost use Rattle.cnf.specs.Clauses.{Clause, of_literals, literal_at};
ghost use Rattle.cnf.specs.Calls.{Rule, Begins, give_answer, give_held, cut_answer, cut_held};

use crate::sheet_fault::SheetFault;

/// A list of clauses, oldest first, that grows at its end and can be cut.
pub trait Sheet {
    // The clauses that the sheet holds.
    ghost held: { Self → List Clause };

    // Which lists of clauses fit the sheet: a rule that no call changes.
    ghost fits: { Self → Rule };

    // What it holds fits.
    ghost sound: { (s : Self) → fits s (held s) ≡ true };

    // Every beginning of a list that fits fits.
    ghost begins: { (s : Self) → Begins (fits s) };

    // The loan that the sheet writes to, so that who lent the memory knows it again when the sheet is gone.
    ghost loan: { Self → GName };

    // What a refused call leaves as it was, besides what the sheet holds: a relation of the sheet before the call and
    // after it. A sheet over memory leaves everything, and one that promises no more than its list takes `λ _ _. Unit
    // {0}`.
    ghost unchanged: { Self → Self → Type 0 };

    /// How many clauses it holds.
    fn count(&self) -> usize
        ensures { result ≡ length (held self.now) };

    /// Literal j of clause i, both counted from 1, or nothing where there is none.
    fn literal(&self, i: usize, j: usize) -> Option<i32>
        ensures { result ≡ literal_at (held self.now) i j };

    /// Appends a clause, and answers how many there are then. It is refused as malformed where it is not well-formed,
    /// and else as full where the longer list would not fit.
    fn give(&mut self, clause: &[i32]) -> Result<usize, SheetFault>
        ensures rule { fits self.new ≡ fits self.old }
        ensures same { loan self.new ≡ loan self.old }
        ensures answer { result ≡ give_answer (fits self.old) (held self.old) (of_literals clause.now) }
        ensures after { held self.new ≡ give_held (fits self.old) (held self.old) (of_literals clause.now) }
        ensures refused { OnErr result (unchanged self.old self.new) };

    /// Keeps the first clauses, so many. It is refused where the sheet holds fewer.
    fn cut(&mut self, keep: usize) -> Result<(), SheetFault>
        ensures rule { fits self.new ≡ fits self.old }
        ensures same { loan self.new ≡ loan self.old }
        ensures answer { result ≡ cut_answer (held self.old) keep }
        ensures after { held self.new ≡ cut_held (held self.old) keep }
        ensures refused { OnErr result (unchanged self.old self.new) };

    // A sheet is unchanged from itself.
    ghost reflexive: { (s : Self) → unchanged s s };
}
