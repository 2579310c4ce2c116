// The counter matrix of a line, and its clauses.
ghost use Rattle.std.specs.Prelude.{◌≡◌, ◌*◌, ◌<◌, ◌≤◌, length};
ghost use Rattle.cnf.specs.Sheets.{GivenEach};
ghost use Rattle.encode.specs.declared.reaches.TheConstants.{MOST_ORDER_AUXILIARIES};
ghost use Rattle.encode.specs.Order.{columns as columns_of, entry, cell_clauses, row_clauses, last_clauses};
ghost use Rattle.encode.specs.Order.{order_list};
ghost use Rattle.encode.specs.Parts.{opposite};
ghost use Rattle.pb.specs.Lines.{working_of};

use crate::giving::give_parts;
use cnf::listing::Listing;
use cnf::sheet::Sheet;
use cnf::sheet_fault::SheetFault;
use encode::part::Part;
use pb::working::{Sense, WorkingLine, WorkingTerm};

// How many columns the matrix of a line has.
pub(crate) fn columns(line: WorkingLine<'_>) -> usize
    ensures { result ≡ columns_of line.entry.sense line.entry.bound }
{
    let bound = line.bound as usize;
    match line.sense {
        Sense::AtLeast => bound,
        Sense::Exactly => bound + 1,
    }
}

// An entry of a matrix as a part of a clause, and the part that holds just where the entry does not.
#[derive(Clone, Copy, PartialEq, Eq, Debug)]
struct Entry {
    holds: Part,
    fails: Part,
}

// The matrix of a line in reach: a row for each term, and auxiliaries numbered on from `first`, row by row.
#[derive(Clone, Copy, PartialEq, Eq, Debug)]
pub(crate) struct Matrix<'a> {
    pub(crate) line: WorkingLine<'a>,
    pub(crate) columns: usize,
    pub(crate) first: u16,
    ghost wide: { columns ≡ columns_of line.sense line.bound },
    ghost few: { length line.terms.now * columns ≤ MOST_ORDER_AUXILIARIES },
}

impl Matrix<'_> {
    // The entry (i, j): its auxiliary, or its value where i or j is 0.
    // rows and columns as numbers with a condition, since an entry is asked for by its place and none is held.
    fn entry(&self, i: usize, j: usize) -> Entry
        requires { (i ≤ length self.now.line.terms.now) × (j ≤ self.now.columns) }
        ensures holds { result.holds ≡ entry self.now.first self.now.columns i j }
        ensures fails { result.fails ≡ opposite (entry self.now.first self.now.columns i j) }
    {
        if j == 0 {
            Entry {
                holds: Part::Always,
                fails: Part::Never,
            }
        } else if i == 0 {
            Entry {
                holds: Part::Never,
                fails: Part::Always,
            }
        } else {
            // below the most auxiliaries, as the line is in reach
            let place = (i - 1) * self.columns + (j - 1);
            let auxiliary = (usize::from(self.first) + place) as i32;
            Entry {
                holds: Part::Literal(auxiliary),
                fails: Part::Literal(-auxiliary),
            }
        }
    }

    // Gives the clauses of the entry (i + 1, j), where the term of that row is this one.
    fn give_cell<S: Sheet>(
        &self,
        i: usize,
        j: usize,
        term: WorkingTerm,
        sheet: &mut S,
    ) -> Result<(), SheetFault>
        requires { (i < length self.now.line.terms.now) × ((0 < j) × (j ≤ self.now.columns)) }
        ensures { GivenEach S.Sheet sheet.old sheet.new result
            (cell_clauses self.now.first self.now.columns i j term) }
    {
        let here = self.entry(i + 1, j);
        let above = self.entry(i, j);
        // the total from which the term's weight leads to j
        let before = self.entry(i, j.saturating_sub(term.weight as usize));
        let literal = i32::from(term.literal);
        give_parts(&[above.fails, here.holds], sheet)?;
        give_parts(&[Part::Literal(-literal), before.fails, here.holds], sheet)?;
        give_parts(&[Part::Literal(literal), above.holds, here.fails], sheet)?;
        give_parts(&[before.holds, here.fails], sheet)
    }

    // Gives the clauses of row i + 1, whose term is this one.
    fn give_row<S: Sheet>(
        &self,
        i: usize,
        term: WorkingTerm,
        sheet: &mut S,
    ) -> Result<(), SheetFault>
        requires { i < length self.now.line.terms.now }
        ensures { GivenEach S.Sheet sheet.old sheet.new result
            (row_clauses self.now.first self.now.columns i 1 self.now.columns term) }
    {
        for j in 1..=self.columns {
            self.give_cell(i, j, term, sheet)?;
        }
        Ok(())
    }

    // Gives the clauses that hold the total, which is in the last row, to the bound.
    fn give_last<S: Sheet>(&self, sheet: &mut S) -> Result<(), SheetFault>
        ensures { GivenEach S.Sheet sheet.old sheet.new result
            (last_clauses self.now.line.sense self.now.first self.now.columns
            (length self.now.line.terms.now) self.now.line.bound) }
    {
        let rows = self.line.terms.len();
        let bound = self.line.bound as usize;
        give_parts(&[self.entry(rows, bound).holds], sheet)?;
        match self.line.sense {
            Sense::AtLeast => Ok(()),
            Sense::Exactly => give_parts(&[self.entry(rows, bound + 1).fails], sheet),
        }
    }
}

impl Listing for Matrix<'_> {
    ghost clauses = { λ m. order_list (working_of m.line) m.first };

    fn give_each<S: Sheet>(&self, sheet: &mut S) -> Result<(), SheetFault> {
        for (i, term) in self.line.terms.iter().enumerate() {
            self.give_row(i, *term, sheet)?;
        }
        self.give_last(sheet)
    }
}
