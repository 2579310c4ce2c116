// A sheet over a lent table: each clause lies there as its literals and a 0 that ends it.
ghost use Rattle.std.specs.Prelude.{pos};
ghost use Rattle.cnf.proofs.CellsBack.{equals_zero, cells_faithful};
ghost use Rattle.cnf.specs.Cells.{flat_layout};

use crate::layout::CellLayout;
use crate::memory::MemorySheet;
use cnf::clause::FormedClause;

/// Clauses in cells: the literals of each, and a 0 that ends it.
#[derive(Clone, Copy, PartialEq, Eq, Debug)]
pub struct FlatLayout;

/// A sheet over a lent table of cells. A list fits where the table has a cell for each literal and one more for each
/// clause.
pub type FlatSheet<'a> = MemorySheet<'a, FlatLayout>;

impl CellLayout for FlatLayout {
    type Cell = i32;

    const END: i32 = 0;

    ghost END = { pos 0 };

    ghost layout = { flat_layout };

    fn size(clause: FormedClause<'_>) -> usize {
        // and the 0 that ends it
        clause.literals().len() + 1
    }

    fn put(cells: &mut [i32], at: usize, clause: FormedClause<'_>) {
        let literals = clause.literals();
        let last = at + literals.len();
        cells[at..last].copy_from_slice(literals);
        cells[last] = Self::END;
    }

    fn literal_in(part: &[i32], j: usize) -> Option<i32> {
        let (_end, literals) = part.split_last()?;
        literals.get(j.checked_sub(1)?).copied()
    }

    ghost ends = { equals_zero };

    ghost faithful = { cells_faithful };
}
