// How clauses lie in memory: each as a part of cells, the last of which alone is the mark that ends a part.
ghost use Rattle.std.specs.Prelude.{◌≡◌, ◌+◌, ◌≤◌, true, length};
ghost use Rattle.cnf.specs.Clauses.{Clause, well_formed, literal_of};
ghost use Rattle.cnf.specs.FormedClause.{clause_in};
ghost use Rattle.cnf.specs.Layouts.{Layout, Faithful};
ghost use Rattle.cnf.specs.Tables.{overwritten};

use cnf::clause::FormedClause;

/// How clauses lie in memory.
// in a private module, so that only a sheet calls these functions: it puts a clause where it fits, and looks for a
// literal only in a part that a clause was written to.
pub trait CellLayout {
    /// An element of the memory.
    type Cell: Copy + Eq;

    /// What ends a part.
    const END: Self::Cell;

    ghost END: { Self.Cell };

    // What is written of a clause, what ends a part, and which clauses the cells in use are read as.
    ghost layout: { Layout Self.Cell };

    /// How many cells a clause takes.
    fn size(clause: FormedClause<'_>) -> usize
        ensures { result ≡ length (layout.write (clause_in clause.entry)) };

    /// Writes a clause from this cell on.
    fn put(cells: &mut [Self::Cell], at: usize, clause: FormedClause<'_>)
        requires { at + length (layout.write (clause_in clause)) ≤ length cells.old }
        ensures { cells.new ≡ overwritten at (layout.write (clause_in clause.entry)) cells.old };

    /// The j-th literal of the clause that a part is written of, counted from 1, or nothing where it has fewer.
    fn literal_in(part: &[Self::Cell], j: usize) -> Option<i32>
        ensures { (c : Clause) → part.now ≡ layout.write c → well_formed c ≡ true → result ≡ literal_of (Some c) j };

    // A part ends where the mark stands.
    ghost ends: { (x : Self.Cell) → Self.Cell.eq x END ≡ layout.mark x };

    // What is written can be relied on to be read back.
    ghost faithful: { Faithful layout };
}
