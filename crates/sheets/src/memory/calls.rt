// How a sheet over memory is made, asked, changed and given up.
ghost use Rattle.std.specs.Prelude.{◌≡◌, ◌+◌, ◌≤◌, [], ◌∷◌, ◌++◌, length, is_ok, true, OnErr, refl};
ghost use Rattle.cnf.proofs.Showing.{room_begins, front_room};
ghost use Rattle.cnf.specs.Calls.{give_answer, give_held, cut_answer, cut_held};
ghost use Rattle.cnf.specs.Clauses.{of_literals, all_well_formed};
ghost use Rattle.cnf.specs.FormedClause.{clause_in};
ghost use Rattle.cnf.specs.Layouts.{written};
ghost use Rattle.cnf.specs.Marks.{place_after_mark};
ghost use Rattle.cnf.specs.Tables.{overwritten};
ghost use Rattle.sheets.specs.MemorySheet.{memory_of, loan_of, used_of, cells_of, held_by, fits_in, given_in};

use crate::layout::CellLayout;
use crate::memory::MemorySheet;
use cnf::clause::FormedClause;
use cnf::marks::{Equal, after_mark};
use cnf::sheet::Sheet;
use cnf::sheet_fault::{SheetCause, SheetFault};
use std::marker::PhantomData;

impl<'a, L: CellLayout> MemorySheet<'a, L> {
    /// An empty sheet over this memory.
    pub fn new(memory: &'a mut [L::Cell]) -> MemorySheet<'a, L>
        ensures held { held_by result ≡ [] }
        ensures memory { memory_of result ≡ memory.old }
        ensures same { loan_of result ≡ memory.entry.ghost_name }
    {
        MemorySheet {
            memory,
            used: 0,
            count: 0,
            layout: PhantomData,
        }
    }

    /// The cells in use. Those past them in the memory are as they were when it was lent, or as a clause left them
    /// that was taken back.
    pub fn cells(&self) -> &[L::Cell]
        ensures cells { result.now ≡ written L.layout (held_by self.now) }
        ensures first { result.now ≡ cells_of self.now }
    {
        &self.memory[..self.used]
    }

    /// The cells in use, to which no more can be written, and the cells past them.
    pub fn into_cells(self) -> (&'a [L::Cell], &'a [L::Cell])
        ensures cells { result.0.now ≡ written L.layout (held_by self.entry) }
        ensures formed { all_well_formed (held_by self.entry) ≡ true }
        ensures all { result.0.now ++ result.1.now ≡ memory_of self.entry }
    {
        let MemorySheet { memory, used, .. } = self;
        memory.split_at(used)
    }

    // Writes a clause behind the cells in use.
    fn append(&mut self, clause: FormedClause<'_>, size: usize)
        requires size { size ≡ length (L.layout.write (clause_in clause)) }
        requires room { used_of self.old + size ≤ length (memory_of self.old) }
        ensures same { loan_of self.new ≡ loan_of self.old }
        ensures fits { fits_in self.old (held_by self.old ++ clause_in clause.entry ∷ []) ≡ true }
        ensures held { held_by self.new ≡ held_by self.old ++ clause_in clause.entry ∷ [] }
        ensures memory { memory_of self.new
            ≡ overwritten (used_of self.old) (L.layout.write (clause_in clause.entry)) (memory_of self.old) }
        ensures count { self.new.count ≡ self.old.count + 1 }
    {
        L::put(self.memory, self.used, clause);
        self.used += size;
        self.count += 1;
    }

    // The place after so many clauses of the cells in use.
    fn end_of(&self, clauses: usize) -> usize
        ensures { result ≡ place_after_mark L.layout.mark clauses (cells_of self.now) }
    {
        after_mark(&self.memory[..self.used], &Equal(L::END), clauses)
    }
}

impl<'a, L: CellLayout> Sheet for MemorySheet<'a, L> {
    ghost held = { held_by };

    ghost fits = { fits_in };

    ghost sound = { λ s. front_room L.layout s.memory.now s.used s.front.shows.shown };

    ghost begins = { λ s. room_begins L.layout (length s.memory.now) };

    ghost loan = { loan_of };

    // A refused call leaves everything, the memory past the cells in use too.
    ghost unchanged = { λ s t. t ≡ s };

    fn count(&self) -> usize {
        self.count
    }

    fn literal(&self, i: usize, j: usize) -> Option<i32> {
        if i == 0 || j == 0 || i > self.count {
            return None;
        }
        let from = self.end_of(i - 1);
        let to = self.end_of(i);
        L::literal_in(&self.memory[from..to], j)
    }

    fn give(&mut self, clause: &[i32]) -> Result<usize, SheetFault>
        ensures rule { fits_in self.new ≡ fits_in self.old }
        ensures same { loan_of self.new ≡ loan_of self.old }
        ensures answer { result ≡ give_answer (fits_in self.old) (held_by self.old) (of_literals clause.now) }
        ensures after { held_by self.new ≡ give_held (fits_in self.old) (held_by self.old) (of_literals clause.now) }
        ensures refused { OnErr result (self.new ≡ self.old) }
        ensures memory { memory_of self.new
            ≡ given_in L.layout (memory_of self.old) (used_of self.old) (of_literals clause.now) (is_ok result) }
    {
        let clause = FormedClause::new(clause).ok_or(SheetFault {
            cause: SheetCause::Malformed,
            count: self.count,
        })?;
        let size = L::size(clause);
        if size > self.memory.len() - self.used {
            return Err(SheetFault {
                cause: SheetCause::Full,
                count: self.count,
            });
        }
        self.append(clause, size);
        Ok(self.count)
    }

    fn cut(&mut self, keep: usize) -> Result<(), SheetFault>
        ensures rule { fits_in self.new ≡ fits_in self.old }
        ensures same { loan_of self.new ≡ loan_of self.old }
        ensures answer { result ≡ cut_answer (held_by self.old) keep }
        ensures after { held_by self.new ≡ cut_held (held_by self.old) keep }
        ensures refused { OnErr result (self.new ≡ self.old) }
        ensures memory { memory_of self.new ≡ memory_of self.old }
    {
        if keep > self.count {
            return Err(SheetFault {
                cause: SheetCause::Cut,
                count: self.count,
            });
        }
        self.used = self.end_of(keep);
        self.count = keep;
        Ok(())
    }

    ghost reflexive = { λ _. refl };
}
