// A sheet over lent memory: the clauses lie one after another in its first cells.
ghost use Rattle.cnf.specs.Layouts.{Front};

use crate::layout::CellLayout;
use std::marker::PhantomData;

mod calls;

/// A sheet over lent memory, generic in how clauses lie there. A refused call leaves the sheet and all of its memory
/// as they were, and a call that is not refused writes nothing but the clause given.
// a length stands beside the memory, since that is lent, and is pinned cell for cell; there is no heap.
#[derive(Drop)]
pub struct MemorySheet<'a, L: CellLayout> {
    memory: &'a mut [L::Cell],
    used: usize,
    count: usize,
    layout: PhantomData<L>,
    ghost front: { Front L.layout memory.now used count },
}
