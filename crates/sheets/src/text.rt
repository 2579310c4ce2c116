// A sheet of clauses as text: each clause lies in the lent bytes as a row that a line feed ends.
ghost use Rattle.std.proofs.Common.{refl};
ghost use Rattle.cnf.proofs.TextBack.{text_faithful};
ghost use Rattle.cnf.specs.Text.{text_layout};

use crate::layout::CellLayout;
use crate::memory::MemorySheet;
use crate::reading::number_in;
use crate::writing::{put_bytes, put_literal, row_size};
use cnf::clause::FormedClause;
use cnf::marks::{Equal, after_mark};
use itoa::Buffer;

/// Clauses as DIMACS text: a row for each, its literals in decimal with a space after each, and 0 and a line feed.
#[derive(Clone, Copy, PartialEq, Eq, Debug)]
pub struct TextLayout;

/// A sheet over lent bytes. A list fits where its rows do.
pub type TextSheet<'a> = MemorySheet<'a, TextLayout>;

impl CellLayout for TextLayout {
    type Cell = u8;

    const END: u8 = b'\n';

    ghost END = { 10 };

    ghost layout = { text_layout };

    fn size(clause: FormedClause<'_>) -> usize {
        row_size(clause)
    }

    fn put(bytes: &mut [u8], at: usize, clause: FormedClause<'_>) {
        let literals = clause.literals();
        let mut buffer = Buffer::new();
        let mut to = at;
        for literal in literals {
            to = put_literal(bytes, to, *literal, &mut buffer);
        }
        let _ = put_bytes(bytes, to, b"0\n");
    }

    fn literal_in(row: &[u8], j: usize) -> Option<i32> {
        let from = after_mark(row, &Equal(b' '), j.checked_sub(1)?);
        let to = after_mark(row, &Equal(b' '), j);
        // a space stands behind each literal, and the last 0 behind them all
        if to >= row.len() {
            return None;
        }
        number_in(&row[from..to - 1])
    }

    ghost ends = { λ _. refl };

    ghost faithful = { text_faithful };
}
