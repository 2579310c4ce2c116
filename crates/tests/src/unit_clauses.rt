// Clauses of one literal each, of literals alone and of entries that have one beside something else.
use cnf::listing::give_all;
use cnf::sheet::Sheet;
use cnf::sheet_fault::{SheetCause, SheetFault};
use cnf::units::{HasLiteral, Units};
use sheets::flat::FlatSheet;

#[derive(Clone, Copy)]
struct Entry {
    literal: i32,
    clauses_before: usize,
}

impl HasLiteral for Entry {
    ghost literal = { λ entry. entry.literal };

    fn literal(&self) -> i32 {
        self.literal
    }
}

#[test]
fn each_literal_makes_a_clause(rt: HostRuntime) {
    let mut cells = [7; 9];
    let mut sheet = FlatSheet::new(&mut cells);
    assert_eq!(rt; give_all(&Units(&[4, -5]), &mut sheet), Ok(2));
    let entries = [Entry {
        literal: -6,
        clauses_before: 2,
    }];
    assert_eq!(rt; give_all(&Units(&entries), &mut sheet), Ok(1));
    assert_eq!(rt; sheet.count() - entries[0].clauses_before, 1);
    assert_eq!(rt; sheet.cells(), [4, 0, -5, 0, -6, 0].as_slice());
}

#[test]
fn all_or_none_go_on(rt: HostRuntime) {
    let mut cells = [7; 4];
    let mut sheet = FlatSheet::new(&mut cells);
    assert_eq!(rt; sheet.give(&[1]), Ok(1));
    let full = SheetFault {
        cause: SheetCause::Full,
        count: 1,
    };
    assert_eq!(rt; give_all(&Units(&[2, 3]), &mut sheet), Err(full));
    let nothing: [i32; 0] = [];
    assert_eq!(rt; give_all(&Units(&nothing), &mut sheet), Ok(0));
    assert_eq!(rt; sheet.cells(), [1, 0].as_slice());
}
