use crate::exercise::{exercise, refused};
use cnf::sheet::Sheet;
use cnf::sheet_fault::SheetCause;
use sheets::ceiling::Ceiling;
use sheets::finished::finish;
use sheets::flat::FlatSheet;
use sheets::text::TextSheet;

#[test]
fn a_flat_sheet(rt: HostRuntime) {
    let mut cells = [0; 8];
    exercise(&rt, &mut FlatSheet::new(&mut cells));
}

#[test]
fn a_text_sheet(rt: HostRuntime) {
    let mut bytes = [0; 22];
    let mut sheet = TextSheet::new(&mut bytes);
    exercise(&rt, &mut sheet);
    let text = finish(sheet);
    assert_eq!(rt; text.bytes(), b"1 -2 0\n4 0\n5 -6 0\n".as_slice());
    assert_eq!(rt; text.rest().len(), 4);
}

#[test]
fn a_ceiling_over_each(rt: HostRuntime) {
    let mut cells = [0; 600];
    let mut flat = FlatSheet::new(&mut cells);
    exercise(&rt, &mut Ceiling::new(&mut flat, 3));
    let mut bytes = [0; 600];
    let mut text = TextSheet::new(&mut bytes);
    exercise(&rt, &mut Ceiling::new(&mut text, 3));
}

#[test]
fn a_ceiling_over_a_ceiling(rt: HostRuntime) {
    let mut cells = [0; 600];
    let mut flat = FlatSheet::new(&mut cells);
    let mut low = Ceiling::new(&mut flat, 3);
    exercise(&rt, &mut Ceiling::new(&mut low, 9));
}

#[test]
fn a_longer_sheet_sets_the_limit(rt: HostRuntime) {
    let mut cells = [0; 8];
    let mut flat = FlatSheet::new(&mut cells);
    assert_eq!(rt; flat.give(&[1]), Ok(1));
    assert_eq!(rt; flat.give(&[2]), Ok(2));
    let mut sheet = Ceiling::new(&mut flat, 1);
    assert_eq!(rt; sheet.give(&[3]), Err(refused(SheetCause::Full, 2)));
    assert_eq!(rt; sheet.cut(1), Ok(()));
    assert_eq!(rt; sheet.give(&[3]), Ok(2));
    assert_eq!(rt; sheet.give(&[4]), Err(refused(SheetCause::Full, 2)));
}

#[test]
fn rows_are_dimacs(rt: HostRuntime) {
    let mut bytes = [0; 64];
    let mut text = TextSheet::new(&mut bytes);
    let mut sheet = Ceiling::new(&mut text, 4);
    assert_eq!(rt; sheet.give(&[1, 2]), Ok(1));
    assert_eq!(rt; sheet.give(&[-3]), Ok(2));
    assert_eq!(rt; sheet.give(&[]), Ok(3));
    assert_eq!(rt; sheet.give(&[-60_000, 1_070]), Ok(4));
    assert_eq!(rt; sheet.count(), 4);
    assert_eq!(rt;
        finish(text).bytes(),
        b"1 2 0\n-3 0\n0\n-60000 1070 0\n".as_slice()
    );
}

#[test]
fn the_last_byte_is_used(rt: HostRuntime) {
    let mut enough = [0; 6];
    assert_eq!(rt; TextSheet::new(&mut enough).give(&[1, 2]), Ok(1));
    let mut short = [0; 5];
    let mut sheet = TextSheet::new(&mut short);
    assert_eq!(rt; sheet.give(&[1, 2]), Err(refused(SheetCause::Full, 0)));
    assert_eq!(rt; finish(sheet).bytes(), b"".as_slice());
}

#[test]
fn a_cut_keeps_the_first_rows(rt: HostRuntime) {
    let mut bytes = [0; 64];
    let mut text = TextSheet::new(&mut bytes);
    let mut sheet = Ceiling::new(&mut text, 2);
    assert_eq!(rt; sheet.give(&[1]), Ok(1));
    assert_eq!(rt; sheet.give(&[2]), Ok(2));
    assert_eq!(rt; sheet.give(&[]), Err(refused(SheetCause::Full, 2)));
    assert_eq!(rt; sheet.cut(3), Err(refused(SheetCause::Cut, 2)));
    assert_eq!(rt; sheet.cut(1), Ok(()));
    assert_eq!(rt; finish(text).bytes(), b"1 0\n".as_slice());
}
