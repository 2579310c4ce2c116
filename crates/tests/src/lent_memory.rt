// What who lends memory to a sheet learns of it once the sheet is gone.
ghost use Rattle.std.specs.Prelude.{◌≡◌, false, drop};

use cnf::sheet::Sheet;
use sheets::ceiling::Ceiling;
use sheets::flat::FlatSheet;

// The cells past those in use are as they were.
fn given(cells: &mut [i32]) -> usize
    ensures { drop result cells.new ≡ drop result cells.old }
{
    let mut sheet = FlatSheet::new(cells);
    let _ = sheet.give(&[1, 2]);
    sheet.cells().len()
}

// A sheet that refuses leaves every cell.
fn given_whole(cells: &mut [i32], clause: &[i32]) -> bool
    ensures { result ≡ false → cells.new ≡ cells.old }
{
    let mut sheet = FlatSheet::new(cells);
    sheet.give(clause).is_ok()
}

// Of a sheet under a ceiling stays what it promises itself, whichever of the two refuses.
fn given_under<S: Sheet>(below: &mut S, clause: &[i32], most: usize) -> bool
    ensures { result ≡ false → S.Sheet.unchanged below.old below.new }
{
    let mut sheet = Ceiling::new(below, most);
    sheet.give(clause).is_ok()
}

// So one over memory leaves every cell there too.
fn given_under_ceiling(cells: &mut [i32], clause: &[i32], most: usize) -> bool
    ensures { result ≡ false → cells.new ≡ cells.old }
{
    let mut sheet = FlatSheet::new(cells);
    given_under(&mut sheet, clause, most)
}

#[test]
fn cells_past_those_in_use_stay(rt: HostRuntime) {
    let mut cells = [7; 8];
    assert_eq!(rt; given(&mut cells), 3);
    assert_eq!(rt; cells, [1, 2, 0, 7, 7, 7, 7, 7]);
}

#[test]
fn refusals_leave_every_cell(rt: HostRuntime) {
    let mut cells = [7; 4];
    assert!(rt; !given_whole(&mut cells, &[1, 2, 3, 4]));
    assert!(rt; !given_under_ceiling(&mut cells, &[1, 2, 3, 4], 1));
    assert!(rt; !given_under_ceiling(&mut cells, &[1], 0));
    assert!(rt; !given_under_ceiling(&mut cells, &[0], 1));
    assert_eq!(rt; cells, [7; 4]);
}
