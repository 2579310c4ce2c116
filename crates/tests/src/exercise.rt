// What every sheet has to do that is empty, takes the three clauses below, and then no more.
use cnf::listing::{Clauses, give_all};
use cnf::sheet::Sheet;
use cnf::sheet_fault::{SheetCause, SheetFault};
use std::process::Abort;

// A sheet's refusal, of a call before which it held so many clauses.
pub(crate) fn refused(cause: SheetCause, count: usize) -> SheetFault {
    SheetFault { cause, count }
}

fn fills<S: Sheet>(rt: &impl Abort, sheet: &mut S) {
    assert_eq!(rt; sheet.count(), 0);
    assert_eq!(rt; sheet.give(&[1, -2]), Ok(1));
    assert_eq!(rt; sheet.give(&[]), Ok(2));
    assert_eq!(rt; sheet.give(&[3, 0]), Err(refused(SheetCause::Malformed, 2)));
    assert_eq!(rt;
        sheet.give(&[60_001]),
        Err(refused(SheetCause::Malformed, 2))
    );
    assert_eq!(rt;
        sheet.give(&[1; 257]),
        Err(refused(SheetCause::Malformed, 2))
    );
    assert_eq!(rt; sheet.give(&[-60_000, 7, 7]), Ok(3));
    assert_eq!(rt; sheet.give(&[9]), Err(refused(SheetCause::Full, 3)));
    assert_eq!(rt;
        sheet.give(&[i32::MIN]),
        Err(refused(SheetCause::Malformed, 3))
    );
    assert_eq!(rt; sheet.count(), 3);
}

fn answers<S: Sheet>(rt: &impl Abort, sheet: &S) {
    assert_eq!(rt; sheet.literal(1, 1), Some(1));
    assert_eq!(rt; sheet.literal(1, 2), Some(-2));
    assert_eq!(rt; sheet.literal(1, 3), None);
    assert_eq!(rt; sheet.literal(2, 1), None);
    assert_eq!(rt; sheet.literal(3, 1), Some(-60_000));
    assert_eq!(rt; sheet.literal(3, 3), Some(7));
    assert_eq!(rt; sheet.literal(3, 4), None);
    assert_eq!(rt; sheet.literal(4, 1), None);
    assert_eq!(rt; sheet.literal(0, 1), None);
    assert_eq!(rt; sheet.literal(1, 0), None);
}

fn cuts<S: Sheet>(rt: &impl Abort, sheet: &mut S) {
    assert_eq!(rt; sheet.cut(4), Err(refused(SheetCause::Cut, 3)));
    assert_eq!(rt; sheet.cut(3), Ok(()));
    assert_eq!(rt; sheet.cut(1), Ok(()));
    assert_eq!(rt; sheet.count(), 1);
    assert_eq!(rt; sheet.literal(1, 2), Some(-2));
    assert_eq!(rt; sheet.literal(2, 1), None);
}

fn all_or_nothing<S: Sheet>(rt: &impl Abort, sheet: &mut S) {
    let malformed: [&[i32]; 2] = [&[4], &[0]];
    assert_eq!(rt;
        give_all(&Clauses(&malformed), sheet),
        Err(refused(SheetCause::Malformed, 1))
    );
    assert_eq!(rt; sheet.count(), 1);
    let fitting: [&[i32]; 2] = [&[4], &[5, -6]];
    assert_eq!(rt; give_all(&Clauses(&fitting), sheet), Ok(2));
    assert_eq!(rt; sheet.literal(3, 2), Some(-6));
    let over: [&[i32]; 2] = [&[8], &[9, 9, 9, 9]];
    assert_eq!(rt;
        give_all(&Clauses(&over), sheet),
        Err(refused(SheetCause::Full, 3))
    );
    assert_eq!(rt; sheet.count(), 3);
}

pub(crate) fn exercise<S: Sheet>(rt: &impl Abort, sheet: &mut S) {
    fills(rt, sheet);
    answers(rt, sheet);
    cuts(rt, sheet);
    all_or_nothing(rt, sheet);
}
