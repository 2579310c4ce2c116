// What a sheet's `give` and `count` take, by the clause's length and by what the sheet holds.
ghost use Rattle.std.specs.Prelude.{◌≡◌, ◌-◌, length};

use crate::watch::{Name, Per, Work, measure};
use cnf::sheet::Sheet;
use std::io;
use std::rt::Clock;

// How many clauses are given, and how many times the sheet is asked for its count, in a round.
const GIVES: usize = 4_000;

const COUNTS: usize = 10_000;

// The most literals that a clause may have.
const LONGEST: usize = 256;

// Literals of five digits each, so that a row of a text goes by the clause's length.
fn literals() -> [i32; LONGEST] {
    let mut literals = [0; LONGEST];
    for (literal, variable) in literals.iter_mut().zip(10_001..=10_256) {
        *literal = variable;
    }
    literals
}

// Clauses given to a sheet that holds so many already.
#[derive(Drop)]
struct Giving<'a, S: Sheet> {
    sheet: &'a mut S,
    held: usize,
    clause: &'a [i32],
}

impl<S: Sheet> Work for Giving<'_, S> {
    fn prepare(&mut self) {
        let _ = self.sheet.cut(self.held);
    }

    fn perform(&mut self) -> usize {
        give_times(self.sheet, self.clause, GIVES)
    }
}

// Gives a clause so many times, and answers how many more the sheet holds then.
fn give_times<S: Sheet>(sheet: &mut S, clause: &[i32], times: usize) -> usize
    ensures { result ≡ length (S.Sheet.held sheet.new) - length (S.Sheet.held sheet.old) }
{
    let before = sheet.count();
    for _ in 0..times {
        let _ = sheet.give(clause);
    }
    sheet.count().saturating_sub(before)
}

// A sheet asked for its count again and again. Each answer is read through a reference of its own: of one reference the
// compiler could ask once for all.
#[derive(Drop)]
struct Counting<'a, S: Sheet> {
    sheets: &'a [&'a S],
    held: usize,
}

impl<S: Sheet> Work for Counting<'_, S> {
    fn prepare(&mut self) {}

    fn perform(&mut self) -> usize {
        self.sheets
            .iter()
            .filter(|sheet| sheet.count() == self.held)
            .count()
    }
}

// How full a sheet is, and what is measured there.
#[derive(Clone, Copy)]
struct Load {
    // clauses of three literals
    clauses: usize,
    give: &'static str,
    count: &'static str,
}

const FEW: Load = Load {
    clauses: 6_667,
    give: "give 3 literals after 20,001",
    count: "count after 20,001 literals",
};

const MANY: Load = Load {
    clauses: 666_667,
    give: "give 3 literals after 2,000,001",
    count: "count after 2,000,001 literals",
};

// Fills a sheet with clauses of three up to the load, and measures `give` of one more and `count` there.
fn measure_loaded<R: Clock + Print + Eprint + AllocGlobal, S: Sheet>(
    rt: &R,
    subject: &str,
    load: Load,
    sheet: &mut S,
    clause: &[i32],
) -> io::Result<()> {
    let name = |task| Name { subject, task };
    let missing = load.clauses.saturating_sub(sheet.count());
    let _ = give_times(sheet, clause, missing);
    measure_give(rt, name(load.give), sheet, clause)?;
    let sheets = vec![in rt.alloc(); &*sheet; COUNTS]?;
    let mut counting = Counting {
        sheets: sheets.as_slice(),
        held: load.clauses,
    };
    measure(rt, name(load.count), Per::Answer, &mut counting)
}

// Measures `give` of a clause to a sheet, and leaves it with the clauses that it holds.
fn measure_give<R: Clock + Print + Eprint, S: Sheet>(
    rt: &R,
    name: Name<'_>,
    sheet: &mut S,
    clause: &[i32],
) -> io::Result<()> {
    let held = sheet.count();
    let mut giving = Giving {
        sheet,
        held,
        clause,
    };
    measure(rt, name, Per::Clause, &mut giving)?;
    giving.prepare();
    Ok(())
}

// Measures an empty sheet: `give` by the clause's length while it is nearly empty, and then by what it holds.
pub(crate) fn measure_all<R: Clock + Print + Eprint + AllocGlobal, S: Sheet>(
    rt: &R,
    subject: &str,
    sheet: &mut S,
) -> io::Result<()> {
    let literals = literals();
    let (one, three, sixteen) = (&literals[..1], &literals[..3], &literals[..16]);
    let name = |task| Name { subject, task };
    measure_give(rt, name("give 1 literal"), sheet, one)?;
    measure_give(rt, name("give 16 literals"), sheet, sixteen)?;
    measure_give(rt, name("give 256 literals"), sheet, &literals)?;
    measure_loaded(rt, subject, FEW, sheet, three)?;
    measure_loaded(rt, subject, MANY, sheet, three)
}
