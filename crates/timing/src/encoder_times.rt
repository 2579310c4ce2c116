// What the encoders' `encode` takes: of the order encoder by the clauses that it gives, of the direct encoder by the
// masks that it looks at.
use crate::watch::{Name, Per, Work, measure};
use cnf::sheet::Sheet;
use encode::encoder::Encoder;
use encoders::direct::Direct;
use encoders::order::Order;
use pb::working::{Sense, WorkingLine, WorkingTerm};
use std::io;
use std::rt::Clock;

const TERMS: usize = 64;

// Auxiliaries are numbered on from here.
const FIRST: u16 = 65;

// A line encoded onto an empty sheet.
#[derive(Drop)]
struct Encoding<'a, E: Encoder, S: Sheet> {
    encoder: &'a E,
    line: WorkingLine<'a>,
    sheet: &'a mut S,
}

impl<E: Encoder, S: Sheet> Work for Encoding<'_, E, S> {
    fn prepare(&mut self) {
        let _ = self.sheet.cut(0);
    }

    fn perform(&mut self) -> usize {
        self.encoder
            .encode(self.line, FIRST, self.sheet)
            .unwrap_or(0)
    }
}

// Terms of the first variables, all of one weight.
fn terms(weight: u32) -> [WorkingTerm; TERMS] {
    let mut terms = [WorkingTerm { weight, literal: 1 }; TERMS];
    for (term, variable) in terms.iter_mut().zip(1..=64) {
        term.literal = variable;
    }
    terms
}

// A line that says that its terms add up to at least the bound.
fn at_least(bound: u32, terms: &[WorkingTerm]) -> WorkingLine<'_> {
    WorkingLine {
        sense: Sense::AtLeast,
        bound,
        terms,
    }
}

// Measures an encoder on one line.
fn measure_line<R: Clock + Print + Eprint, E: Encoder, S: Sheet>(
    rt: &R,
    name: Name<'_>,
    per: Per,
    encoder: &E,
    line: WorkingLine<'_>,
    sheet: &mut S,
) -> io::Result<()> {
    let mut encoding = Encoding {
        encoder,
        line,
        sheet,
    };
    measure(rt, name, per, &mut encoding)
}

// Measures the order encoder on 64 terms with rising bounds.
fn measure_order<R: Clock + Print + Eprint, S: Sheet>(rt: &R, sheet: &mut S) -> io::Result<()> {
    // they can reach the highest bound
    let terms = terms(5);
    for (task, bound) in [
        ("64 terms, bound 16", 16),
        ("64 terms, bound 64", 64),
        ("64 terms, bound 256", 256),
    ] {
        let name = Name {
            subject: "order encoder",
            task,
        };
        let line = at_least(bound, &terms);
        measure_line(rt, name, Per::Clause, &Order::new(), line, sheet)?;
    }
    Ok(())
}

// Measures the direct encoder on lines with few masks and with many, and of these with many clauses and with few.
fn measure_direct<R: Clock + Print + Eprint, S: Sheet>(rt: &R, sheet: &mut S) -> io::Result<()> {
    let terms = terms(1);
    let (six, twelve) = (&terms[..6], &terms[..12]);
    for (task, terms, bound, masks) in [
        ("6 terms, bound 3", six, 3, 64),
        ("12 terms, bound 6", twelve, 6, 4096),
        ("12 terms, bound 12", twelve, 12, 4096),
    ] {
        let name = Name {
            subject: "direct encoder",
            task,
        };
        let line = at_least(bound, terms);
        measure_line(rt, name, Per::Mask(masks), &Direct::new(), line, sheet)?;
    }
    Ok(())
}

pub(crate) fn measure_all<R: Clock + Print + Eprint, S: Sheet>(
    rt: &R,
    sheet: &mut S,
) -> io::Result<()> {
    measure_order(rt, sheet)?;
    measure_direct(rt, sheet)
}
