// Encodes the lines of standard input, one to a row, and prints the clauses of each as text below its row. A row has
// the encoder, "least" or "exactly", the bound, the first auxiliary's number, and each term's weight and literal, all
// with one space between.
#![tactic(auto)]

use anyhow::{Result, bail};
use encode::encode_fault::EncodeFault;
use encode::encoder::Encoder;
use encode::reaches::MOST_DIRECT_TERMS;
use encoders::choice::UpTo;
use encoders::direct::Direct;
use encoders::order::Order;
use pb::working::{Sense, WorkingLine, WorkingTerm};
use sheets::finished::finish;
use sheets::text::TextSheet;
use std::alloc::Global;
use std::io::{Read, Write};

// Room for the longest list of a row.
const BYTES: usize = 65_536;

// The terms that these words tell, a weight and a literal each.
fn terms_of(alloc: Global, words: &[&str]) -> Result<Vec<WorkingTerm>> {
    let mut terms = Vec::new(alloc);
    for pair in words.chunks(2) {
        let [weight, literal] = pair else {
            bail!("a weight without a literal");
        };
        terms.push(WorkingTerm {
            weight: weight.parse()?,
            literal: literal.parse()?,
        })?;
    }
    Ok(terms)
}

// The sense of a working line by its word.
fn sense_of(word: &str) -> Result<Sense> {
    match word {
        "least" => Ok(Sense::AtLeast),
        "exactly" => Ok(Sense::Exactly),
        _ => bail!("a sense is least or exactly"),
    }
}

// Puts a line on the sheet by the encoder of this name.
fn encode(
    encoder: &str,
    line: WorkingLine<'_>,
    first: u16,
    sheet: &mut TextSheet<'_>,
) -> Result<Result<usize, EncodeFault>> {
    let by_terms = UpTo {
        most: MOST_DIRECT_TERMS,
        few: Direct::new(),
        many: Order::new(),
    };
    match encoder {
        "direct" => Ok(Direct::new().encode(line, first, sheet)),
        "order" => Ok(Order::new().encode(line, first, sheet)),
        "by-terms" => Ok(by_terms.encode(line, first, sheet)),
        _ => bail!("an encoder is direct, order or by-terms"),
    }
}

// Prints a row, and below it the clauses of its line, or that the line is refused.
fn print(rt: &HostRuntime, row: &str) -> Result<()> {
    let mut words = Vec::new(rt.alloc());
    for word in row.split(' ') {
        words.push(word)?;
    }
    let [encoder, sense, bound, first, terms @ ..] = words.as_slice() else {
        bail!("a row has an encoder, a sense, a bound and a first number");
    };
    let terms = terms_of(rt.alloc(), terms)?;
    let line = WorkingLine {
        sense: sense_of(sense)?,
        bound: bound.parse()?,
        terms: terms.as_slice(),
    };
    let mut bytes = vec![in rt.alloc(); 0; BYTES]?;
    let mut sheet = TextSheet::new(bytes.as_mut_slice());
    println!(rt; "# {row}")?;
    match encode(encoder, line, first.parse()?, &mut sheet)? {
        Ok(_) => rt.stdout().write_all(finish(sheet).bytes())?,
        Err(EncodeFault::Reach) => println!(rt; "out of reach")?,
        Err(EncodeFault::Sheet(fault)) => println!(rt;
            "refused by the sheet, which holds {}",
            fault.count
        )?,
    }
    Ok(())
}

fn main(rt: HostRuntime) -> Result<()> {
    let mut input = Vec::new(rt.alloc());
    let _ = rt.stdin().read_to_end(&mut input)?;
    let text = std::str::from_utf8(input.as_slice())?;
    for row in text.lines() {
        print(&rt, row)?;
    }
    Ok(())
}
