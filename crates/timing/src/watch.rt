// Work that is done in rounds, the shortest of which is told.
use std::num::nearest_usize_to_f64;
use std::rt::Clock;
use std::time::{Duration, Instant};
use std::{fmt, io};

// The shortest round counts, since whatever else the machine does only makes a round longer. The first one also meets
// memory that no cache holds yet.
const ROUNDS: usize = 5;

pub(crate) trait Work {
    // What has to be done before a round, and is not timed.
    fn prepare(&mut self);

    // A round: answers how many clauses or right answers came of it.
    fn perform(&mut self) -> usize;
}

// What a measure is called: what is measured, and what it is asked to do.
#[derive(Clone, Copy)]
pub(crate) struct Name<'a> {
    pub(crate) subject: &'a str,
    pub(crate) task: &'a str,
}

impl fmt::Display for Name<'_> {
    fn fmt<W: fmt::Write>(&self, f: &mut fmt::Formatter<W>) -> fmt::Result {
        let subject = self.subject;
        let task = self.task;
        write!(f, "{subject}: {task}")
    }
}

// What a round's time is divided by.
#[derive(Clone, Copy)]
pub(crate) enum Per {
    Clause,
    Answer,
    // the round looks at so many masks, and only some make a clause
    Mask(u32),
}

impl Per {
    fn divisor(self, outcome: usize) -> f64 {
        match self {
            Per::Clause | Per::Answer => nearest_usize_to_f64(outcome),
            Per::Mask(masks) => f64::from(masks),
        }
    }

    fn unit(self) -> &'static str {
        match self {
            Per::Clause => "clause",
            Per::Answer => "answer",
            Per::Mask(_) => "mask",
        }
    }

    fn outcomes(self) -> &'static str {
        match self {
            Per::Clause | Per::Mask(_) => "clauses",
            Per::Answer => "right answers",
        }
    }
}

// Does the work in rounds, and prints what the last one came to and how long the shortest one took.
pub(crate) fn measure<R: Clock + Print + Eprint, W: Work>(
    rt: &R,
    name: Name<'_>,
    per: Per,
    work: &mut W,
) -> io::Result<()> {
    let mut shortest = Duration::MAX;
    let mut outcome = 0;
    for _ in 0..ROUNDS {
        work.prepare();
        let start = Instant::now(rt)?;
        outcome = work.perform();
        shortest = shortest.min(start.elapsed(rt)?);
    }
    let outcomes = per.outcomes();
    println!(rt; "{name}: {outcome} {outcomes}")?;
    let nanoseconds = shortest.as_secs_f64() * 1e9 / per.divisor(outcome);
    let unit = per.unit();
    eprintln!(rt; "{name}: {nanoseconds:.2} ns per {unit}")
}
