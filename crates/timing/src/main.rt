// Measures how long the sheets' and the encoders' calls take. What each measure came to goes to standard output,
// which is the same in every run, and its time to standard error.
#![tactic(auto)]

mod encoder_times;
mod sheet_times;
mod watch;

use sheets::ceiling::Ceiling;
use sheets::flat::FlatSheet;
use sheets::text::TextSheet;
use std::io;

// Room for the fullest sheet, and clauses enough that the ceiling refuses none.
const CELLS: usize = 3_000_000;

const BYTES: usize = 16_000_000;

const CLAUSES: usize = 1_000_000;

fn main(rt: HostRuntime) -> io::Result<()> {
    let mut cells = vec![in rt.alloc(); 0; CELLS]?;
    sheet_times::measure_all(&rt, "flat sheet", &mut FlatSheet::new(&mut cells))?;
    let mut bytes = vec![in rt.alloc(); 0; BYTES]?;
    sheet_times::measure_all(&rt, "text sheet", &mut TextSheet::new(&mut bytes))?;
    let mut text = TextSheet::new(&mut bytes);
    let mut ceiling = Ceiling::new(&mut text, CLAUSES);
    sheet_times::measure_all(&rt, "ceiling over a text sheet", &mut ceiling)?;
    encoder_times::measure_all(&rt, &mut FlatSheet::new(&mut cells))
}
