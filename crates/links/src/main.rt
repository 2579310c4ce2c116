// Reads a schedule file from standard input, and prints its clauses, or why it was refused.
#![tactic(auto)]

ghost use Rattle.std.specs.Prelude.{◌≤◌, length, IfOk};

use output::{MOST_INPUT, print};
use std::io;
use std::io::Read;

// Fills the buffer from standard input, as far as that goes, and answers how many bytes there are.
// a loop into an array, since a vector takes memory from the heap, and fails where there is none.
fn read_input(rt: &HostRuntime, buffer: &mut [u8]) -> io::Result<usize>
    ensures { IfOk result (λ n. n ≤ length buffer.old) }
{
    let mut input = rt.stdin();
    let mut used = 0;
    // each turn but the last brings a byte at least
    for _ in 0..buffer.len() {
        let n = input.read(&mut buffer[used..])?;
        if n == 0 {
            break;
        }
        used += n;
    }
    Ok(used)
}

fn main(rt: HostRuntime) -> io::Result<()> {
    // more is not looked at
    let mut file = [0; MOST_INPUT];
    let size = read_input(&rt, &mut file)?;
    print(&rt, &file[..size])
}
