// Runs every schedule file of standard input through the translator, and prints what comes of each below its name. A
// case is a name and a file, each after its length in two bytes.
#![tactic(auto)]

use output::print_cases;
use std::io;
use std::io::Read;

// beside the other program's, since the input is read here: no library takes memory from the heap.
fn main(rt: HostRuntime) -> io::Result<()> {
    let mut cases = Vec::new(rt.alloc());
    let _ = rt.stdin().read_to_end(&mut cases)?;
    print_cases(&rt, cases.as_slice())
}
