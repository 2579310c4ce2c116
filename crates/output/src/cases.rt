// Many schedule files in one input. A case is a name and a file, each after its length in two bytes.
ghost use Rattle.std.specs.Prelude.{◌<◌, length, IfSome};

use crate::print;
use std::io;
use std::io::Write;

// The first part of the bytes, after its length, and what follows it.
fn part(bytes: &[u8]) -> Option<(&[u8], &[u8])>
    ensures { IfSome result (λ p. length p.1.now < length bytes.now) }
{
    let (size, rest) = bytes.split_first_chunk::<2>()?;
    rest.split_at_checked(usize::from(u16::from_be_bytes(*size)))
}

/// Prints what comes of every case below its name.
pub fn print_cases(rt: &HostRuntime, cases: &[u8]) -> io::Result<()> {
    let mut rest = cases;
    while let Some((name, after)) = part(rest) {
        let Some((file, others)) = part(after) else {
            break;
        };
        rt.stdout().write_all(b"# ")?;
        rt.stdout().write_all(name)?;
        rt.stdout().write_all(b"\n")?;
        print(rt, file)?;
        rest = others;
    }
    Ok(())
}
