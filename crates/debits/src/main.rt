// Reads a roll file from standard input and prints its listing; nothing, if the listing does not fit its output.
#![tactic(auto)]

ghost use Rattle.std.specs.Prelude.{◌≤◌, length, IfOk};

use listing::listing::list;
use std::io;
use std::io::Read;

// Reads what there is, up to the length of the buffer, and tells how much. A file that fills the buffer is too long.
fn read_all(rt: &HostRuntime, buffer: &mut [u8]) -> io::Result<usize>
    ensures { IfOk result (λ n. n ≤ length buffer.old) }
{
    let mut input = rt.stdin();
    let mut count = 0;
    // Kept: `read_exact` tells no count at the end of a file, and `read_to_end` takes heap.
    while count < buffer.len() {
        let n = input.read(&mut buffer[count..])?;
        if n == 0 {
            break;
        }
        count += n;
    }
    Ok(count)
}

fn main(rt: HostRuntime) -> io::Result<()> {
    let mut file = [0u8; 65_537];
    let mut out = [0u8; 65_536];
    let count = read_all(&rt, &mut file)?;
    match list(&file[..count], &mut out) {
        Ok(n) => rt.write_all(&out[..n]),
        Err(_) => Ok(()),
    }
}
