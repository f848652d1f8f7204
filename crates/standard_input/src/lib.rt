// Standard input, up to a bound: nothing says that an input ends.
#![tactic(auto)]

ghost use Rattle.std.specs.Prelude.{◌≤◌, length, IfOk};

use std::io;
use std::io::Read;

// Reads until the input ends or the buffer is full, and tells how many bytes it has then.
pub fn fill(rt: &HostRuntime, buffer: &mut [u8]) -> io::Result<usize>
    ensures { IfOk result (λ count. count ≤ length buffer.new) }
{
    let mut input = rt.stdin();
    // The buffer is lent, so a position moves along it: `read_exact` tells no count, and `read_to_end` wants a vector.
    let mut have = 0;
    while have < buffer.len() {
        let more = input.read(&mut buffer[have..])?;
        if more == 0 {
            break;
        }
        have += more;
    }
    Ok(have)
}
