// Reads settings and a log from standard input, and writes what `report` makes of them.
#![tactic(auto)]

ghost use Rattle.std.specs.Prelude.{◌≤◌, length, IfOk};

use std::io;
use std::io::{Input, Print, Read};

// Reads until the buffer is full or the input ends; how many bytes were read.
fn read_full<R: Read>(reader: &mut R, buffer: &mut [u8]) -> io::Result<usize>
    ensures { IfOk result (λ n. n ≤ length buffer.new) }
{
    // No library method fills a lent buffer up to the input's end and says how far: read_exact fails there, read_to_end needs a heap.
    let mut done = 0;
    while done < buffer.len() {
        let n = reader.read(&mut buffer[done..])?;
        if n == 0 {
            break;
        }
        done += n;
    }
    Ok(done)
}

fn main(rt: HostRuntime) -> io::Result<()> {
    // One byte more than is allowed, to see that there are more.
    let mut input = [0u8; report::MOST_INPUT + 1];
    let n = read_full(&mut rt.reader(), &mut input)?;
    let mut arrays = report::Arrays {
        events: [0; report::LENT_EVENTS],
        ends: [0; report::LENT_ENDS],
        words: [0; report::LENT_WORDS],
        list: [0; report::LIST],
    };
    let mut out = [0u8; report::OUT];
    let written = report::report(&input[..n], &mut arrays, &mut out);
    rt.stdout().write_all(&out[..written])
}
