// Reads a text from standard input and prints the line for it. 65,536 bytes are enough to know the line, since a text of more than 65,535 is
// refused whole. Where the input cannot be read, or the line cannot be written, standard error says so, and no line is made up. The program gives
// no exit status.
#![tactic(auto)]

ghost use Rattle.std.specs.Prelude.{◌≡◌, ◌≤◌, IfOk, length};

use std::io;
use std::io::{Read, Write};

// A byte more than a text may have.
const ROOM: usize = 65536;

// What cannot be told on standard error is told nowhere.
fn main(rt: HostRuntime) {
    // With a count beside it, as `read` wants bytes lent, and what was read is a slice of them at once.
    let mut buffer = [0u8; ROOM];
    match read_input(&rt, &mut buffer) {
        Ok(count) => {
            let line = fontline::check(&buffer[..count]).text();
            if rt.stdout().write_all(line.as_slice()).is_err() {
                let _ = eprintln!(rt;
                    "fontcheck: the line could not be written to standard output"
                );
            }
        }
        Err(_) => {
            let _ = eprintln!(rt;
                "fontcheck: standard input could not be read; usage: fontcheck <TEXT.hex"
            );
        }
    }
}

// How many bytes were read: all that there were, or as many as there is room for.
fn read_input(rt: &HostRuntime, buffer: &mut [u8]) -> io::Result<usize>
    ensures { IfOk result (λ count. count ≤ length buffer.new) × (length buffer.new ≡ length buffer.old) }
{
    let mut done = 0;
    // It counts what was read, and no index: std's `read_exact` does not tell how much there was, and `read_to_end` wants heap.
    while done < buffer.len() {
        let more = rt.stdin().read(&mut buffer[done..])?;
        if more == 0 {
            break;
        }
        done += more;
    }
    Ok(done)
}
