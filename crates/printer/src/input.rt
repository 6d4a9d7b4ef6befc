// Standard input. A call that was interrupted, or that came before anything was there, is made again.
ghost use Rattle.printer.specs.Gathered.{Brought};

use crate::{CALLS, again};
use std::io;
use std::io::{Read, Stdin};

// Reads once: how many bytes came, of which there are none at the input's end.
pub fn read(mut from: Stdin, buffer: &mut [u8]) -> io::Result<usize>
    ensures { Brought buffer.old result }
{
    for _ in 1..CALLS {
        match from.read(buffer) {
            Ok(n) => return Ok(n),
            Err(error) => {
                if !again(error) {
                    return Err(error);
                }
            }
        }
    }
    from.read(buffer)
}

// Reads until a buffer is full or the input has ended: how many bytes came.
pub fn read_full(from: Stdin, buffer: &mut [u8]) -> io::Result<usize>
    ensures { Brought buffer.old result }
{
    let mut n = 0;
    // no `for`: how much a turn brings is the system's to say
    while n < buffer.len() {
        match read(from, &mut buffer[n..])? {
            0 => return Ok(n),
            more => n += more,
        }
    }
    Ok(n)
}
