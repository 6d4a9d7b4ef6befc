// What the programs read and print with (01, "Known answers", on pick). Bytes are gathered in a printer's buffer and written to standard output when it is full.
// After a failed write nothing more is gathered or written, so that what was written is the beginning of the output.
// A function that reads or writes is given the handle of the stream, which `main` has from the system.
#![tactic(auto)]

mod answers;
mod input;

ghost use Rattle.std.specs.Prelude.{ℕ, ◌≤◌, ◌<◌, ◌≡◌, ◌↔◌, ◌⊎◌, Option, None, Some, IsNone, IsTrue, IfSome};
ghost use Rattle.printer.specs.Gathered.{Gathered};

pub use input::{read, read_full};
use std::io::{Error, ErrorKind, Stderr, Stdout};
use std::marker::Model;
use std::thread;

// How many bytes are gathered before they are written.
const BYTES: usize = 65_536;

// How many calls of the system are made for one reading, or for one buffer that is written.
const CALLS: usize = 1_000_000;

// Whether a call that failed is to be made again: it was interrupted, or came before the other side was ready.
fn again(error: Error) -> bool {
    match error.kind() {
        ErrorKind::Interrupted => true,
        ErrorKind::WouldBlock => {
            thread::yield_now();
            true
        }
        _ => false,
    }
}

// Writes all of a slice to standard output, and answers whether that could be done.
fn written(to: Stdout, s: &[u8]) -> bool {
    let mut rest = s;
    for _ in 0..CALLS {
        if rest.is_empty() {
            return true;
        }
        match to.write_some(rest) {
            Ok(n) => rest = &rest[n..],
            Err(error) => {
                if !again(error) {
                    return false;
                }
            }
        }
    }
    rest.is_empty()
}

// A line on standard error: the program's name, and what could not be done.
fn complain(errors: Stderr, program: &[u8], words: &[u8]) {
    let _ = errors.write_all(program);
    let _ = errors.write_all(words);
}

// Prints to standard output. Contracts see how many bytes are gathered; after a failed write there is no such number.
// No Display: after an `Err` of `write!` a contract knows nothing of the printer, and `Gathered` is promised of each call, which may not change.
#[derive(Drop)]
pub struct Printer {
    to: Stdout,
    buffer: [u8; BYTES],
    gathered: Option<usize>,
    coded: bool,
}

impl Model for Printer {
    ghost Value = { Option ℕ };

    ghost view = { λ p. p.gathered };

    ghost invariant = { λ p. IfSome p.gathered (λ n. n ≤ 65536) };
}

impl Printer {
    pub fn new(to: Stdout) -> Printer
        ensures { result ≡ Some 0 }
    {
        Printer {
            to,
            buffer: [0; BYTES],
            gathered: Some(0),
            coded: false,
        }
    }

    // Says whether bytes are printed as their two hexadecimal digits each from now on.
    pub fn set_coded(&mut self, coded: bool)
        ensures { self.new ≡ self.old }
    {
        self.coded = coded;
    }

    // Whether a write failed.
    pub fn failed(&self) -> bool
        ensures { IsTrue result ↔ IsNone self.now }
    {
        self.gathered.is_none()
    }

    // Writes out what is gathered, which leaves nothing.
    #[tactic(auto, unfolding(crate::specs::Gathered::failures))]
    #[cold]
    fn flush(&mut self)
        ensures gathered { Gathered self.old self.new }
        ensures empty { (self.new ≡ Some 0) ⊎ (self.new ≡ None) }
    {
        if let Some(n) = self.gathered {
            self.gathered = written(self.to, &self.buffer[..n]).then_some(0);
        }
    }

    // All bytes of a slice in order, as they are; a full buffer is written out for the next byte.
    #[tactic(auto, unfolding(crate::specs::Gathered::failures))]
    fn plain(&mut self, s: &[u8])
        ensures { Gathered self.old self.new }
    {
        for &b in s {
            if self.gathered == Some(BYTES) {
                self.flush();
            }
            let Some(n) = self.gathered else {
                return;
            };
            self.buffer[n] = b;
            self.gathered = Some(n + 1);
        }
    }

    // A byte as two hexadecimal digits in lower case. It is no twin of `decimal`: room, digits and whether they are coded differ, so one text says no less.
    pub fn hex(&mut self, b: u8)
        ensures { Gathered self.old self.new }
    {
        let mut text = [0u8; 16];
        let k = io::hex(u64::from(b), 2, &mut text);
        self.plain(&text[..k]);
    }

    // All bytes of a slice in hexadecimal digits, in order.
    fn digits(&mut self, s: &[u8])
        ensures { Gathered self.old self.new }
    {
        for &b in s {
            self.hex(b);
        }
    }

    // The bytes of a slice, in order. Inlined, since most slices are a few bytes of words and numbers.
    #[inline(always)]
    pub fn bytes(&mut self, s: &[u8])
        ensures { Gathered self.old self.new }
    {
        if self.coded {
            self.digits(s);
        } else {
            self.plain(s);
        }
    }

    // A number in decimal digits.
    pub fn decimal(&mut self, n: u64)
        ensures { Gathered self.old self.new }
    {
        let mut text = [0u8; 20];
        let k = io::decimal(n, &mut text);
        self.bytes(&text[..k]);
    }

    // A byte string as hexadecimal digits, the empty one as a dot.
    pub fn byte_string(&mut self, s: &[u8])
        ensures { Gathered self.old self.new }
    {
        if s.is_empty() {
            self.plain(b".");
        } else {
            self.digits(s);
        }
    }

    // Writes out what is left at the program's end, and says on standard error where not all of the output was written.
    pub fn finish(&mut self, errors: Stderr, program: &[u8])
        ensures { Gathered self.old self.new }
    {
        self.flush();
        if self.failed() {
            complain(errors, program, b": standard output cannot be written\n");
        }
    }

    // The line that stands last where the input could not be read, which standard error says too.
    pub fn unreadable(&mut self, errors: Stderr, program: &[u8], line: &[u8])
        ensures { Gathered self.old self.new }
    {
        complain(errors, program, b": standard input cannot be read\n");
        self.plain(line);
    }
}
