// Runs cases. Each line of standard input is a call with its arguments, as docs/CASES.md describes them; the part from ` ->` on may be there and is ignored.
// Each is printed back with the answer that the call gives now, so that a file of right cases comes out as it went in.
#![tactic(auto)]

mod calls;
mod cases;
mod fields;
mod jobs;

ghost use Rattle.printer.specs.Gathered.{Gathered};

use cases::{Case, LINE, Memory};
use printer::Printer;
use std::io::{Result, Stdin};

// The text of the line that is being read: its bytes, and how many came, of which those beyond the longest line are not kept.
#[derive(Drop)]
struct Text {
    bytes: [u8; LINE],
    count: usize,
}

impl Text {
    fn push(&mut self, b: u8) {
        if let Some(place) = self.bytes.get_mut(self.count) {
            *place = b;
        }
        self.count = self.count.saturating_add(1);
    }

    // The line, if all of it is kept.
    fn whole(&self) -> Option<&[u8]> {
        self.bytes.get(..self.count)
    }
}

// What a run goes on with: the line that is being read, what its case is kept in, and where the answers go.
#[derive(Drop)]
struct Replay {
    text: Text,
    memory: Memory,
    printer: Printer,
}

impl Replay {
    // Answers the line that was read, and begins the next one.
    fn answer(&mut self)
        ensures { Gathered self.old.printer self.new.printer }
    {
        if self.answer_case().is_none() {
            self.printer.bytes(b"bad line\n");
        }
        self.text.count = 0;
    }

    // Prints the case that the line is with its answer, if it is one.
    fn answer_case(&mut self) -> Option<()>
        ensures { Gathered self.old.printer self.new.printer }
    {
        let query = query(self.text.whole()?);
        let case = Case::read(query, &mut self.memory)?;
        let p = &mut self.printer;
        p.bytes(query);
        p.bytes(b" -> ");
        case.answer(p);
        p.bytes(b"\n");
        Some(())
    }

    // Goes through a block of input.
    fn take(&mut self, block: &[u8])
        ensures { Gathered self.old.printer self.new.printer }
    {
        for b in block {
            if *b == b'\n' {
                self.answer();
            } else {
                self.text.push(*b);
            }
        }
    }

    // Reads to the end of the input, or until the output cannot be written; a last line may lack its line end.
    // A proved loop ends, so its turns are counted, by a number that no run comes to the end of.
    fn read_all(&mut self, input: Stdin) -> Result<()>
        ensures { Gathered self.old.printer self.new.printer }
    {
        let mut block = io::large_buffer();
        for _ in 0..u64::MAX {
            let n = printer::read(input, &mut block)?;
            if n == 0 {
                if self.text.count != 0 {
                    self.answer();
                }
                break;
            }
            self.take(&block[..n]);
            if self.printer.failed() {
                break;
            }
        }
        Ok(())
    }
}

// The part of a line that is not ignored: it ends at the first ` ->`, or at the line's end.
fn query(line: &[u8]) -> &[u8] {
    match line.windows(3).position(|part| part == b" ->".as_slice()) {
        Some(at) => &line[..at],
        None => line,
    }
}

fn main(rt: HostRuntime) {
    let mut replay = Replay {
        text: Text {
            bytes: [0; LINE],
            count: 0,
        },
        memory: Memory::new(),
        printer: Printer::new(rt.stdout()),
    };
    let end = replay.read_all(rt.stdin());
    let p = &mut replay.printer;
    if end.is_err() {
        p.unreadable(rt.stderr(), b"replay", b"input unreadable\n");
    }
    p.finish(rt.stderr(), b"replay");
}
