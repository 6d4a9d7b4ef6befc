// The job on standard input: its bytes are read in blocks through a window of a buffer, so that no length of the job is too long.
ghost use Rattle.std.specs.Prelude.{◌≡◌, ◌≤◌, ◌+◌, ◌↔◌, [], IsTrue, length, drop};
ghost use Rattle.paper.specs.Check.{part};
ghost use Rattle.pick.specs.declared.input.Behind.TheVariants.{More, Unreadable};
ghost use Rattle.pick.specs.Window.{Window, Grown};

use job::Job;
use std::io::Stdin;
use std::marker::Model;

const BYTES: usize = 65_536;

const RECORD: usize = records::BEFORE_BODY + Job::BODY;

// What stands behind the bytes that were read: perhaps more, nothing, or what cannot be read.
#[derive(Clone, Copy, Debug, PartialEq, Eq)]
enum Behind {
    More,
    Nothing,
    Unreadable,
}

// The input; contracts see of it a `Window`.
#[derive(Drop)]
pub struct Input {
    from: Stdin,
    buffer: [u8; BYTES],
    start: usize,
    end: usize,
    behind: Behind,
}

impl Model for Input {
    ghost Value = { Window };

    ghost view = { λ i. record { bytes = part i.buffer i.start i.end; start = i.start; behind = i.behind } };

    ghost invariant = { λ i. (i.start ≤ i.end) × (i.end ≤ 65536) };
}

impl Input {
    pub fn new(from: Stdin) -> Input
        ensures { result ≡ record { bytes = []; start = 0; behind = More } }
    {
        Input {
            from,
            buffer: [0; BYTES],
            start: 0,
            end: 0,
            behind: Behind::More,
        }
    }

    // The bytes that are read and not yet used.
    pub fn bytes(&self) -> &[u8]
        ensures { result.now ≡ self.now.bytes }
    {
        &self.buffer[self.start..self.end]
    }

    // Leaves out the first of them, which are used.
    #[tactic(auto, using(crate::proofs::Windows::part_later))]
    pub fn consume(&mut self, n: usize)
        requires { n ≤ length self.old.bytes }
        ensures { self.new ≡ record { bytes = drop n self.old.bytes; start = self.old.start + n; behind = self.old.behind } }
    {
        self.start += n;
    }

    // Whether the input could not be read.
    pub fn failed(&self) -> bool
        ensures { IsTrue result ↔ self.now.behind ≡ Unreadable }
    {
        self.behind == Behind::Unreadable
    }

    // Moves the bytes to the buffer's start, so that there is room behind them.
    fn move_to_front(&mut self)
        ensures { self.new ≡ record self.old { start = 0 } }
    {
        self.buffer.copy_within(self.start..self.end, 0);
        self.end -= self.start;
        self.start = 0;
    }

    // Reads once behind them.
    #[tactic(auto, using(crate::proofs::Windows::grown_read))]
    fn read_more(&mut self)
        ensures { Grown self.old.bytes self.new.bytes }
    {
        match printer::read(self.from, &mut self.buffer[self.end..]) {
            Ok(0) => self.behind = Behind::Nothing,
            Ok(n) => self.end += n,
            Err(_) => self.behind = Behind::Unreadable,
        }
    }

    // Whether another reading is of no use: a whole record is there, or nothing comes behind what is.
    fn is_enough(&self) -> bool {
        self.behind != Behind::More || RECORD <= self.end - self.start
    }

    // Reads until a whole record is there or the input has ended. A record has at most so many bytes, so as many turns are enough.
    pub fn fill(&mut self)
        ensures { Grown self.old.bytes self.new.bytes }
    {
        if self.is_enough() {
            return;
        }
        self.move_to_front();
        for _ in 0..RECORD {
            if self.is_enough() {
                return;
            }
            self.read_more();
        }
    }
}
