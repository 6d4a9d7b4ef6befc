// The answers of the calls in words and numbers, as pick and replay print them.
ghost use Rattle.std.specs.Prelude.{◌≤◌};
ghost use Rattle.printer.specs.Gathered.{Gathered};

use crate::Printer;
use matcher::Found;
use pattern::{Refused, Spans};

impl Printer {
    // A refusal: its number and its place, of which either may be any number; one that a call answers goes by `refused`.
    pub fn refusal(&mut self, number: usize, place: usize)
        ensures { Gathered self.old self.new }
    {
        self.bytes(b"refused ");
        self.decimal(number as u64);
        self.bytes(b" ");
        self.decimal(place as u64);
    }

    // The refusal that a call answers.
    pub fn refused(&mut self, refused: Refused)
        ensures { Gathered self.old self.new }
    {
        self.refusal(refused.refusal.number(), refused.place);
    }

    // A row after a space: its start and end, or a dash where it is absent.
    pub fn row(&mut self, start: u16, end: u16)
        ensures { Gathered self.old self.new }
    {
        if start == Spans::ABSENT {
            self.bytes(b" -");
            return;
        }
        self.bytes(b" ");
        self.decimal(u64::from(start));
        self.bytes(b"-");
        self.decimal(u64::from(end));
    }

    // Rows 0 to the group count, in order, as far as a table has them.
    fn rows(&mut self, table: [u16; Spans::NUMBERS], groups: usize)
        ensures { Gathered self.old self.new }
    {
        let (rows, _) = table.as_chunks::<2>();
        for &[start, end] in rows.iter().take(groups.saturating_add(1)) {
            self.row(start, end);
        }
    }

    // What a match or a search found: its rows, if there is a match, and the steps.
    pub fn outcome(&mut self, rows: Option<[u16; Spans::NUMBERS]>, steps: u64, groups: usize)
        ensures { Gathered self.old self.new }
    {
        self.bytes(if rows.is_some() { b"whole " } else { b"none " });
        self.decimal(steps);
        if let Some(table) = rows {
            self.rows(table, groups);
        }
    }

    // What a whole match or a search answers: a refusal, or what it found.
    pub fn found(
        &mut self,
        answer: Result<Found, Refused>,
        table: [u16; Spans::NUMBERS],
        groups: usize,
    )
        ensures { Gathered self.old self.new }
    {
        match answer {
            Ok(found) => self.outcome(
                found.matched.then_some(table),
                u64::from(found.steps),
                groups,
            ),
            Err(refused) => self.refused(refused),
        }
    }
}
