// The calls: each is made on what its case gives, and what it answers is printed.
ghost use Rattle.printer.specs.Gathered.{Gathered};

use crate::cases::{Call, Case};
use crate::jobs;
use matcher::Found;
use pattern::{Refused, Spans};
use printer::Printer;
use template::Source;

// What each byte of a buffer is before the call, so that what the call leaves of it can be told.
const FILL: u8 = b'#';

impl Case<'_> {
    // Makes the case's call, and prints what it answers.
    pub fn answer(self, p: &mut Printer)
        ensures { Gathered p.old p.new }
    {
        match self {
            Case::Check { pattern } => check(pattern, p),
            Case::Find {
                call,
                pattern,
                line,
            } => find(call, pattern, line, p),
            Case::FindIn {
                call,
                pattern,
                line,
                table,
            } => find_in(call, pattern, line, table, p),
            Case::Replace {
                pattern,
                template,
                line,
                buffer,
            } => replace(pattern, template, line, buffer, p),
            Case::Piece {
                template,
                line,
                table,
                number,
            } => piece(template, line, table, number, p),
            Case::Pick { job } => jobs::pick(job, p),
        }
    }
}

impl Call {
    fn make(self, pattern: &[u8], line: &[u8], table: &mut [u16]) -> Result<Found, Refused> {
        match self {
            Call::WholeMatch => matcher::whole_match(pattern, line, table),
            Call::Search => matcher::search(pattern, line, table),
        }
    }
}

// Numbers, each after a space.
fn print_numbers(numbers: &[usize], p: &mut Printer)
    ensures { Gathered p.old p.new }
{
    for n in numbers {
        p.bytes(b" ");
        p.decimal(*n as u64);
    }
}

// A pattern's places, depth and groups.
fn check(pattern: &[u8], p: &mut Printer)
    ensures { Gathered p.old p.new }
{
    match pattern::check(pattern) {
        Ok(numbers) => {
            p.bytes(b"ok");
            print_numbers(&[numbers.places, numbers.depth, numbers.groups], p);
        }
        Err(refused) => p.refused(refused),
    }
}

// A match or a search, lent a table of just the numbers that a call asks for.
fn find(call: Call, pattern: &[u8], line: &[u8], p: &mut Printer)
    ensures { Gathered p.old p.new }
{
    let mut table = Spans::absent_table();
    let answer = call.make(pattern, line, &mut table);
    let groups = pattern::check(pattern).map_or(0, |numbers| numbers.groups);
    p.found(answer, table, groups);
}

// A match or a search in the table that the case gives, which is printed as the call leaves it.
fn find_in(call: Call, pattern: &[u8], line: &[u8], table: &mut [u16], p: &mut Printer)
    ensures { Gathered p.old p.new }
{
    match call.make(pattern, line, table) {
        Ok(Found { matched, steps }) => {
            p.bytes(if matched { b"whole " } else { b"none " });
            p.decimal(u64::from(steps));
        }
        Err(refused) => p.refused(refused),
    }
    print_table(table, p);
}

// The numbers of a table after a space, the lower byte of each first; none as a dot.
fn print_table(table: &[u16], p: &mut Printer)
    ensures { Gathered p.old p.new }
{
    p.bytes(b" ");
    if table.is_empty() {
        p.byte_string(&[]);
    }
    for number in table {
        p.byte_string(&number.to_le_bytes());
    }
}

// Replace-all in a buffer that is filled before the call, so that a change behind the output is told.
fn replace(pattern: &[u8], template: &[u8], line: &[u8], buffer: &mut [u8], p: &mut Printer)
    ensures { Gathered p.old p.new }
{
    buffer.fill(FILL);
    match replacer::replace_all(pattern, template, line, buffer) {
        Ok(replaced) => {
            let (output, rest) = buffer.split_at(replaced.length);
            p.byte_string(output);
            print_numbers(&[replaced.length, replaced.replacements], p);
            p.bytes(b" ");
            p.decimal(replaced.steps);
            print_change(rest, p);
        }
        Err(refused) => {
            p.refused(refused);
            print_change(buffer, p);
        }
    }
}

// Says where a byte that the call was not to write is not as it was.
fn print_change(rest: &[u8], p: &mut Printer)
    ensures { Gathered p.old p.new }
{
    if !rest.iter().all(|b| *b == FILL) {
        p.bytes(b" buffer changed");
    }
}

// A piece by both calls: where it stands, and the part itself.
fn piece(template: &[u8], line: &[u8], table: &[u16], number: usize, p: &mut Printer)
    ensures { Gathered p.old p.new }
{
    match template::piece(template, line, table, number) {
        Ok(span) => {
            p.bytes(match span.source {
                Source::Template => b"template",
                Source::Line => b"line",
            });
            print_numbers(&[span.start, span.end], p);
            p.bytes(b" ");
            p.byte_string(template::part(template, line, table, number));
        }
        Err(refused) => p.refused(refused),
    }
}
