// Templates: their records, checked and read one by one, and what a record puts in, without copying (01, "Replace-all").
#![tactic(auto)]

ghost use Rattle.std.specs.Prelude.{◌≡◌, ℕ, List, ◌-◌, ◌≤◌, length};
ghost use Rattle.paper.specs.Limits.{pattern_groups, table_numbers};
ghost use Rattle.paper.specs.Refusal.{accepted};
ghost use Rattle.paper.specs.Rows.{row_start, row_end};
ghost use Rattle.paper.specs.Template.{template_of, within};
ghost use Rattle.paper.specs.Template as paper;
ghost use Rattle.paper.specs.PieceCalls.{row_span, piece_call};
ghost use Rattle.template.specs.Record.{Shows, next_of, count_of, record_count, references_of, references_call, TellsNumbered, Lawful};
ghost use Rattle.template.specs.Answer.{span_of, answer_of, Inside, IsPart};

use pattern::{Pattern, Refusal, Refused, Spans, Template};
use records::{Header, header_at, number_at};

// Where a piece's bytes stand.
#[derive(Clone, Copy, Debug, PartialEq, Eq)]
pub enum Source {
    Template,
    Line,
}

// What a template record puts in: the bytes of its source from start to end.
#[derive(Clone, Copy, Debug, PartialEq, Eq)]
pub struct Span {
    pub source: Source,
    pub start: usize,
    pub end: usize,
}

impl Span {
    fn new(source: Source, start: usize, end: usize) -> Span
        ensures { result ≡ record { source = source; start = start; end = end } }
    {
        Span { source, start, end }
    }

    // The bytes themselves.
    fn bytes<'a>(self, template: &'a [u8], line: &'a [u8]) -> &'a [u8]
        requires { Inside template.now line.now (span_of self) }
        ensures { IsPart (accepted (span_of self)) template.entry line.entry result }
    {
        match self.source {
            Source::Template => &template[self.start..self.end],
            Source::Line => &line[self.start..self.end],
        }
    }
}

// The two kinds of a template's records, numbers of the format that are met once: `Record` is their enum.
const LITERAL: usize = 32;

const REFERENCE: usize = 33;

// A record of a template.
#[derive(Clone, Copy, Debug, PartialEq, Eq)]
pub enum Record {
    // The template's bytes from start to end; the next record stands at end.
    Literal { start: usize, end: usize },
    // The bytes of a row; the next record stands at next.
    Reference { row: usize, next: usize },
}

impl Record {
    // Where the next record stands.
    fn next(self) -> usize
        ensures { result ≡ next_of self }
    {
        match self {
            Record::Literal { end, .. } => end,
            Record::Reference { next, .. } => next,
        }
    }
}

// The record at an offset of a template, unless it is wrong.
pub fn record_at(template: &[u8], at: usize) -> Option<Record>
    requires { at ≤ length template.now }
    ensures { Shows template.now at result }
{
    let Header { kind, start, end } = header_at(template, at, template.len())?;
    match kind {
        LITERAL if start < end => Some(Record::Literal { start, end }),
        REFERENCE if end - start == 2 => {
            let row = number_at(template, start);
            (row <= Pattern::GROUPS).then_some(Record::Reference { row, next: end })
        }
        _ => None,
    }
}

// The records of a template in order, each with where it stands. They end at the template's end, or where one is wrong.
#[derive(Drop)]
pub struct Records<'a> {
    template: &'a [u8],
    at: usize,
    ghost inside: { at ≤ length template.now },
}

impl<'a> Records<'a> {
    ghost use Rattle.template.specs.Records.{Start};

    // From the start on.
    pub fn new(template: &'a [u8]) -> Records<'a>
        ensures { Start template.now result }
    {
        Records { template, at: 0 }
    }
}

impl<'a> Iterator for Records<'a> {
    ghost use Rattle.std.specs.Iterator.{at_most};
    ghost use Rattle.template.specs.Records.{Goes};

    type Item = (usize, Record);

    ghost next_gives = { Goes };

    ghost remaining = { λ s. at_most (length s.template.now - s.at) };

    fn next(&mut self) -> Option<(usize, Record)> {
        let at = self.at;
        let record = record_at(self.template, at)?;
        self.at = record.next();
        Some((at, record))
    }
}

// Refusal 9, or the number of records and the record of a number, if there is one: one walk over all of them.
fn numbered(template: &[u8], number: usize) -> Result<(usize, Option<Record>), Refused>
    ensures { TellsNumbered template.now number result }
{
    if Template::BYTES < template.len() {
        return Err(Refusal::TemplateWrong.at(0));
    }
    let mut records = Records::new(template);
    // the library's `count` does not say where it leaves the walk, which is the answer
    let mut count = 0;
    let mut found = None;
    while let Some((_, record)) = records.next() {
        if count == number {
            found = Some(record);
        }
        count += 1;
    }
    if records.at < template.len() {
        return Err(Refusal::TemplateWrong.at(records.at));
    }
    Ok((count, found))
}

// Refusal 9, or the number of records.
pub fn check_template(template: &[u8]) -> Result<usize, Refused>
    ensures { count_of result ≡ record_count template.now }
{
    // no template has a record of so high a number
    let (count, _) = numbered(template, Template::BYTES)?;
    Ok(count)
}

// Refusal 10 of a template that 9 does not refuse: the walk to the first reference above the groups.
fn first_too_high(template: &[u8], groups: usize) -> Result<(), Refused>
    requires { Lawful template.now }
    ensures { (pieces : List paper.Piece) → template_of template.now ≡ accepted pieces → references_of result ≡ within pieces groups }
{
    for (at, record) in Records::new(template) {
        if let Record::Reference { row, .. } = record {
            if groups < row {
                return Err(Refusal::ReferenceTooHigh.at(at));
            }
        }
    }
    Ok(())
}

// Refusals 9 and 10: all of the first before any of the second.
pub fn references_within(template: &[u8], groups: usize) -> Result<(), Refused>
    ensures { references_of result ≡ references_call template.now groups }
{
    check_template(template)?;
    first_too_high(template, groups)
}

// A row's part of a line so long; an absent one is the empty part at the line's start.
fn row_part(size: usize, table: &[u16], row: usize) -> Result<Span, Refused>
    requires { (row ≤ pattern_groups) × (table_numbers ≤ length table.now) }
    ensures { answer_of result ≡ row_span size (row_start row table.now) (row_end row table.now) }
{
    let first = table[2 * row];
    let last = table[2 * row + 1];
    if first == Spans::ABSENT && last == Spans::ABSENT {
        return Ok(Span::new(Source::Line, 0, 0));
    }
    let start = usize::from(first);
    let end = usize::from(last);
    if start <= end && end <= size {
        return Ok(Span::new(Source::Line, start, end));
    }
    Err(Refusal::RowWrong.at(0))
}

// What a template record puts in: source, start and end; or 9, 11, 12, 16 and 15, tested in this order.
pub fn piece(template: &[u8], line: &[u8], table: &[u16], number: usize) -> Result<Span, Refused>
    ensures { answer_of result ≡ piece_call template.now line.now table.now number }
{
    // 9 comes first, and is of the whole template: the record is kept as the one walk passes it
    let (_, record) = numbered(template, number)?;
    pattern::lent(line, table)?;
    match record {
        None => Err(Refusal::NoSuchPiece.at(0)),
        Some(Record::Literal { start, end }) => Ok(Span::new(Source::Template, start, end)),
        Some(Record::Reference { row, .. }) => row_part(line.len(), table, row),
    }
}

// The part itself, out of the template or out of the line; where `piece` refuses, the empty part at the template's start.
pub fn part<'a>(template: &'a [u8], line: &'a [u8], table: &[u16], number: usize) -> &'a [u8]
    ensures { IsPart (piece_call template.now line.now table.now number) template.entry line.entry result }
{
    match piece(template, line, table, number) {
        Ok(span) => span.bytes(template, line),
        Err(_) => &template[..0],
    }
}
