// A job: a record whose body is a pattern, then records whose bodies are lines (01, "Known answers", on pick); and what is printed for each.
#![tactic(auto)]

ghost use Rattle.std.specs.Prelude.{◌≤◌, ◌≡◌, [], ◌∷◌, length};
ghost use Rattle.printer.specs.Gathered.{Gathered};
ghost use Rattle.job.specs.Comes.{comes, pattern_record, line_record, body_bytes};

use pattern::{Numbers, Spans};
use printer::Printer;

// The kinds of a job's records, numbers since `next_record` may be asked for any, and the greatest length of a body.
#[derive(Clone, Copy)]
pub struct Job {}

impl Job {
    pub const PATTERN: usize = 64;

    pub const LINE: usize = 65;

    pub const BODY: usize = 4096;

    // The numbers above are those of specs/.
    pub fn all() -> [usize; 3]
        ensures { result ≡ pattern_record ∷ line_record ∷ body_bytes ∷ [] }
    {
        [Job::PATTERN, Job::LINE, Job::BODY]
    }
}

// Where the body of a record stands.
#[derive(Clone, Copy, Debug, PartialEq, Eq)]
pub struct Body {
    pub start: usize,
    pub end: usize,
}

// What comes is no whole record of the kind.
#[derive(Clone, Copy, Debug, PartialEq, Eq)]
pub struct Broken {}

// The body of the record at an offset, which has to be whole and of the kind; at the job's end there is none.
pub fn next_record(
    bytes: &[u8],
    at: usize,
    stop: usize,
    kind: usize,
) -> Result<Option<Body>, Broken>
    requires { (at ≤ stop) × (stop ≤ length bytes.now) }
    ensures { result ≡ comes bytes.now at stop kind }
{
    if at == stop {
        return Ok(None);
    }
    let header = records::header_at(bytes, at, stop).ok_or(Broken {})?;
    if header.kind != kind || Job::BODY < header.end - header.start {
        return Err(Broken {});
    }
    Ok(Some(Body {
        start: header.start,
        end: header.end,
    }))
}

// The pattern's numbers.
pub fn print_numbers(p: &mut Printer, numbers: Numbers)
    ensures { Gathered p.old p.new }
{
    p.bytes(b"places ");
    p.decimal(numbers.places as u64);
    p.bytes(b" depth ");
    p.decimal(numbers.depth as u64);
    p.bytes(b" groups ");
    p.decimal(numbers.groups as u64);
    p.bytes(b"\n");
}

// The refusal of the pattern, by its number and place, of which either may be any number.
pub fn print_refused(p: &mut Printer, number: usize, place: usize)
    ensures { Gathered p.old p.new }
{
    p.refusal(number, place);
    p.bytes(b"\n");
}

// What is printed where the job is not as described.
pub fn print_broken(p: &mut Printer)
    ensures { Gathered p.old p.new }
{
    p.bytes(b"job broken\n");
}

// A line's number and what its match found: the rows, if there is a match, and the steps.
pub fn print_line(
    p: &mut Printer,
    number: u64,
    rows: Option<[u16; Spans::NUMBERS]>,
    steps: u64,
    groups: usize,
)
    ensures { Gathered p.old p.new }
{
    p.decimal(number);
    p.bytes(b" ");
    p.outcome(rows, steps, groups);
    p.bytes(b"\n");
}
