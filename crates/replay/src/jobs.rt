// What pick prints for a job that is all there, as the digits of its bytes.
ghost use Rattle.printer.specs.Gathered.{Gathered};

use job::{Body, Broken, Job};
use matcher::Found;
use pattern::Spans;
use printer::Printer;

pub fn pick(job: &[u8], p: &mut Printer)
    ensures { Gathered p.old p.new }
{
    p.set_coded(true);
    if print_job(job, p).is_err() {
        job::print_broken(p);
    }
    p.set_coded(false);
}

// The whole job, until a record is not as described.
fn print_job(bytes: &[u8], p: &mut Printer) -> Result<(), Broken>
    ensures { Gathered p.old p.new }
{
    let Some(Body { start, end }) = job::next_record(bytes, 0, bytes.len(), Job::PATTERN)? else {
        return Err(Broken {});
    };
    let pattern = &bytes[start..end];
    match pattern::check(pattern) {
        Ok(numbers) => {
            job::print_numbers(p, numbers);
            print_lines(&bytes[end..], pattern, numbers.groups, p)
        }
        Err(refused) => {
            job::print_refused(p, refused.refusal.number(), refused.place);
            Ok(())
        }
    }
}

// The lines of a job, which stand behind its pattern. No `for`: where the next record stands is what this one says.
fn print_lines(lines: &[u8], pattern: &[u8], groups: usize, p: &mut Printer) -> Result<(), Broken>
    ensures { Gathered p.old p.new }
{
    let mut next = 0;
    let mut number = 0u64;
    while let Some(Body { start, end }) = job::next_record(lines, next, lines.len(), Job::LINE)? {
        number += 1;
        let mut rows = Spans::absent_table();
        match matcher::whole_match(pattern, &lines[start..end], &mut rows) {
            Ok(Found { matched, steps }) => {
                job::print_line(p, number, matched.then_some(rows), u64::from(steps), groups);
            }
            Err(refused) => job::print_refused(p, refused.refusal.number(), refused.place),
        }
        next = end;
    }
    Ok(())
}
