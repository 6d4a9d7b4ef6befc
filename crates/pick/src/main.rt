// Reads a job on standard input, a pattern and then lines, and prints the pattern's numbers and for each line whether it matches, the steps and the rows.
// The pattern is checked and built once; lines are read and answers written in blocks.
#![tactic(auto)]

mod input;

ghost use Rattle.std.specs.Prelude.{◌≡◌, false};
ghost use Rattle.machine.specs.Scratch.{Roomy};
ghost use Rattle.printer.specs.Gathered.{Gathered};

use input::Input;
use job::{Broken, Job};
use machine::{LargeScratch, Machine, Scratch};
use printer::Printer;
use std::io::Stderr;

// All lines of the job, each matched and printed, until the job ends or no more can be printed. A proved loop ends, so it counts them up to a
// number that no job reaches.
fn all_lines(
    input: &mut Input,
    machine: Machine,
    groups: usize,
    scratch: &mut Scratch,
    p: &mut Printer,
) -> Result<(), Broken>
    requires built { machine.searches ≡ false }
    requires roomy { Roomy machine.places machine.depth scratch.old }
{
    for number in 1..=u64::MAX {
        input.fill();
        let bytes = input.bytes();
        let Some(body) = job::next_record(bytes, 0, bytes.len(), Job::LINE)? else {
            return Ok(());
        };
        let line = &bytes[body.start..body.end];
        let ran = machine.match_rows(line, scratch);
        job::print_line(p, number, ran.rows, u64::from(ran.steps), groups);
        if p.failed() {
            return Ok(());
        }
        input.consume(body.end);
    }
    Ok(())
}

// What is printed where no record comes any more: that the input could not be read, that the job is broken, or nothing.
fn print_end(input: &Input, ended: Result<(), Broken>, p: &mut Printer, errors: Stderr)
    ensures { Gathered p.old p.new }
{
    if input.failed() {
        p.unreadable(errors, b"pick", b"job unreadable\n");
    } else if ended.is_err() {
        job::print_broken(p);
    }
}

// The job behind its pattern: the pattern's numbers and its lines, or its refusal.
fn with_pattern(input: &mut Input, pattern: &[u8], p: &mut Printer, errors: Stderr) {
    let mut code = [0u16; Machine::CODE];
    match machine::build(pattern, false, &mut code) {
        Err(refused) => job::print_refused(p, refused.refusal.number(), refused.place),
        Ok(numbers) => {
            job::print_numbers(p, numbers);
            let machine = Machine {
                pattern,
                code: &code,
                searches: false,
                places: numbers.places,
                depth: numbers.depth,
            };
            let mut own = LargeScratch::new();
            let ended = all_lines(input, machine, numbers.groups, &mut own.lend(), p);
            print_end(input, ended, p, errors);
        }
    }
}

// The whole job: its pattern first, whose bytes are kept in a place of their own, as the window of the input moves on.
fn whole_job(input: &mut Input, p: &mut Printer, errors: Stderr) {
    input.fill();
    let bytes = input.bytes();
    if let Ok(Some(body)) = job::next_record(bytes, 0, bytes.len(), Job::PATTERN) {
        let mut kept = [0; Job::BODY];
        let pattern = &mut kept[..body.end - body.start];
        pattern.copy_from_slice(&bytes[body.start..body.end]);
        input.consume(body.end);
        with_pattern(input, pattern, p, errors);
    } else {
        print_end(input, Err(Broken {}), p, errors);
    }
}

fn main(rt: HostRuntime) {
    let errors = rt.stderr();
    let mut input = Input::new(rt.stdin());
    let mut p = Printer::new(rt.stdout());
    whole_job(&mut input, &mut p, errors);
    p.finish(errors, b"pick");
}
