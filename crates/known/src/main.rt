// Prints the known answers of 01, each with the pattern's records and places: every answer is what a proved call gives now.
// Where a pattern's records stand on standard input, its numbers and its places are printed in their stead.
#![tactic(auto)]

mod answers;
mod cases;
mod listing;
mod show;
mod words;

use pattern::Pattern;
use printer::Printer;

// The known answers, or the pattern that was given on the input.
fn main(rt: HostRuntime) {
    let errors = rt.stderr();
    let mut p = Printer::new(rt.stdout());
    let mut given = [0u8; Pattern::BYTES + 1];
    match printer::read_full(rt.stdin(), &mut given) {
        Ok(0) => cases::all(&mut p),
        Ok(count) => {
            show::built(&mut p, &given[..count], false);
        }
        Err(_) => p.unreadable(errors, b"known", b"input unreadable\n"),
    }
    p.finish(errors, b"known");
}
