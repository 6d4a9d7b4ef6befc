// Answers as a status and numbers at the front of a lent `out`: a refusal as its number and its place (01, "Numbered refusals and their order"), any other as 0
// and its numbers in 01's order.
#![tactic(auto)]

ghost use Rattle.std.specs.Prelude.{ℕ, ◌≡◌, ◌≤◌, List, Result, Ok, Err, length, refl};
ghost use Rattle.paper.specs.Refusal.{Checked, refused, accepted};
ghost use Rattle.pattern.specs.declared.Refused.{Refused};
ghost use Rattle.pattern.specs.Refusals.{number_of};
ghost use Rattle.pattern.specs.Answer as checked;
ghost use Rattle.matcher.specs.Answer as found;
ghost use Rattle.template.specs.Answer as piece;
ghost use Rattle.replacer.specs.Answer as replaced;
ghost use Rattle.telling.specs.Told.{Tells, check_numbers, found_numbers, span_numbers, replaced_numbers};

use matcher::Found;
use pattern::{Numbers, Refused};
use replacer::Replaced;
use template::Span;

// The status of an answer for C, which is no refusal's number.
const ANSWERED: u32 = 0;

// What a call answers where it is not refused: so many numbers.
pub trait Answer<const N: usize> {
    // what an answer is told as
    ghost told: { Result Self Refused → Checked (List ℕ) };

    fn numbers(self) -> [u64; N]
        ensures { told (Ok self) ≡ accepted result };

    // a refusal is told as one
    ghost refuses: { (r : Refused) → told (Err r) ≡ refused (number_of r.refusal) r.place };
}

// What checking and building answer.
impl Answer<3> for Numbers {
    ghost told = { λ r. check_numbers (checked.answer_of r) };

    ghost refuses = { λ r. refl };

    fn numbers(self) -> [u64; 3] {
        [self.places as u64, self.depth as u64, self.groups as u64]
    }
}

// What a whole match and a search answer.
impl Answer<2> for Found {
    ghost told = { λ r. found_numbers (found.answer_of r) };

    ghost refuses = { λ r. refl };

    fn numbers(self) -> [u64; 2] {
        [u64::from(self.matched), u64::from(self.steps)]
    }
}

// What a piece is.
impl Answer<3> for Span {
    ghost told = { λ r. span_numbers (piece.answer_of r) };

    ghost refuses = { λ r. refl };

    fn numbers(self) -> [u64; 3] {
        [self.source as u64, self.start as u64, self.end as u64]
    }
}

// What replace-all answers.
impl Answer<3> for Replaced {
    ghost told = { λ r. replaced_numbers (replaced.answer_of r) };

    ghost refuses = { λ r. refl };

    fn numbers(self) -> [u64; 3] {
        [self.length as u64, self.replacements as u64, self.steps]
    }
}

// Tells an answer, and gives its status.
pub fn tell<const N: usize, T: Answer<N>>(answer: Result<T, Refused>, out: &mut [u64]) -> u32
    requires { (1 ≤ length out.old) × (N ≤ length out.old) }
    ensures { Tells (T.told answer) out.old result out.new }
{
    match answer {
        Err(refused) => {
            out[0] = refused.place as u64;
            refused.refusal.number() as u32
        }
        Ok(answered) => {
            out[..N].copy_from_slice(&answered.numbers());
            ANSWERED
        }
    }
}
