// Counting places. A record's places are counted up to the pattern's limit, and that number stands for all beyond: with the accepting place they are too many.
ghost use Rattle.std.specs.Prelude.{◌≡◌, ℕ, ◌+◌, ◌*◌, ◌^◌, ◌≤◌, ◌<◌};
ghost use Rattle.paper.specs.Limits.{pattern_places, repeat_count};
ghost use Rattle.paper.specs.Check.{upper_of, repeat_numbers_right};
ghost use Rattle.pattern.specs.Walk.{capped, pass_places, optional_passes};

use crate::Pattern;

// The sum of two counts.
pub fn sum(a: usize, b: usize) -> usize
    requires { a + b < 2 ^ 64 }
    ensures { result ≡ capped (a + b) }
{
    (a + b).min(Pattern::PLACES)
}

// The places of a repeat's passes. A count at the limit stays there unless there is no pass at all, as in a repeat of 0 to 0.
pub fn passes(least: usize, optional: usize, inner: usize) -> usize
    requires { (least ≤ repeat_count) × (optional ≤ repeat_count) × (inner ≤ pattern_places) }
    ensures { result ≡ capped (pass_places least optional inner) }
{
    if inner < Pattern::PLACES {
        sum(least * (1 + inner), optional * (3 + inner))
    } else if 0 < least + optional {
        Pattern::PLACES
    } else {
        0
    }
}

// Whether a repeat may have these three numbers.
pub fn right(least: usize, most: usize, mode: usize) -> bool
    ensures { result ≡ repeat_numbers_right least most mode }
{
    least <= Pattern::REPEAT_COUNT
        && (most <= Pattern::REPEAT_COUNT || most == Pattern::NO_UPPER_END)
        && least <= most
        && mode <= Pattern::LAZY
}

// The optional passes of a repeat that have places: one where there is no upper end.
pub fn optional(least: usize, most: usize) -> usize
    requires { least ≤ most }
    ensures { result ≡ optional_passes least (upper_of most) }
{
    if most == Pattern::NO_UPPER_END {
        1
    } else {
        most - least
    }
}
