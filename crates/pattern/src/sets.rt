// The body of a byte set: 1 to 32 pairs of low and high, each low at most its high and at least 2 above the high before it.
ghost use Rattle.std.specs.Prelude.{◌≡◌, map};
ghost use Rattle.paper.specs.Check.{apart, set_right};
ghost use Rattle.pattern.specs.Walk.{range_of};

use crate::Pattern;

// Whether pairs stand in order and apart.
#[inline(always)]
fn apart(pairs: &[[u8; 2]]) -> bool
    ensures { result ≡ apart (map range_of pairs.now) }
{
    // the least that the next low may be
    let mut floor = 0;
    for &[low, high] in pairs {
        if usize::from(low) < floor || high < low {
            return false;
        }
        floor = usize::from(high) + 2;
    }
    true
}

// Whether bytes are right as a byte set's body.
#[inline(always)]
pub fn right(body: &[u8]) -> bool
    ensures { result ≡ set_right body.now }
{
    let (pairs, rest) = body.as_chunks::<2>();
    match pairs.len() {
        1..=Pattern::SET_PAIRS if rest.is_empty() => apart(pairs),
        _ => false,
    }
}
