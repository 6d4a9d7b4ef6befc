// The fields of a case: byte strings in hexadecimal digits, and decimal numbers, separated by single spaces.
ghost use Rattle.std.specs.Prelude.{◌<◌, IfSome};

// The fields that are still to be read, and the room that is left for the bytes that they stand for.
#[derive(Drop)]
pub struct Fields<'a, 'b> {
    // none behind the last field
    rest: Option<&'a [u8]>,
    store: &'b mut [u8],
}

impl<'a, 'b> Fields<'a, 'b> {
    pub fn new(query: &'a [u8], store: &'b mut [u8]) -> Self {
        Fields {
            rest: Some(query),
            store,
        }
    }

    // The next field as it stands.
    pub fn word(&mut self) -> Option<&'a [u8]> {
        let rest = self.rest?;
        match rest.iter().position(|b| *b == b' ') {
            Some(at) => {
                self.rest = Some(&rest[at + 1..]);
                Some(&rest[..at])
            }
            None => {
                self.rest = None;
                Some(rest)
            }
        }
    }

    // The byte string of the next field; a dot stands for the empty one.
    pub fn bytes(&mut self) -> Option<&'b [u8]> {
        let word = self.word()?;
        // one test, before the digits
        if word == b".".as_slice() {
            return Some(&[]);
        }
        let (pairs, odd) = word.as_chunks::<2>();
        if pairs.is_empty() || !odd.is_empty() {
            return None;
        }
        let bytes = self.store.split_off_mut(..pairs.len())?;
        for (b, [high, low]) in bytes.iter_mut().zip(pairs) {
            *b = 16 * digit(*high)? + digit(*low)?;
        }
        Some(bytes)
    }

    // The number of the next field, by hand: the library's method takes a sign, and more than nine digits.
    pub fn number(&mut self) -> Option<usize>
        ensures { IfSome result (λ n. n < 1000000000) }
    {
        let word = self.word()?;
        let mut value = 0;
        for b in word {
            if !b.is_ascii_digit() || 100_000_000 <= value {
                return None;
            }
            value = 10 * value + usize::from(*b - b'0');
        }
        if word.is_empty() { None } else { Some(value) }
    }

    // Whether no field is left.
    pub fn ended(&self) -> bool {
        self.rest.is_none()
    }
}

// The value of a hexadecimal digit in lower case; the library's methods take capitals too.
fn digit(b: u8) -> Option<u8>
    ensures { IfSome result (λ d. d < 16) }
{
    match b {
        b'0'..=b'9' => Some(b - b'0'),
        b'a'..=b'f' => Some(b - b'a' + 10),
        _ => None,
    }
}
