// The text rules: fields and lines of bytes, and decimal numbers, read from a slice and written
// into one.
//
// A number is read from a field of 1 to 20 digits, and is unreadable where it is larger than its
// field allows. It is written with its digits alone. What is written goes behind what an output
// holds. What does not fit there is not written, not even its first bytes.
#![tactic(auto)]

ghost use Rattle.std.specs.Prelude.{◌≡◌, length, MatchOption};
ghost use Rattle.text.specs.Text.{position, SplitAtFirst, number, longer as longer_of, decimal, put_at};

// The byte that ends a line, and the one that parts its fields.
pub const LF: u8 = b'\n';

pub const COMMA: u8 = b',';

const MAX_DIGITS: usize = 20;

// What stands before the first `byte`, and what stands behind it, if there is one.
pub fn split_once(text: &[u8], byte: u8) -> Option<(&[u8], &[u8])>
    ensures { MatchOption result (position byte text.now ≡ length text.now)
        (λ parts. SplitAtFirst byte text.now parts.0.now parts.1.now) }
{
    let at = text.iter().position(|b| *b == byte)?;
    Some((&text[..at], &text[at + 1..]))
}

// The number of a field, at most `most`.
pub fn read_number(field: &[u8], most: u64) -> Option<u64>
    ensures { result ≡ number most field.now }
{
    if field.is_empty() || field.len() > MAX_DIGITS {
        return None;
    }
    let mut value = 0;
    for digit in field {
        value = with_digit(value, *digit, most)?;
    }
    Some(value)
}

// A number with one more digit behind it, if that is one and the number is not too large.
#[tactic(auto, using(std::proofs::lemmas::Bool::Decides::nat_tests), unfolding(crate::specs::Text::longer))]
fn with_digit(value: u64, digit: u8, most: u64) -> Option<u64>
    ensures { result ≡ longer_of most «value» «digit» }
{
    if !digit.is_ascii_digit() {
        return None;
    }
    let longer = value.checked_mul(10)?.checked_add(u64::from(digit - b'0'))?;
    if longer > most {
        return None;
    }
    Some(longer)
}

// A lent buffer, and the place up to which it is written. What fits is always written: a `Vec` or a
// `String` may get no memory, and `write!` doesn't say when it fails.
#[derive(Drop)]
pub struct Output<'a> {
    pub buffer: &'a mut [u8],
    pub end: usize,
}

impl Output<'_> {
    // Writes a text behind what is written, if it fits there.
    pub fn put(&mut self, text: &[u8])
        ensures same_buffer { self.new.buffer.ghost_name ≡ self.old.buffer.ghost_name }
        ensures put { (self.new.buffer.now, self.new.end) ≡ put_at self.old.buffer.now self.old.end text.now }
    {
        let Some(end) = self.end.checked_add(text.len()) else {
            return;
        };
        if end > self.buffer.len() {
            return;
        }
        self.buffer[self.end..end].copy_from_slice(text);
        self.end = end;
    }

    // Writes a number behind what is written, if it fits there.
    pub fn put_number(&mut self, n: u64)
        ensures same_buffer { self.new.buffer.ghost_name ≡ self.old.buffer.ghost_name }
        ensures put { (self.new.buffer.now, self.new.end) ≡ put_at self.old.buffer.now self.old.end (decimal n) }
    {
        let mut digits = [0u8; MAX_DIGITS];
        let len = io::decimal(n, &mut digits);
        self.put(&digits[..len]);
    }
}
