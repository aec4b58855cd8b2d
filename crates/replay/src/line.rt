// A line of text that names a call: a word and decimal numbers, parted by one space. A number with a
// point and one digit behind it, as 3.5, is an f64 and stands for its pattern.
ghost use Rattle.std.specs.Prelude.{◌≤◌, vec_len, IfOk};
ghost use Rattle.replay.specs.declared.line.TheConstants.{MOST};

use crate::error::Error;
use crate::kind::Kind;
use crate::number::pattern_of_tenths;
use std::alloc::Global;

// The most numbers that a line holds: maps of a dozen entries pooled take some 120.
const MOST: usize = 128;

// The largest whole number that may have tenths behind it.
const MOST_WITH_TENTHS: u64 = 1_000_000;

#[derive(Drop)]
pub struct Line {
    pub kind: Kind,
    pub numbers: Vec<u64>,
}

impl Line {
    // Reads a line, given without its LF.
    pub fn read(alloc: Global, text: &[u8]) -> Result<Self, Error>
        ensures { IfOk result (λ line. vec_len line.numbers ≤ MOST) }
    {
        let text = str::from_utf8(text).map_err(|_| Error::Unreadable)?;
        let mut words = text.split(' ');
        let kind = words.next().ok_or(Error::Unreadable)?.parse::<Kind>()?;
        // One more than there may be tells that there are too many, however long the line is.
        let numbers = words
            .take(MOST + 1)
            .map(|word| number_of(word).ok_or(Error::Unreadable))
            .try_collect::<Vec<u64>>(alloc)?;
        if numbers.len() > MOST {
            return Err(Error::Unreadable);
        }
        Ok(Self { kind, numbers })
    }
}

fn number_of(word: &str) -> Option<u64> {
    match word.split_once('.') {
        None => whole_of(word),
        Some((whole, tenth)) => with_tenth(whole_of(whole)?, tenth),
    }
}

// The number of a word that is digits alone.
fn whole_of(word: &str) -> Option<u64> {
    if !word.bytes().all(|byte| byte.is_ascii_digit()) {
        return None;
    }
    word.parse::<u64>().ok()
}

// The pattern of a whole number with a digit of tenths behind it.
fn with_tenth(whole: u64, tenth: &str) -> Option<u64> {
    if whole > MOST_WITH_TENTHS {
        return None;
    }
    match tenth.as_bytes() {
        [digit @ b'0'..=b'9'] => {
            let tenths = whole as u32 * 10 + (*digit - b'0') as u32;
            Some(pattern_of_tenths(tenths))
        }
        _ => None,
    }
}
