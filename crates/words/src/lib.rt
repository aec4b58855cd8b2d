// The words that the C functions answer: one for each answer of the library.
//
// The high byte of a word says what it is: 0 accepted, 1 to 64 the number of a refusal, above 64 one
// of the named answers below. Its low 56 bits hold the answer, or the place of the refusal. What does
// not fit goes through a `&mut` number, which is written on acceptance alone: a refusal, or that there
// is nothing, leaves it as it was.
#![tactic(auto)]

ghost use Rattle.std.specs.Prelude.{◌≡◌};
ghost use Rattle.words.specs.Words.{word_of, refusal_word, number_word};

use refusal::Refusal;

mod beside;
mod cells;
mod maps;

pub use beside::{found_word, value_word};
pub use cells::{cell_word, count_merger_word, density_merger_word, overlap_word};
pub use maps::{asked_word, containing_word, counts_word, map_check_word, moved_word, run_word};

pub const ACCEPTED: u8 = 0;

// There is no such cell, entry or density.
pub const NOTHING: u8 = 65;

// The four children are kept.
const KEPT: u8 = 66;

fn word(kind: u8, low: u64) -> u64
    ensures { result ≡ word_of kind low }
{
    kind as u64 * 0x100_0000_0000_0000 + low % 0x100_0000_0000_0000
}

fn refused(refusal: Refusal) -> u64
    ensures { result ≡ refusal_word refusal }
{
    word(refusal.number(), refusal.place() as u64)
}

// A number of rows, of ranges, or of the entries of a density map.
#[tactic(auto, unfolding(crate::specs::Words::number_word))]
pub fn number_word(answer: Result<usize, Refusal>) -> u64
    ensures { result ≡ number_word answer }
{
    match answer {
        Ok(number) => word(ACCEPTED, number as u64),
        Err(refusal) => refused(refusal),
    }
}
