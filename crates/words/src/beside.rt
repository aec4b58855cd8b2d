// The words of a value that goes through a `&mut` of its type.
ghost use Rattle.std.specs.Prelude.{◌≡◌};
ghost use Rattle.words.specs.Words.{value_word, found_word};

use crate::{ACCEPTED, NOTHING, refused, word};
use refusal::Refusal;

// A value: the number of cells at a depth, a zuniq, the density of a count.
#[tactic(auto, unfolding(crate::specs::Words::value_word))]
pub fn value_word<T: Copy>(answer: Result<T, Refusal>, value: &mut T) -> u64
    ensures { (result, «value».new) ≡ value_word answer «value».old }
{
    match answer {
        Ok(found) => {
            *value = found;
            word(ACCEPTED, 0)
        }
        Err(refusal) => refused(refusal),
    }
}

// A value, or that there is none: a density and its pattern.
#[tactic(auto, unfolding(crate::specs::Words::found_word))]
pub fn found_word<T: Copy>(answer: Option<T>, value: &mut T) -> u64
    ensures { (result, «value».new) ≡ found_word answer «value».old }
{
    match answer {
        Some(there) => {
            *value = there;
            word(ACCEPTED, 0)
        }
        None => word(NOTHING, 0),
    }
}
