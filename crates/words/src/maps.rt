// The words of maps: the check, lookup, and what adding, pooling and moving answer.
ghost use Rattle.std.specs.Prelude.{◌≡◌};
ghost use Rattle.words.specs.Words.{fault_kind, map_check_word, containing_word, run_word, counts_word, asked_word, moved_word};

use crate::{ACCEPTED, NOTHING, refused, word};
use build::counts::Added;
use combine::counts::Figures;
use mom::lookup::Run;
use mom::{Fault, FirstFault};
use moving::Moved;
use refusal::Refusal;

// The faults of a map's entry.
const NOT_ZUNIQ: u8 = 67;

const TOO_DEEP: u8 = 68;

const NOT_ABOVE: u8 = 69;

const OVERLAPPING: u8 = 70;

fn fault_kind(fault: Fault) -> u8
    ensures { result ≡ fault_kind fault }
{
    match fault {
        Fault::NotZuniq => NOT_ZUNIQ,
        Fault::TooDeep => TOO_DEEP,
        Fault::NotAbove => NOT_ABOVE,
        Fault::Overlapping => OVERLAPPING,
    }
}

// Whether a map is valid, or its first fault with the place.
#[tactic(auto, unfolding(crate::specs::Words::map_check_word))]
pub fn map_check_word(answer: Result<Option<FirstFault>, Refusal>) -> u64
    ensures { result ≡ map_check_word answer }
{
    match answer {
        Ok(None) => word(ACCEPTED, 0),
        Ok(Some(first)) => word(fault_kind(first.fault), first.place as u64),
        Err(refusal) => refused(refusal),
    }
}

// The place of an entry, or that there is none.
#[tactic(auto, unfolding(crate::specs::Words::containing_word))]
pub fn containing_word(answer: Result<Option<usize>, Refusal>) -> u64
    ensures { result ≡ containing_word answer }
{
    match answer {
        Ok(Some(place)) => word(ACCEPTED, place as u64),
        Ok(None) => word(NOTHING, 0),
        Err(refusal) => refused(refusal),
    }
}

// The place of the first entry of a run, and their number.
#[tactic(auto, unfolding(crate::specs::Words::run_word))]
pub fn run_word(answer: Result<Run, Refusal>, number: &mut usize) -> u64
    ensures { (result, number.new) ≡ run_word answer number.old }
{
    match answer {
        Ok(run) => {
            *number = run.len;
            word(ACCEPTED, run.first as u64)
        }
        Err(refusal) => refused(refusal),
    }
}

// The number of entries of a count map, and their total.
#[tactic(auto, unfolding(crate::specs::Words::counts_word))]
pub fn counts_word(answer: Result<Added, Refusal>, total: &mut u32) -> u64
    ensures { (result, total.new) ≡ counts_word answer total.old }
{
    match answer {
        Ok(added) => {
            *total = added.total;
            word(ACCEPTED, added.entries as u64)
        }
        Err(refusal) => refused(refusal),
    }
}

// The cells, the entries and the total of a pool that was asked for.
#[tactic(auto, unfolding(crate::specs::Words::asked_word))]
pub fn asked_word(
    answer: Result<Figures, Refusal>,
    cells: &mut usize,
    entries: &mut usize,
    total: &mut u32,
) -> u64
    ensures { (result, cells.new, entries.new, total.new) ≡ asked_word answer cells.old entries.old total.old }
{
    match answer {
        Ok(figures) => {
            *cells = figures.cells;
            *entries = figures.entries;
            *total = figures.total;
            word(ACCEPTED, 0)
        }
        Err(refusal) => refused(refusal),
    }
}

// The number of entries of a map that was moved, and its depth.
#[tactic(auto, unfolding(crate::specs::Words::moved_word))]
pub fn moved_word(answer: Result<Moved, Refusal>, depth: &mut u8) -> u64
    ensures { (result, depth.new) ≡ moved_word answer depth.old }
{
    match answer {
        Ok(moved) => {
            *depth = moved.depth;
            word(ACCEPTED, moved.entries as u64)
        }
        Err(refusal) => refused(refusal),
    }
}
