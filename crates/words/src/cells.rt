// The words of cells and mergers.
ghost use Rattle.std.specs.Prelude.{◌≡◌};
ghost use Rattle.zuniq.specs.Codec.{decode};
ghost use Rattle.words.specs.Words.{decoded_word, overlap_word, count_merger_word, density_merger_word};

use crate::{ACCEPTED, KEPT, NOTHING, refused, word};
use merger::Merge;
use refusal::Refusal;
use zuniq::{Decoded, ZUniqHashT};

// The cell of a zuniq, or that there is none. Its hash fits the zuniq's type.
#[tactic(auto, unfolding(crate::specs::Words::decoded_word))]
pub fn cell_word<Z: ZUniqHashT>(zuniq: Z, depth: &mut u8, hash: &mut Z) -> u64
    ensures { (result, depth.new, Z.number hash.new) ≡ decoded_word (decode Z.MAX_DEPTH (Z.number «zuniq»)) depth.old (Z.number hash.old) }
{
    let Decoded::Cell(cell) = Z::from_zuniq(zuniq) else {
        return word(NOTHING, 0);
    };
    *depth = cell.depth;
    *hash = Z::of_u64(cell.hash);
    word(ACCEPTED, 0)
}

// Whether two zuniqs overlap, 1 or 0.
#[tactic(auto, unfolding(crate::specs::Words::overlap_word))]
pub fn overlap_word(answer: Result<bool, Refusal>) -> u64
    ensures { result ≡ overlap_word answer }
{
    match answer {
        Ok(overlapping) => word(ACCEPTED, overlapping as u64),
        Err(refusal) => refused(refusal),
    }
}

// The count of four merged children, or that they are kept, with their chi-square.
#[tactic(auto, unfolding(crate::specs::Words::count_merger_word))]
pub fn count_merger_word(answer: Result<Merge<u32>, Refusal>, chi2: &mut f64) -> u64
    ensures { (result, chi2.new) ≡ count_merger_word answer chi2.old }
{
    match answer {
        Ok(Merge::Merged(count)) => word(ACCEPTED, count as u64),
        Ok(Merge::Kept(found)) => {
            *chi2 = found;
            word(KEPT, 0)
        }
        Err(refusal) => refused(refusal),
    }
}

// The density of four merged children, or that they are kept, with their chi-square.
#[tactic(auto, unfolding(crate::specs::Words::density_merger_word))]
pub fn density_merger_word(answer: Result<Merge<f64>, Refusal>, number: &mut f64) -> u64
    ensures { (result, number.new) ≡ density_merger_word answer number.old }
{
    match answer {
        Ok(Merge::Merged(density)) => {
            *number = density;
            word(ACCEPTED, 0)
        }
        Ok(Merge::Kept(chi2)) => {
            *number = chi2;
            word(KEPT, 0)
        }
        Err(refusal) => refused(refusal),
    }
}
