// Densities: of a count at a depth, and of the 64-bit patterns that density rows hold.
//
// A density is what refusal 6 of the scope's table accepts in a map: a number that is not NaN, not
// infinite and not below 0. -0 is one. Refused: a depth over 29 (number 1).
#![tactic(auto)]

ghost use Rattle.std.specs.Prelude.{◌≡◌};
ghost use Rattle.density.specs.Densities.{density_of_count, density_of_pattern, pattern_of_density};

use merger::invalid_density;
use refusal::Refusal;
use zuniq::ZUniqHashT;

const PI: f64 = 3.141592653589793;

const SIGN: u64 = 0x8000_0000_0000_0000;

const INFINITE: u64 = 0x7ff0_0000_0000_0000;

// A count by the area of a cell: the sky, 4 pi, in N(depth) parts. Each step is rounded once, in the
// order of the source's `from_counts_to_densities`.
#[tactic(auto, unfolding(crate::specs::Densities::density_of_count))]
pub fn density_of_count(depth: u8, count: u32) -> Result<f64, Refusal>
    ensures { result ≡ density_of_count 29 count depth }
{
    if depth > u64::MAX_DEPTH {
        return Err(Refusal::DepthOutOfRange);
    }
    let cells = std::num::nearest_u64_to_f64(zuniq::n_hash_unchecked(depth));
    Ok(count as f64 / (4.0 * PI / cells))
}

// The density of a pattern, if it is one. NaNs are told by their pattern, before there is an f64: `from_bits` is not defined at them.
#[tactic(auto, using(crate::proofs::Densities::nan_pattern_none, crate::proofs::Densities::no_nan_pattern), unfolding(crate::specs::Densities::density_of_pattern))]
pub fn density_of_pattern(pattern: u64) -> Option<f64>
    ensures { result ≡ density_of_pattern pattern }
{
    if pattern % SIGN > INFINITE {
        return None;
    }
    let density = f64::from_bits(pattern);
    if invalid_density(density) {
        return None;
    }
    Some(density)
}

// The pattern of a density, if it is one.
#[tactic(auto, using(crate::proofs::Densities::is_pattern), unfolding(crate::specs::Densities::pattern_of_density))]
pub fn pattern_of_density(x: f64) -> Option<u64>
    ensures { result ≡ pattern_of_density x }
{
    if invalid_density(x) {
        return None;
    }
    Some(f64::to_bits(x))
}
