// Adding cells to a map that stands in two lent buffers: section 4 of the scope.
//
// A map is a number of entries at the front of two buffers, one of zuniqs and one of values. An add
// call takes a batch of cells of one depth, which rise and start where the held map ends or later.
// Each cell is appended; while the last four entries are children 0 to 3 of one parent and the
// merger accepts, they are replaced by the parent. Every place after the entries is then 0.
//
// A call looks at everything before it writes anything, so that a refusal leaves both buffers as
// they were: one pass over the protected parents, one over the held map, one over the batch, and one to
// write.
//
// The calls are in `build_counts` and `build_densities`. Here are the definitions and laws of both, and
// what they share: their checks, and in `stack` the map to which cells are added.
#![tactic(auto)]

ghost use Rattle.std.specs.Prelude.{◌≡◌, ◌≤◌, length, take, MatchResult};
ghost use Rattle.std.proofs.Math.Option.{none, some};
ghost use Rattle.mom.specs.Map.{first_fault, ValidMap};
ghost use Rattle.refusal.specs.Checks.{check_of};
ghost use Rattle.build.specs.Add.{settings_refusal, lengths_refusal, cell_refusal, map_refusal, held_refusal, map_end, space_refusal};

use mom::first_fault;
use protection::Protected;
use refusal::Refusal;
use zuniq::{DIM, Decoded, ZUniqHashT};

pub mod counts;
pub mod free;
pub mod stack;

// What an add call knows of its held map once that has been checked.
#[derive(Clone, Copy)]
pub struct HeldMap<'a, Z: ZUniqHashT> {
    // The parents into which nothing is merged.
    pub protected: Protected<'a, Z>,
    // Where it ends, as a hash of its depth.
    pub end: u64,
}

// Rows 1 to 3, 15, 4 and 5 of the table of refusals, which both add calls have: `values` and `batch` are
// the lengths of the buffer and of the list that hold their values.
pub fn check_held<'a, Z: ZUniqHashT>(
    depth: u8,
    depth_threshold: u8,
    chi2_threshold: f64,
    protected: &'a [Z],
    held: usize,
    zuniqs: &[Z],
    values: usize,
    hashes: usize,
    batch: usize,
) -> Result<HeldMap<'a, Z>, Refusal>
    ensures { MatchResult result (λ map. (map.protected.zuniqs.now ≡ protected.now) × (held_refusal Z.MAX_DEPTH (Z.numbers protected.now) depth depth_threshold chi2_threshold held (length zuniqs.now) values (Z.numbers (take held zuniqs.now)) hashes batch ≡ none) × (map.end ≡ map_end Z.MAX_DEPTH depth (Z.numbers (take held zuniqs.now)))) (λ r. held_refusal Z.MAX_DEPTH (Z.numbers protected.now) depth depth_threshold chi2_threshold held (length zuniqs.now) values (Z.numbers (take held zuniqs.now)) hashes batch ≡ some r) }
{
    check_settings(Z::MAX_DEPTH, depth, depth_threshold, chi2_threshold)?;
    let protected = Protected::check(protected)?;
    check_lengths(held, zuniqs.len(), values, hashes, batch)?;
    let map = &zuniqs[..held];
    check_map(depth, map)?;
    Ok(HeldMap {
        protected,
        end: end_of_map(depth, map),
    })
}

// Rows 1 to 3. A shallowest parent depth up to 29 is one for both widths of zuniqs.
#[tactic(auto, unfolding(crate::specs::Add::settings_refusal))]
pub fn check_settings(
    max_depth: u8,
    depth: u8,
    depth_threshold: u8,
    chi2_threshold: f64,
) -> Result<(), Refusal>
    ensures { result ≡ check_of (settings_refusal max_depth depth depth_threshold chi2_threshold) }
{
    if depth > max_depth {
        return Err(Refusal::DepthOutOfRange);
    }
    if depth_threshold > u64::MAX_DEPTH {
        return Err(Refusal::DepthThresholdOutOfRange);
    }
    if chi2_threshold.is_nan() {
        return Err(Refusal::Chi2ThresholdIsNan);
    }
    Ok(())
}

// Row 4.
#[tactic(auto, unfolding(crate::specs::Add::lengths_refusal))]
pub fn check_lengths(
    held: usize,
    zuniqs: usize,
    values: usize,
    hashes: usize,
    batch: usize,
) -> Result<(), Refusal>
    ensures { result ≡ check_of (lengths_refusal held zuniqs values hashes batch) }
{
    if zuniqs != values || held > zuniqs || hashes != batch {
        return Err(Refusal::LengthMismatch);
    }
    Ok(())
}

// Row 5.
#[tactic(auto, unfolding(crate::specs::Add::map_refusal))]
pub fn check_map<Z: ZUniqHashT>(depth: u8, zuniqs: &[Z]) -> Result<(), Refusal>
    ensures { result ≡ check_of (map_refusal (first_fault Z.MAX_DEPTH depth (Z.numbers zuniqs.now))) }
{
    match first_fault(depth, zuniqs) {
        None => Ok(()),
        Some(first) => Err(Refusal::InvalidMap(first.place)),
    }
}

// Row 11. The sum of the places that are needed could wrap; the difference can't.
#[tactic(auto, unfolding(crate::specs::Add::space_refusal))]
pub fn check_space(places: usize, held: usize, batch: usize) -> Result<(), Refusal>
    ensures { result ≡ check_of (space_refusal places held batch) }
{
    if places < held || places - held < batch {
        return Err(Refusal::NoSpace);
    }
    Ok(())
}

// Where the last entry of a valid map ends, as a hash of the map's depth.
fn end_of_map<Z: ZUniqHashT>(depth: u8, zuniqs: &[Z]) -> u64
    requires { (depth ≤ Z.MAX_DEPTH) × ValidMap Z.MAX_DEPTH depth (Z.numbers zuniqs.now) }
    ensures { result ≡ map_end Z.MAX_DEPTH depth (Z.numbers zuniqs.now) }
{
    let len = zuniqs.len();
    if len == 0 {
        return 0;
    }
    let Decoded::Cell(last) = Z::from_zuniq(zuniqs[len - 1]) else {
        return 0;
    };
    (last.hash + 1) << (DIM * (depth - last.depth))
}

// Rows 7 and 8 for one cell: `least` is the smallest hash that is above what stands before it.
#[tactic(auto, unfolding(crate::specs::Add::cell_refusal))]
pub fn check_cell(n_hash: u64, least: u64, hash: u64, place: usize) -> Result<(), Refusal>
    ensures { result ≡ check_of (cell_refusal n_hash least hash place) }
{
    if hash >= n_hash {
        return Err(Refusal::HashOutOfRange(place));
    }
    if hash < least {
        return Err(Refusal::CellNotAbove(place));
    }
    Ok(())
}
