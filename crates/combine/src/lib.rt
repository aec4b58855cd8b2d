// Combining multi-order maps: section 5 of the scope. The overlay of two maps is walked by their
// heads; what a rule keeps of it is merged as cells are added to a map. The pool of two count maps
// and the product of two density maps are two such rules.
//
// The calls, with what they do with the cells, are in `pool` and `product`. Here are the definitions and
// laws of both, the walk with the rule and the sink handed in, the rule of the pool, and the checks that
// they share.
#![tactic(auto)]

ghost use Rattle.std.specs.Prelude.{◌≡◌};
ghost use Rattle.mom.specs.Map.{first_fault};
ghost use Rattle.refusal.specs.Checks.{or_else, check_of};
ghost use Rattle.build.specs.Add.{map_refusal};
ghost use Rattle.combine.specs.Pool.{settings_refusal, pairs_refusal};

use build::check_map;
use refusal::Refusal;
use zuniq::ZUniqHashT;

pub mod by_heads;
pub mod cells;
pub mod counting;
pub mod counts;
pub mod map;

// Rows 1 to 3 of the table of refusals.
#[tactic(auto, unfolding(crate::specs::Pool::settings_refusal))]
pub fn check_settings(
    left_depth: u8,
    right_depth: u8,
    depth_threshold: u8,
    chi2_threshold: f64,
) -> Result<(), Refusal>
    ensures { result ≡ check_of (settings_refusal left_depth right_depth depth_threshold chi2_threshold) }
{
    if left_depth > u64::MAX_DEPTH {
        return Err(Refusal::DepthOutOfRange);
    }
    if right_depth > u64::MAX_DEPTH {
        return Err(Refusal::DepthOutOfRange);
    }
    if depth_threshold > u64::MAX_DEPTH {
        return Err(Refusal::DepthThresholdOutOfRange);
    }
    if chi2_threshold.is_nan() {
        return Err(Refusal::Chi2ThresholdIsNan);
    }
    Ok(())
}

// Row 4: the lengths of both maps' buffers and of the output's.
#[tactic(auto, unfolding(crate::specs::Pool::pairs_refusal))]
pub fn check_pairs(
    left_zuniqs: usize,
    left_values: usize,
    right_zuniqs: usize,
    right_values: usize,
    places: usize,
    values: usize,
) -> Result<(), Refusal>
    ensures { result ≡ check_of (pairs_refusal left_zuniqs left_values right_zuniqs right_values places values) }
{
    if left_zuniqs != left_values {
        return Err(Refusal::LengthMismatch);
    }
    if right_zuniqs != right_values {
        return Err(Refusal::LengthMismatch);
    }
    if places != values {
        return Err(Refusal::LengthMismatch);
    }
    Ok(())
}

// Row 5: the left map before the right one.
pub fn check_maps(
    left_depth: u8,
    left_zuniqs: &[u64],
    right_depth: u8,
    right_zuniqs: &[u64],
) -> Result<(), Refusal>
    ensures { result ≡ check_of (or_else (map_refusal (first_fault 29 left_depth left_zuniqs.now)) (map_refusal (first_fault 29 right_depth right_zuniqs.now))) }
{
    check_map(left_depth, left_zuniqs)?;
    check_map(right_depth, right_zuniqs)
}
