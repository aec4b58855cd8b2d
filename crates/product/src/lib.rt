// The product of two density maps: a cell of the overlay that both maps have gets k times the left
// density times the right one, and one that only one map has is dropped; then the cells are merged
// under M and T, though not into a protected parent.
//
// A call looks at everything before it writes anything: one pass over the protected parents and one over
// each map, then the overlay is walked once to count its cells and try their products, and once more to
// merge them.
#![tactic(auto)]

ghost use Rattle.std.specs.Prelude.{◌≡◌, length, MatchResult};
ghost use Rattle.std.proofs.Math.Option.{none, some};
ghost use Rattle.refusal.specs.Checks.{or_else, check_of};
ghost use Rattle.build.specs.Densities.{density_refusal};
ghost use Rattle.combine.specs.Slices.{entries_of};
ghost use Rattle.combine.specs.Densities.{product_cells};
ghost use Rattle.combine.specs.Pool.{Given, factor_refusal, product_input_refusal, finite_refusal, places_refusal, product_over, product_densities};

use build::free::clear;
use build_densities::check_densities;
use combine::map::Map;
use combine::{check_maps, check_pairs, check_settings};
use merger::{DensityMerger, invalid_density};
use protection::Protected;
use refusal::Refusal;
use walk::{Merging, Trying, product_cells};

mod walk;

// Multiplies two maps into two output buffers. Answers the number of entries. Maps and settings are
// parameters of their own, as C hands them.
pub fn product(
    left_depth: u8,
    left_zuniqs: &[u64],
    left_densities: &[f64],
    right_depth: u8,
    right_zuniqs: &[u64],
    right_densities: &[f64],
    depth_threshold: u8,
    chi2_threshold: f64,
    k: f64,
    protected: &[u64],
    zuniqs: &mut [u64],
    densities: &mut [f64],
) -> Result<usize, Refusal>
    ensures { (result, zuniqs.new, densities.new) ≡ product_densities protected.now (record { depth = left_depth; zuniqs = left_zuniqs.now; values = left_densities.now }) (record { depth = right_depth; zuniqs = right_zuniqs.now; values = right_densities.now }) depth_threshold chi2_threshold k zuniqs.old densities.old }
{
    let protected = check(
        left_depth,
        left_zuniqs,
        left_densities,
        right_depth,
        right_zuniqs,
        right_densities,
        depth_threshold,
        chi2_threshold,
        k,
        protected,
        zuniqs.len(),
        densities.len(),
    )?;
    let left = Map {
        depth: left_depth,
        zuniqs: left_zuniqs,
        values: left_densities,
    };
    let right = Map {
        depth: right_depth,
        zuniqs: right_zuniqs,
        values: right_densities,
    };
    // Most quads are of the deeper map's depth. Base cells have no parent, and none asks.
    let parent_depth = left_depth.max(right_depth).saturating_sub(1);
    let merger = DensityMerger::new(parent_depth, depth_threshold, chi2_threshold, protected);
    product_checked(&left, &right, &merger, k, zuniqs, densities)
}

// Multiplies two maps that have passed: what is left to be known is whether all products are finite,
// and whether there is space.
fn product_checked(
    left: &Map<f64>,
    right: &Map<f64>,
    merger: &DensityMerger,
    k: f64,
    zuniqs: &mut [u64],
    densities: &mut [f64],
) -> Result<usize, Refusal>
    requires { length zuniqs.old ≡ length densities.old }
    ensures { (result, zuniqs.new, densities.new) ≡ product_over merger.now.protected.zuniqs.now 29 (or_else (finite_refusal (product_cells k left.now.zuniqs.now left.now.values.now right.now.zuniqs.now right.now.values.now)) (places_refusal (length zuniqs.old) (length (product_cells k left.now.zuniqs.now left.now.values.now right.now.zuniqs.now right.now.values.now)))) (entries_of left.now.zuniqs.now left.now.values.now) (entries_of right.now.zuniqs.now right.now.values.now) merger.now.depth_threshold merger.now.chi2_threshold k zuniqs.old densities.old }
{
    let cells = product_cells(k, Trying, left, right, zuniqs, densities)?;
    if zuniqs.len() < cells {
        return Err(Refusal::NoSpace);
    }
    let Ok(entries) = product_cells(k, Merging { merger }, left, right, zuniqs, densities) else {
        unreachable!()
    };
    clear(&mut zuniqs[entries..], 0);
    clear(&mut densities[entries..], 0.0);
    Ok(entries)
}

// All that can be refused before the overlay is walked, in the order of the table; the protected parents
// where nothing is.
#[tactic(auto, unfolding(combine::specs::Pool::product_input_refusal, combine::specs::Pool::maps_refusal, combine::specs::Pool::map_densities_refusal))]
fn check<'a>(
    left_depth: u8,
    left_zuniqs: &[u64],
    left_densities: &[f64],
    right_depth: u8,
    right_zuniqs: &[u64],
    right_densities: &[f64],
    depth_threshold: u8,
    chi2_threshold: f64,
    k: f64,
    protected: &'a [u64],
    places: usize,
    values: usize,
) -> Result<Protected<'a, u64>, Refusal>
    ensures { MatchResult result (λ p. (p.zuniqs.now ≡ protected.now) × (product_input_refusal protected.now (record { depth = left_depth; zuniqs = left_zuniqs.now; values = left_densities.now }) (record { depth = right_depth; zuniqs = right_zuniqs.now; values = right_densities.now }) depth_threshold chi2_threshold k places values ≡ none)) (λ r. product_input_refusal protected.now (record { depth = left_depth; zuniqs = left_zuniqs.now; values = left_densities.now }) (record { depth = right_depth; zuniqs = right_zuniqs.now; values = right_densities.now }) depth_threshold chi2_threshold k places values ≡ some r) }
{
    check_settings(left_depth, right_depth, depth_threshold, chi2_threshold)?;
    check_factor(k)?;
    let protected = Protected::check(protected)?;
    check_pairs(
        left_zuniqs.len(),
        left_densities.len(),
        right_zuniqs.len(),
        right_densities.len(),
        places,
        values,
    )?;
    check_maps(left_depth, left_zuniqs, right_depth, right_zuniqs)?;
    check_both(left_densities, right_densities)?;
    Ok(protected)
}

// Row 3, of the factor.
#[tactic(auto, unfolding(combine::specs::Pool::factor_refusal))]
fn check_factor(k: f64) -> Result<(), Refusal>
    ensures { result ≡ check_of (factor_refusal k) }
{
    if invalid_density(k) {
        return Err(Refusal::InvalidFactor);
    }
    Ok(())
}

// Row 6: the left map before the right one.
fn check_both(left: &[f64], right: &[f64]) -> Result<(), Refusal>
    ensures { result ≡ check_of (or_else (density_refusal 0 left.now) (density_refusal 0 right.now)) }
{
    check_densities(left)?;
    check_densities(right)
}
