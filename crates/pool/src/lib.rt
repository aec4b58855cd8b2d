// Pooling two count maps: a cell of the overlay that one map has keeps its count, one that both have
// gets the sum; then the cells are merged under M and T.
//
// A call looks at everything before it writes anything: one pass over the protected parents and one
// over each map, then the overlay is walked once to count its cells and once more to merge them.
//
// `ask` is built on the parts: what is refused before the overlay is walked, what the pool comes to, and
// the pool of maps whose cells are counted.
#![tactic(auto)]

ghost use Rattle.std.specs.Prelude.{◌≡◌, [], ◌+◌, ◌≤◌, length, MatchResult};
ghost use Rattle.std.proofs.Math.Option.{none, some};
ghost use Rattle.refusal.specs.Checks.{ok_unless};
ghost use Rattle.merger.specs.Merge.{accept_counts};
ghost use Rattle.build.specs.Add.{sum_of};
ghost use Rattle.build.specs.Stack.{run};
ghost use Rattle.build.specs.Counts.{total_of};
ghost use Rattle.combine.specs.Slices.{entries_of};
ghost use Rattle.combine.specs.Counts.{pool_cells};
ghost use Rattle.combine.specs.Pool.{Given, pool_input_refusal, sums_refusal, places_refusal, pool_over, pool_counts};

use build::counts::Added;
use build::free::clear;
use build_counts::capped_sum;
use combine::counting::Counting;
use combine::counts::Figures;
use combine::map::Map;
use combine::{check_maps, check_pairs, check_settings};
use merger::CountMerger;
use protection::Protected;
use refusal::Refusal;
use tally::PLACES;
use walk::{Merging, Tallying, pool_cells};

mod walk;

const MAX_COUNT: u64 = 4294967295;

// What a pool comes to know when its input is checked: the protected parents, and the total of both maps.
#[derive(Clone, Copy)]
pub struct Checked<'a> {
    pub protected: Protected<'a, u64>,
    pub total: u32,
}

// Pools two maps into two output buffers. Maps and settings are parameters of their own, as C hands them.
pub fn pool(
    left_depth: u8,
    left_zuniqs: &[u64],
    left_counts: &[u32],
    right_depth: u8,
    right_zuniqs: &[u64],
    right_counts: &[u32],
    depth_threshold: u8,
    chi2_threshold: f64,
    protected: &[u64],
    zuniqs: &mut [u64],
    counts: &mut [u32],
) -> Result<Added, Refusal>
    ensures { (result, zuniqs.new, counts.new) ≡ pool_counts protected.now (record { depth = left_depth; zuniqs = left_zuniqs.now; values = left_counts.now }) (record { depth = right_depth; zuniqs = right_zuniqs.now; values = right_counts.now }) depth_threshold chi2_threshold zuniqs.old counts.old }
{
    let checked = check(
        left_depth,
        left_zuniqs,
        left_counts,
        right_depth,
        right_zuniqs,
        right_counts,
        depth_threshold,
        chi2_threshold,
        protected,
        zuniqs.len(),
        counts.len(),
    )?;
    let left = Map {
        depth: left_depth,
        zuniqs: left_zuniqs,
        values: left_counts,
    };
    let right = Map {
        depth: right_depth,
        zuniqs: right_zuniqs,
        values: right_counts,
    };
    let merger = CountMerger {
        depth_threshold,
        chi2_threshold,
        protected: checked.protected,
    };
    pool_checked(&left, &right, &merger, checked.total, zuniqs, counts)
}

// Pools two maps that have passed: what is left to be known is whether there is space.
fn pool_checked(
    left: &Map<u32>,
    right: &Map<u32>,
    merger: &CountMerger<u64>,
    total: u32,
    zuniqs: &mut [u64],
    counts: &mut [u32],
) -> Result<Added, Refusal>
    requires { (total_of (entries_of left.now.zuniqs.now left.now.values.now) + total_of (entries_of right.now.zuniqs.now right.now.values.now) ≡ total) × (length zuniqs.old ≡ length counts.old) }
    ensures { (result, zuniqs.new, counts.new) ≡ pool_over merger.now.protected.zuniqs.now 29 (places_refusal (length zuniqs.old) (length (pool_cells left.now.zuniqs.now left.now.values.now right.now.zuniqs.now right.now.values.now))) (entries_of left.now.zuniqs.now left.now.values.now) (entries_of right.now.zuniqs.now right.now.values.now) merger.now.depth_threshold merger.now.chi2_threshold zuniqs.old counts.old }
{
    let Ok(cells) = pool_cells(Counting, left, right, zuniqs, counts) else {
        unreachable!()
    };
    pool_counted(left, right, merger, cells, total, zuniqs, counts)
}

// Pools two maps that have passed and have so many cells in their overlay, if there is space for them.
pub fn pool_counted(
    left: &Map<u32>,
    right: &Map<u32>,
    merger: &CountMerger<u64>,
    cells: usize,
    total: u32,
    zuniqs: &mut [u64],
    counts: &mut [u32],
) -> Result<Added, Refusal>
    requires { (total_of (entries_of left.now.zuniqs.now left.now.values.now) + total_of (entries_of right.now.zuniqs.now right.now.values.now) ≡ total) × (length zuniqs.old ≡ length counts.old) × (cells ≡ length (pool_cells left.now.zuniqs.now left.now.values.now right.now.zuniqs.now right.now.values.now)) }
    ensures { (result, zuniqs.new, counts.new) ≡ pool_over merger.now.protected.zuniqs.now 29 (places_refusal (length zuniqs.old) (length (pool_cells left.now.zuniqs.now left.now.values.now right.now.zuniqs.now right.now.values.now))) (entries_of left.now.zuniqs.now left.now.values.now) (entries_of right.now.zuniqs.now right.now.values.now) merger.now.depth_threshold merger.now.chi2_threshold zuniqs.old counts.old }
{
    if zuniqs.len() < cells {
        return Err(Refusal::NoSpace);
    }
    let Ok(entries) = pool_cells(Merging { merger }, left, right, zuniqs, counts) else {
        unreachable!()
    };
    clear(&mut zuniqs[entries..], 0);
    clear(&mut counts[entries..], 0);
    Ok(Added { entries, total })
}

// What the pool of two maps that have passed comes to, found in fixed memory.
pub fn pool_figures(
    left: &Map<u32>,
    right: &Map<u32>,
    merger: &CountMerger<u64>,
    total: u32,
) -> Figures
    requires { (total_of (entries_of left.now.zuniqs.now left.now.values.now) + total_of (entries_of right.now.zuniqs.now right.now.values.now) ≡ total) }
    ensures { result ≡ record { cells = length (pool_cells left.now.zuniqs.now left.now.values.now right.now.zuniqs.now right.now.values.now); entries = length (run (accept_counts 29 merger.now.protected.zuniqs.now merger.now.depth_threshold merger.now.chi2_threshold) [] (pool_cells left.now.zuniqs.now left.now.values.now right.now.zuniqs.now right.now.values.now)); total = total } }
{
    let mut zuniqs = [0u64; PLACES];
    let mut counts = [0u32; PLACES];
    let Ok(tallied) = pool_cells(Tallying { merger }, left, right, &mut zuniqs, &mut counts) else {
        unreachable!()
    };
    let entries = tallied.settled + tallied.live;
    Figures {
        cells: tallied.cells,
        entries,
        total,
    }
}

// All that can be refused before the overlay is walked, in the order of the table; the protected parents and
// the total of both maps where nothing is.
#[tactic(auto, unfolding(combine::specs::Pool::pool_input_refusal, combine::specs::Pool::maps_refusal))]
pub fn check<'a>(
    left_depth: u8,
    left_zuniqs: &[u64],
    left_counts: &[u32],
    right_depth: u8,
    right_zuniqs: &[u64],
    right_counts: &[u32],
    depth_threshold: u8,
    chi2_threshold: f64,
    protected: &'a [u64],
    places: usize,
    values: usize,
) -> Result<Checked<'a>, Refusal>
    ensures { MatchResult result (λ c. (c.protected.zuniqs.now ≡ protected.now) × (c.total ≡ sum_of left_counts.now + sum_of right_counts.now) × (pool_input_refusal protected.now (record { depth = left_depth; zuniqs = left_zuniqs.now; values = left_counts.now }) (record { depth = right_depth; zuniqs = right_zuniqs.now; values = right_counts.now }) depth_threshold chi2_threshold places values ≡ none)) (λ r. pool_input_refusal protected.now (record { depth = left_depth; zuniqs = left_zuniqs.now; values = left_counts.now }) (record { depth = right_depth; zuniqs = right_zuniqs.now; values = right_counts.now }) depth_threshold chi2_threshold places values ≡ some r) }
{
    check_settings(left_depth, right_depth, depth_threshold, chi2_threshold)?;
    let protected = Protected::check(protected)?;
    check_pairs(
        left_zuniqs.len(),
        left_counts.len(),
        right_zuniqs.len(),
        right_counts.len(),
        places,
        values,
    )?;
    check_maps(left_depth, left_zuniqs, right_depth, right_zuniqs)?;
    let total = check_sums(left_counts, right_counts)?;
    Ok(Checked { protected, total })
}

// Row 10; the total of both maps. Sums that are cut off one above the largest u32 tell as much.
fn check_sums(left: &[u32], right: &[u32]) -> Result<u32, Refusal>
    ensures { result ≡ ok_unless (sums_refusal (sum_of left.now) (sum_of right.now)) (sum_of left.now + sum_of right.now) }
{
    let total = capped_sum(left) + capped_sum(right);
    if total > MAX_COUNT {
        return Err(Refusal::CountOverflow(0));
    }
    Ok(total as u32)
}
