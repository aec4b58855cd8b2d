// A pool that is asked for before it is done. `ask` tells what it would cost and come to, and writes
// nothing; `commit` takes those figures back with the same maps, and pools. An operator asks, lends
// exactly as many places as there are cells, and commits.
//
// Asking walks the overlay once, in fixed memory; committing walks it twice.
#![tactic(auto)]

ghost use Rattle.std.specs.Prelude.{◌≡◌};
ghost use Rattle.combine.specs.Ask.{ask_counts, commit_counts};

use build::counts::Added;
use combine::counts::Figures;
use combine::map::Map;
use merger::CountMerger;
use pool::{check, pool_counted, pool_figures};
use refusal::Refusal;

// Asks for the pool of two maps: the cells of their overlay, the entries after merging, and the total. Maps
// and settings are parameters of their own, as C hands them; so they are in `commit`.
pub fn ask(
    left_depth: u8,
    left_zuniqs: &[u64],
    left_counts: &[u32],
    right_depth: u8,
    right_zuniqs: &[u64],
    right_counts: &[u32],
    depth_threshold: u8,
    chi2_threshold: f64,
    protected: &[u64],
) -> Result<Figures, Refusal>
    ensures { result ≡ ask_counts protected.now (record { depth = left_depth; zuniqs = left_zuniqs.now; values = left_counts.now }) (record { depth = right_depth; zuniqs = right_zuniqs.now; values = right_counts.now }) depth_threshold chi2_threshold }
{
    let checked = check(
        left_depth,
        left_zuniqs,
        left_counts,
        right_depth,
        right_zuniqs,
        right_counts,
        depth_threshold,
        chi2_threshold,
        protected,
        0,
        0,
    )?;
    let left = Map {
        depth: left_depth,
        zuniqs: left_zuniqs,
        values: left_counts,
    };
    let right = Map {
        depth: right_depth,
        zuniqs: right_zuniqs,
        values: right_counts,
    };
    let merger = CountMerger {
        depth_threshold,
        chi2_threshold,
        protected: checked.protected,
    };
    Ok(pool_figures(&left, &right, &merger, checked.total))
}

// Pools two maps into two output buffers, if the figures are those that an ask would answer.
pub fn commit(
    left_depth: u8,
    left_zuniqs: &[u64],
    left_counts: &[u32],
    right_depth: u8,
    right_zuniqs: &[u64],
    right_counts: &[u32],
    depth_threshold: u8,
    chi2_threshold: f64,
    protected: &[u64],
    figures: Figures,
    zuniqs: &mut [u64],
    counts: &mut [u32],
) -> Result<Added, Refusal>
    ensures { (result, zuniqs.new, counts.new) ≡ commit_counts protected.now (record { depth = left_depth; zuniqs = left_zuniqs.now; values = left_counts.now }) (record { depth = right_depth; zuniqs = right_zuniqs.now; values = right_counts.now }) depth_threshold chi2_threshold figures zuniqs.old counts.old }
{
    let checked = check(
        left_depth,
        left_zuniqs,
        left_counts,
        right_depth,
        right_zuniqs,
        right_counts,
        depth_threshold,
        chi2_threshold,
        protected,
        zuniqs.len(),
        counts.len(),
    )?;
    let left = Map {
        depth: left_depth,
        zuniqs: left_zuniqs,
        values: left_counts,
    };
    let right = Map {
        depth: right_depth,
        zuniqs: right_zuniqs,
        values: right_counts,
    };
    let merger = CountMerger {
        depth_threshold,
        chi2_threshold,
        protected: checked.protected,
    };
    let found = pool_figures(&left, &right, &merger, checked.total);
    if figures != found {
        return Err(Refusal::FiguresDiffer);
    }
    pool_counted(
        &left,
        &right,
        &merger,
        found.cells,
        found.total,
        zuniqs,
        counts,
    )
}
