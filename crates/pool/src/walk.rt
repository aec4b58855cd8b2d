// What is done with the cells that the pool keeps of the overlay: they are counted, merged, or tallied.
ghost use Rattle.std.specs.Prelude.{◌≡◌, List, [], ◌∷◌, ℕ, ◌+◌, ◌≤◌, length};
ghost use Rattle.build.specs.Counts.{total_of};
ghost use Rattle.tally.specs.Running.{CanTally, Tallies};
ghost use Rattle.combine.specs.Slices.{entries_of};
ghost use Rattle.combine.specs.Counts.{pool_cells};
ghost use Rattle.combine.specs.Cells.{as_entry, zuniq_in};
ghost use Rattle.combine.specs.Sinks.{CanTake, Takes, Walked, NeverFails, Laid};
ghost use Rattle.merger.specs.Merge.{accept_counts};
ghost use Rattle.pool.specs.Sinks.{CanMerge};

use build::stack::push;
use combine::by_heads::{Sink, walk};
use combine::cells::Dhzv;
use combine::counts::Pool;
use combine::map::Map;
use merger::CountMerger;
use refusal::Refusal;
use tally::{NO_CELLS, Running, count};

// What an array of pending cells starts with.
const BLANK: Dhzv<u32> = Dhzv {
    depth: 0,
    hash: 0,
    zuniq: 0,
    value: 0,
};

// Walks the overlay of two valid maps, and has the sink take the cells of the pool.
pub(crate) fn pool_cells<S: Sink<u32>>(
    sink: S,
    left: &Map<u32>,
    right: &Map<u32>,
    zuniqs: &mut [u64],
    counts: &mut [u32],
) -> Result<S::Figures, Refusal>
    requires fits { (total_of (entries_of left.now.zuniqs.now left.now.values.now) + total_of (entries_of right.now.zuniqs.now right.now.values.now) ≤ 4294967295) }
    requires fit { S.fits sink zuniqs.old counts.old (pool_cells left.now.zuniqs.now left.now.values.now right.now.zuniqs.now right.now.values.now) }
    ensures { Walked (S.took sink) (S.failed sink) zuniqs.old counts.old (pool_cells left.now.zuniqs.now left.now.values.now right.now.zuniqs.now right.now.values.now) result zuniqs.new counts.new }
{
    let mut lefts = [BLANK; 87];
    let mut rights = [BLANK; 87];
    walk(
        Pool,
        sink,
        left,
        right,
        &mut lefts,
        &mut rights,
        zuniqs,
        counts,
    )
}

// Merges the cells into a map in the two buffers; the figure is the number of its entries.
#[derive(Clone, Copy)]
pub(crate) struct Merging<'a> {
    pub(crate) merger: &'a CountMerger<'a, u64>,
}

impl<'a> Sink<u32> for Merging<'a> {
    type Figures = usize;

    ghost fits = { λ _. CanMerge };

    ghost took = { λ s. Laid (accept_counts 29 s.merger.now.protected.zuniqs.now s.merger.now.depth_threshold s.merger.now.chi2_threshold) };

    ghost failed = { λ _. NeverFails };

    fn start(self) -> usize
        ensures { (zs vs : List ℕ) → Laid (accept_counts 29 self.entry.merger.now.protected.zuniqs.now self.entry.merger.now.depth_threshold self.entry.merger.now.chi2_threshold) zs vs [] result zs vs }
    {
        0
    }

    fn take(
        self,
        n: usize,
        cell: Dhzv<u32>,
        zuniqs: &mut [u64],
        counts: &mut [u32],
    ) -> Result<usize, Refusal>
        requires { CanTake CanMerge (Laid (accept_counts 29 self.merger.now.protected.zuniqs.now self.merger.now.depth_threshold self.merger.now.chi2_threshold)) n (zuniq_in cell) (as_entry cell) zuniqs.old counts.old }
        ensures { Takes (Laid (accept_counts 29 self.entry.merger.now.protected.zuniqs.now self.entry.merger.now.depth_threshold self.entry.merger.now.chi2_threshold)) NeverFails n (as_entry cell ∷ []) zuniqs.old counts.old result zuniqs.new counts.new }
    {
        Ok(push(
            self.merger,
            zuniqs,
            counts,
            n,
            cell.depth as u8,
            cell.hash,
            cell.zuniq,
            cell.value,
        ))
    }
}

// Finds how many entries the cells are merged into, without keeping them: some are settled and some live,
// the latter in two buffers that have a place for one more than there can be.
#[derive(Clone, Copy)]
pub(crate) struct Tallying<'a> {
    pub(crate) merger: &'a CountMerger<'a, u64>,
}

impl<'a> Sink<u32> for Tallying<'a> {
    type Figures = Running;

    ghost fits = { λ _. CanTally };

    ghost took = { λ s. Tallies (accept_counts 29 s.merger.now.protected.zuniqs.now s.merger.now.depth_threshold s.merger.now.chi2_threshold) };

    ghost failed = { λ _. NeverFails };

    fn start(self) -> Running
        ensures { (zs vs : List ℕ) → Tallies (accept_counts 29 self.entry.merger.now.protected.zuniqs.now self.entry.merger.now.depth_threshold self.entry.merger.now.chi2_threshold) zs vs [] result zs vs }
    {
        NO_CELLS
    }

    fn take(
        self,
        running: Running,
        cell: Dhzv<u32>,
        zuniqs: &mut [u64],
        counts: &mut [u32],
    ) -> Result<Running, Refusal>
        requires { CanTake CanTally (Tallies (accept_counts 29 self.merger.now.protected.zuniqs.now self.merger.now.depth_threshold self.merger.now.chi2_threshold)) running (zuniq_in cell) (as_entry cell) zuniqs.old counts.old }
        ensures { Takes (Tallies (accept_counts 29 self.entry.merger.now.protected.zuniqs.now self.entry.merger.now.depth_threshold self.entry.merger.now.chi2_threshold)) NeverFails running (as_entry cell ∷ []) zuniqs.old counts.old result zuniqs.new counts.new }
    {
        Ok(count(
            running,
            cell.depth as u8,
            cell.hash,
            cell.zuniq,
            cell.value,
            self.merger,
            zuniqs,
            counts,
        ))
    }
}
