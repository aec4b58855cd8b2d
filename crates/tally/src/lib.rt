// How many entries cells make when they are merged, counted without keeping them: what asking for a
// pool needs.
//
// Of the entries made so far only those are kept that a later cell may still have merged, the live
// ones. They are a chain: each starts where the one before it ends, the first is the first of four
// siblings, and none is the last of four. So there are at most three for each depth from 1 on, 87 in
// all. A gap, a lone cell that is not the first of four, and four siblings that are not merged settle
// all before them: what is settled is only counted.
#![tactic(auto)]

ghost use Rattle.std.specs.Prelude.{◌≡◌, ◌+◌, ◌-◌, ◌^◌, ◌≤◌, ◌<◌, length, get_or};
ghost use Rattle.zuniq.specs.Codec.{decode};
ghost use Rattle.merger.specs.Merge.{accept_counts};
ghost use Rattle.build.specs.Map.{entry};
ghost use Rattle.tally.specs.Running.{settled_with, reached_by, lone_at, last_at, CanCount, Counted};

use build::stack::push;
use merger::CountMerger;
use zuniq::{DIM, Decoded, ZUniqHashT};

// The places that the live entries need: one more than there can be, for the cell that is counted.
pub const PLACES: usize = 88;

// The figures so far.
#[derive(Clone, Copy, Debug, PartialEq, Eq)]
pub struct Running {
    // Cells.
    pub cells: usize,
    // Entries that no later cell can have merged.
    pub settled: usize,
    // Entries in the buffers.
    pub live: usize,
    // Where the last cell ends, as a hash of the largest depth.
    pub end: u64,
}

// The figures of no cells.
pub const NO_CELLS: Running = Running {
    cells: 0,
    settled: 0,
    live: 0,
    end: 0,
};

// Counts a cell behind those so far. The live entries stand in the first places of the buffers.
pub fn count(
    running: Running,
    depth: u8,
    hash: u64,
    zuniq: u64,
    value: u32,
    merger: &CountMerger<u64>,
    zuniqs: &mut [u64],
    counts: &mut [u32],
) -> Running
    requires { CanCount running zuniq (entry depth hash value) zuniqs.old counts.old }
    ensures { Counted (accept_counts 29 merger.now.protected.zuniqs.now merger.now.depth_threshold merger.now.chi2_threshold) running (entry depth hash value) zuniqs.old counts.old result zuniqs.new counts.new }
{
    let size = width(depth);
    let first = hash * size;
    let before = reached(running, first, first + size);
    if is_lone(before.live, depth, hash) {
        return settle(before, 1);
    }
    let live = push(
        merger,
        zuniqs,
        counts,
        before.live,
        depth,
        hash,
        zuniq,
        value,
    );
    if is_last(zuniqs, live, hash) {
        return settle(before, live);
    }
    Running { live, ..before }
}

// The figures with a cell more: if it does not start where the one before ended, all live entries are
// settled.
fn reached(running: Running, first: u64, end: u64) -> Running
    requires { (running.settled + running.live ≤ running.cells) × (running.cells + 1 < 2 ^ 64) }
    ensures { result ≡ reached_by running first end }
{
    let next = Running {
        cells: running.cells + 1,
        end,
        ..running
    };
    if first == running.end {
        return next;
    }
    settle(next, running.live)
}

// Counts entries that no later cell can have merged.
fn settle(running: Running, entries: usize) -> Running
    requires { running.settled + entries < 2 ^ 64 }
    ensures { result ≡ settled_with running entries }
{
    Running {
        settled: running.settled + entries,
        live: 0,
        ..running
    }
}

// Whether a cell has nothing live before it and is not the first of four siblings: it lacks the one
// before it.
fn is_lone(live: usize, depth: u8, hash: u64) -> bool
    ensures { result ≡ lone_at live depth hash }
{
    if live > 0 {
        return false;
    }
    if depth == 0 {
        return true;
    }
    hash % 4 != 0
}

// Whether no later cell can have one of n entries merged, after a cell with this hash: none of four
// siblings is to come behind the last one, and one that is alone, merged from others, needs to be the
// first. Only the last of four siblings can have changed what stands before it.
fn is_last(zuniqs: &[u64], n: usize, hash: u64) -> bool
    requires { (0 < n) × (n ≤ length zuniqs.now) }
    ensures { result ≡ last_at n (decode 29 (get_or zuniqs.now (n - 1) 0)) hash }
{
    if hash % 4 != 3 {
        return false;
    }
    let Decoded::Cell(last) = u64::from_zuniq(zuniqs[n - 1]) else {
        return false;
    };
    if n > 1 {
        return last.hash % 4 == 3;
    }
    is_lone(0, last.depth, last.hash)
}

// How many cells of the largest depth lie in a cell.
fn width(depth: u8) -> u64
    requires { depth ≤ 29 }
    ensures { result ≡ 4 ^ (29 - depth) }
{
    1 << (DIM * (u64::MAX_DEPTH - depth))
}
