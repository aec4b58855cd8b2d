// Clipping a density map to a coverage, note 6 of document 02: every cell that lies inside an entry
// and inside the coverage while its parent, if any, does not lie inside both, with the entry's density.
// Nothing is merged. The result is a map of depth 29.
//
// The entries and the ranges are walked side by side. What an entry and a range have in common is a
// piece of the sky, which is cut from the left into the largest cells that fit.
//
// A call looks at everything before it writes anything: one pass over the map and one over the coverage
// check them, then the walk counts the cells, and once more it writes them. To count, no piece is cut: how
// many cells it comes to is told by the digits of two distances.
//
// Refused: a depth over 29 (number 1), paired buffers of two lengths, of the map, the coverage or the
// output (4), an invalid map (5, place the entry), a density that is NaN, infinite or below 0 (6, place
// the entry), a range that is empty, ends past the sky or does not start above the end before (14, place
// the range), and fewer places than there are cells (11).
#![tactic(auto)]

ghost use Rattle.std.specs.Prelude.{◌≡◌, ◌+◌, ◌^◌, ◌≤◌, ◌<◌, max, min, length};
ghost use Rattle.zuniq.specs.Cells.{n_hash};
ghost use Rattle.refusal.specs.Checks.{check_of};
ghost use Rattle.combine.specs.Pool.{Given};
ghost use Rattle.combine.specs.Slices.{Holds};
ghost use Rattle.coverage.specs.Ranges.{ranges_of};
ghost use Rattle.coverage.specs.Promises.{Parted, RangeOf};
ghost use Rattle.clip.specs.Call.{clipped_of, clip_input_refusal, clip_call};
ghost use Rattle.clip.specs.Passes.{Aim, Taken, Room, LargestWidth, IsCutInto, digit_sum, CanCut, IsCut, CanKeep, Kept};

use build::check_map;
use build_densities::check_densities;
use combine::check_pairs;
use coverage::{HashRange, check_ranges, entry_range};
use refusal::Refusal;
use zuniq::ZUniqHashT;

mod sizes;
mod taking;

use taking::{Count, Taker, Write};

// Clips a map to a coverage, into two output buffers. Map, ranges and output are paired slices, as C hands
// them.
pub fn clip(
    depth: u8,
    map_zuniqs: &[u64],
    map_densities: &[f64],
    starts: &[u64],
    ends: &[u64],
    zuniqs: &mut [u64],
    densities: &mut [f64],
) -> Result<usize, Refusal>
    ensures { (result, zuniqs.new, densities.new) ≡ clip_call (record { depth = depth; zuniqs = map_zuniqs.now; values = map_densities.now }) starts.now ends.now zuniqs.old densities.old }
{
    check(
        depth,
        map_zuniqs,
        map_densities,
        starts,
        ends,
        zuniqs.len(),
        densities.len(),
    )?;
    let cells = walk::<Count>(map_zuniqs, map_densities, starts, ends, &mut [], &mut []);
    if zuniqs.len() < cells {
        return Err(Refusal::NoSpace);
    }
    let written = walk::<Write>(map_zuniqs, map_densities, starts, ends, zuniqs, densities);
    zuniqs[written..].fill(0);
    densities[written..].fill(0.0);
    Ok(written)
}

// All that can be refused before the cells are counted, in the order of the table.
#[tactic(auto, unfolding(crate::specs::Call::clip_input_refusal))]
fn check(
    depth: u8,
    map_zuniqs: &[u64],
    map_densities: &[f64],
    starts: &[u64],
    ends: &[u64],
    places: usize,
    values: usize,
) -> Result<(), Refusal>
    ensures { result ≡ check_of (clip_input_refusal (record { depth = depth; zuniqs = map_zuniqs.now; values = map_densities.now }) starts.now ends.now places values) }
{
    if depth > u64::MAX_DEPTH {
        return Err(Refusal::DepthOutOfRange);
    }
    check_pairs(
        map_zuniqs.len(),
        map_densities.len(),
        starts.len(),
        ends.len(),
        places,
        values,
    )?;
    check_map(depth, map_zuniqs)?;
    check_densities(map_densities)?;
    check_ranges(starts, ends)
}

// Walks a valid map and a coverage side by side: what the next entry and the next range have in common is
// cut into cells, then the one that ends first is past. Answers how many cells there are; writing, it puts
// them into the first places of the output buffers. A range is fetched only once: the compiler then leaves
// the branch that asks which one is past, and the next entry does not wait for the answer. It is no
// `for`, since a turn goes on in the map or in the coverage.
fn walk<T: Taker>(
    map_zuniqs: &[u64],
    map_densities: &[f64],
    starts: &[u64],
    ends: &[u64],
    zuniqs: &mut [u64],
    densities: &mut [f64],
) -> usize
    requires holds { Holds map_zuniqs.now map_densities.now × (length starts.now ≡ length ends.now) × Parted 0 (n_hash 29) (ranges_of starts.now ends.now) }
    requires room { Room T.aim 0 (clipped_of map_zuniqs.now map_densities.now starts.now ends.now) zuniqs.old densities.old }
    ensures { (result ≡ length (clipped_of map_zuniqs.now map_densities.now starts.now ends.now)) × Taken T.aim 0 (clipped_of map_zuniqs.now map_densities.now starts.now ends.now) zuniqs.old densities.old zuniqs.new densities.new }
{
    if starts.len() == 0 {
        return 0;
    }
    let mut n: usize = 0;
    let mut i = 0;
    let mut j = 0;
    let mut range = HashRange {
        start: starts[0],
        end: ends[0],
    };
    while i < map_zuniqs.len() {
        let zuniq = map_zuniqs[i];
        let cell = entry_range(zuniq);
        n = clip_entry::<T>(zuniq, cell, range, map_densities[i], zuniqs, densities, n);
        if cell.end <= range.end {
            i += 1;
            continue;
        }
        j += 1;
        if j >= starts.len() {
            return n;
        }
        range = HashRange {
            start: starts[j],
            end: ends[j],
        };
    }
    n
}

// Counts or writes the cells of what an entry and a range of the coverage have in common. Most entries lie
// in a range as a whole, or in none: those are one cell, or nothing.
fn clip_entry<T: Taker>(
    zuniq: u64,
    cell: HashRange,
    range: HashRange,
    density: f64,
    zuniqs: &mut [u64],
    densities: &mut [f64],
    n: usize,
) -> usize
    requires { RangeOf 29 «zuniq» cell.start cell.end × (range.end ≤ n_hash 29) × CanCut T.aim n (max cell.start range.start) (min cell.end range.end) density zuniqs.old densities.old }
    ensures { IsCut T.aim n (max cell.start range.start) (min cell.end range.end) density zuniqs.old densities.old result zuniqs.new densities.new }
{
    if range.start <= cell.start && cell.end <= range.end {
        return T::keep(zuniq, density, zuniqs, densities, n);
    }
    let from = cell.start.max(range.start);
    let to = cell.end.min(range.end);
    T::cut(from, to, density, zuniqs, densities, n)
}
