// Lookup: section 6 of the scope, and note 2 of document 02.
//
// A query is a zuniq. Of a valid map the entries that it overlaps stand one behind the other, and
// those with a smaller zuniq stand before those with a larger one: so a search by zuniq leads there.
// The map is not checked. Over an invalid one the answers are free, except that an entry shown is a
// valid zuniq that overlaps the query.
//
// The zuniqs are of either width, and are lent or stand in rows: the search is the same, over a
// `ZuniqList`.
//
// Refused: a depth over the largest, 29 or 13 (number 1); a query that is no zuniq, or in
// `get_cell_containing` not of the map's depth (12). A refusal, like any answer, touches no lent
// memory.
#![tactic(auto)]

ghost use Rattle.std.specs.Prelude.{◌≡◌, ◌≤◌, length};
ghost use Rattle.mom.specs.Lookup.{size_of, ContainingAnswer, RunAnswer, OverlappedAnswer};
ghost use Rattle.mom.specs.Range.{meets};
ghost use Rattle.mom.specs.Search.{LowerBound, OverlapsBefore, OverlapsFrom};

use mom::list::ZuniqList;
use mom::lookup::{Overlapped, Run};
use mom::{ZuniqRange, range_of};
use refusal::Refusal;
use zuniq::ZUniqHashT;

// The place of the entry in which a cell of the map's depth lies.
pub fn get_cell_containing<Z: ZUniqHashT>(
    depth: u8,
    zuniqs: &[Z],
    zuniq: Z,
) -> Result<Option<usize>, Refusal>
    ensures { ContainingAnswer Z.MAX_DEPTH depth (Z.numbers zuniqs.now) (Z.number «zuniq») result }
{
    get_cell_containing_in(depth, zuniqs, zuniq)
}

// The entries that overlap a query: the place of the first, and their number.
pub fn get_overlapped_run<Z: ZUniqHashT>(zuniqs: &[Z], zuniq: Z) -> Result<Run, Refusal>
    ensures { RunAnswer Z.MAX_DEPTH (Z.numbers zuniqs.now) (Z.number «zuniq») result }
{
    get_overlapped_run_in(zuniqs, zuniq)
}

// The same entries as a part of the lent zuniqs, with its first place.
pub fn get_overlapped_cells<'a, Z: ZUniqHashT>(
    zuniqs: &'a [Z],
    zuniq: Z,
) -> Result<Overlapped<'a, Z>, Refusal>
    ensures { OverlappedAnswer Z.MAX_DEPTH (size_of Z.row) Z.numbers zuniqs.entry (Z.number «zuniq») result }
{
    let run = get_overlapped_run(zuniqs, zuniq)?;
    let end = run.first + run.len;
    Ok(Overlapped {
        part: &zuniqs[run.first..end],
        first: run.first,
    })
}

// `get_cell_containing` in any list.
pub fn get_cell_containing_in<L: ZuniqList>(
    depth: u8,
    list: L,
    zuniq: L::Zuniq,
) -> Result<Option<usize>, Refusal>
    ensures { ContainingAnswer L.Zuniq.MAX_DEPTH depth (L.numbers list) (L.Zuniq.number «zuniq») result }
{
    if depth > L::Zuniq::MAX_DEPTH {
        return Err(Refusal::DepthOutOfRange);
    }
    let Some(query) = range_of(zuniq) else {
        return Err(Refusal::InvalidQuery(0));
    };
    if query.depth != depth {
        return Err(Refusal::InvalidQuery(0));
    }
    // Of the entries below the query only the last can contain it, of the others only the first.
    let place = lower_bound_in(list, zuniq);
    if place < list.n_zuniqs() && is_overlapped(query, list.zuniq_at(place)) {
        return Ok(Some(place));
    }
    if place > 0 && is_overlapped(query, list.zuniq_at(place - 1)) {
        return Ok(Some(place - 1));
    }
    Ok(None)
}

// `get_overlapped_run` in any list.
pub fn get_overlapped_run_in<L: ZuniqList>(list: L, zuniq: L::Zuniq) -> Result<Run, Refusal>
    ensures { RunAnswer L.Zuniq.MAX_DEPTH (L.numbers list) (L.Zuniq.number «zuniq») result }
{
    let Some(query) = range_of(zuniq) else {
        return Err(Refusal::InvalidQuery(0));
    };
    // The run stands around this place: what it has below the query before it, the others from it on.
    let place = lower_bound_in(list, zuniq);
    let first = run_start(list, query, place);
    let end = run_end(list, query, place);
    if first < end {
        return Ok(Run {
            first,
            len: end - first,
        });
    }
    Ok(Run { first: 0, len: 0 })
}

// Whether an entry is a valid zuniq that overlaps the query: then each starts before the other ends.
// Over an invalid map an entry may stand on the wrong side of the query, so both are tried.
#[tactic(auto, unfolding(mom::specs::Range::meets, mom::specs::Range::ranges_meet))]
pub fn is_overlapped<Z: ZUniqHashT>(query: ZuniqRange, zuniq: Z) -> bool
    ensures { result ≡ meets Z.MAX_DEPTH query (Z.number «zuniq») }
{
    range_of(zuniq).is_some_and(|range| query.start < range.end && range.start < query.end)
}

// A place between an entry below the query and one that is not: where the zuniqs rise, the number
// of entries below it.
pub fn lower_bound<Z: ZUniqHashT>(zuniqs: &[Z], zuniq: Z) -> usize
    ensures { LowerBound (Z.numbers zuniqs.now) (Z.number «zuniq») result }
{
    lower_bound_in(zuniqs, zuniq)
}

// `lower_bound` in any list. The loop is written out: std's `partition_point` searches slices alone,
// and says where it leads only where the zuniqs rise.
pub fn lower_bound_in<L: ZuniqList>(list: L, zuniq: L::Zuniq) -> usize
    ensures { LowerBound (L.numbers list) (L.Zuniq.number «zuniq») result }
{
    let mut lo = 0;
    let mut hi = list.n_zuniqs();
    while lo < hi {
        let mid = lo + (hi - lo) / 2;
        if list.zuniq_at(mid).is_below(zuniq) {
            lo = mid + 1;
        } else {
            hi = mid;
        }
    }
    lo
}

// The first of the entries before a place that overlap the query without a gap.
fn run_start<L: ZuniqList>(list: L, query: ZuniqRange, place: usize) -> usize
    requires { place ≤ length (L.numbers list) }
    ensures { OverlapsBefore L.Zuniq.MAX_DEPTH (L.numbers list) query place result }
{
    for first in (0..place).rev() {
        if !is_overlapped(query, list.zuniq_at(first)) {
            return first + 1;
        }
    }
    0
}

// The end of the entries from a place on that overlap the query without a gap.
fn run_end<L: ZuniqList>(list: L, query: ZuniqRange, place: usize) -> usize
    requires { place ≤ length (L.numbers list) }
    ensures { OverlapsFrom L.Zuniq.MAX_DEPTH (L.numbers list) query place result }
{
    let len = list.n_zuniqs();
    for end in place..len {
        if !is_overlapped(query, list.zuniq_at(end)) {
            return end;
        }
    }
    len
}
