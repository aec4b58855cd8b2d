// The coverage of a map, note 6 of document 02: the part of the sky that its entries cover, as
// half-open ranges of hashes of the largest depth, starts and ends in two paired buffers. The ranges
// rise and none touches the next: where an entry starts at the end of the one before, both are in one
// range. `clip` clips a map to such ranges.
//
// A call looks at everything before it writes anything: one pass over the map checks it, one counts the
// ranges, and one writes them.
//
// Refused: a depth over 29 (number 1), output buffers of two lengths (4), an invalid map (5, place the
// entry), and fewer places than there are ranges (11). A given range can be empty, end past the sky or
// not start above the end before (14, place the range): `check_ranges` tells.
#![tactic(auto)]

ghost use Rattle.std.specs.Prelude.{◌≡◌, ◌≤◌, length};
ghost use Rattle.zuniq.specs.Cells.{n_hash};
ghost use Rattle.mom.specs.Map.{IsZuniq};
ghost use Rattle.refusal.specs.Checks.{check_of};
ghost use Rattle.coverage.specs.Ranges.{ranges_of, ranges_refusal};
ghost use Rattle.coverage.specs.Coverage.{coverage_of, coverage_input_refusal, coverage_call};
ghost use Rattle.coverage.specs.Promises.{RangeOf, AreZuniqs, Stand};

use build::check_map;
use refusal::Refusal;
use zuniq::{ZUniqHashT, n_hash_unchecked};

// The hashes of the largest depth from a start to below an end.
#[derive(Clone, Copy)]
pub struct HashRange {
    pub start: u64,
    pub end: u64,
}

// No entry starts here. Where there is no range yet, one comparison tells that the next is apart from
// it; of an Option it would take two.
const NO_END: u64 = u64::MAX;

// Writes the coverage of a map into two output buffers, as C hands them.
pub fn coverage(
    depth: u8,
    zuniqs: &[u64],
    starts: &mut [u64],
    ends: &mut [u64],
) -> Result<usize, Refusal>
    ensures { (result, starts.new, ends.new) ≡ coverage_call depth zuniqs.now starts.old ends.old }
{
    check(depth, zuniqs, starts.len(), ends.len())?;
    let ranges = count_ranges(zuniqs);
    if starts.len() < ranges {
        return Err(Refusal::NoSpace);
    }
    write_ranges(zuniqs, starts, ends);
    starts[ranges..].fill(0);
    ends[ranges..].fill(0);
    Ok(ranges)
}

// All that can be refused before the ranges are counted, in the order of the table.
#[tactic(auto, unfolding(crate::specs::Coverage::coverage_input_refusal))]
fn check(depth: u8, zuniqs: &[u64], starts: usize, ends: usize) -> Result<(), Refusal>
    ensures { result ≡ check_of (coverage_input_refusal depth zuniqs.now starts ends) }
{
    if depth > u64::MAX_DEPTH {
        return Err(Refusal::DepthOutOfRange);
    }
    if starts != ends {
        return Err(Refusal::LengthMismatch);
    }
    check_map(depth, zuniqs)
}

// How many ranges the coverage has.
fn count_ranges(zuniqs: &[u64]) -> usize
    requires { AreZuniqs 29 zuniqs.now }
    ensures { result ≡ length (coverage_of 29 zuniqs.now) }
{
    let mut n: usize = 0;
    let mut end_before = NO_END;
    for &zuniq in zuniqs {
        let range = entry_range(zuniq);
        if range.start != end_before {
            n += 1;
        }
        end_before = range.end;
    }
    n
}

// Writes the ranges to the first places of two buffers.
fn write_ranges(zuniqs: &[u64], starts: &mut [u64], ends: &mut [u64])
    requires { AreZuniqs 29 zuniqs.now × (length (coverage_of 29 zuniqs.now) ≤ length starts.old) × (length (coverage_of 29 zuniqs.now) ≤ length ends.old) }
    ensures { Stand (coverage_of 29 zuniqs.now) starts.new ends.new }
{
    let mut n: usize = 0;
    let mut end_before = NO_END;
    for &zuniq in zuniqs {
        let range = entry_range(zuniq);
        if range.start == end_before {
            ends[n - 1] = range.end;
        } else {
            starts[n] = range.start;
            ends[n] = range.end;
            n += 1;
        }
        end_before = range.end;
    }
}

// The range of an entry's cell. A zuniq is the sum of its cell's start and end, and its lowest set bit
// is the distance between them.
pub fn entry_range(zuniq: u64) -> HashRange
    requires { IsZuniq 29 «zuniq» }
    ensures { RangeOf 29 «zuniq» result.start result.end }
{
    let width = 1 << u64::trailing_zeros(zuniq);
    HashRange {
        start: (zuniq - width) / 2,
        end: (zuniq + width) / 2,
    }
}

// Row 14, of a given coverage.
pub fn check_ranges(starts: &[u64], ends: &[u64]) -> Result<(), Refusal>
    requires { length starts.now ≡ length ends.now }
    ensures { result ≡ check_of (ranges_refusal (n_hash 29) 0 0 (ranges_of starts.now ends.now)) }
{
    let sky = n_hash_unchecked(u64::MAX_DEPTH);
    let mut least = 0;
    for (i, &start) in starts.iter().enumerate() {
        let end = ends[i];
        if end <= start || end > sky || start < least {
            return Err(Refusal::InvalidRange(i));
        }
        least = end + 1;
    }
    Ok(())
}
