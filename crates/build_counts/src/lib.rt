// Adding counts, to maps of either width.
#![tactic(auto)]

ghost use Rattle.std.specs.Prelude.{◌≡◌, ◌+◌, ◌≤◌, ◌<◌, cond, ltb, min, length};
ghost use Rattle.std.proofs.Math.Option.{some};
ghost use Rattle.refusal.specs.declared.Refusal.{Refusal};
ghost use Rattle.refusal.specs.Checks.{or_else, check_of, ok_unless};
ghost use Rattle.build.specs.Add.{hashes_refusal, sum_of, capped_sum, total_refusal, space_refusal};
ghost use Rattle.build.specs.Counts.{add_counts};

use build::counts::Added;
use build::free::clear;
use build::stack::push_all;
use build::{check_cell, check_held, check_space};
use merger::CountMerger;
use refusal::Refusal;
use zuniq::{ZUniqHashT, n_hash_unchecked};

const MAX_COUNT: u64 = 4294967295;

// The sum of all counts, if a u32 holds it. An enum and no Option: the scope has a batch check unpacked
// by `let .. else` as an enum of our own.
#[derive(Clone, Copy)]
enum BatchCheck {
    Total(u32),
    TooLarge,
}

// Adds a batch of cells of one depth to the first `held` entries of a map in two buffers. Settings, buffers
// and lists are parameters of their own, as C hands them.
pub fn add_counts<Z: ZUniqHashT>(
    depth: u8,
    depth_threshold: u8,
    chi2_threshold: f64,
    protected: &[Z],
    held: usize,
    zuniqs: &mut [Z],
    counts: &mut [u32],
    hashes: &[Z],
    batch: &[u32],
) -> Result<Added, Refusal>
    ensures { (result, Z.numbers zuniqs.new, counts.new) ≡ add_counts Z.MAX_DEPTH (Z.numbers protected.now) depth depth_threshold chi2_threshold held (Z.numbers zuniqs.old) counts.old (Z.numbers hashes.now) batch.now }
{
    let map = check_held(
        depth,
        depth_threshold,
        chi2_threshold,
        protected,
        held,
        zuniqs,
        counts.len(),
        hashes.len(),
        batch.len(),
    )?;
    let total = check_batch(depth, map.end, &counts[..held], zuniqs.len(), hashes, batch)?;
    let merger = CountMerger {
        depth_threshold,
        chi2_threshold,
        protected: map.protected,
    };
    let entries = push_all(&merger, zuniqs, counts, held, depth, hashes, batch);
    clear(&mut zuniqs[entries..], Z::of_u64(0));
    clear(&mut counts[entries..], 0);
    Ok(Added { entries, total })
}

// Rows 7, 8, 10 and 11, of a batch behind a map that ends at `end` and holds these counts; the total of
// all counts where nothing is refused.
fn check_batch<Z: ZUniqHashT>(
    depth: u8,
    end: u64,
    held: &[u32],
    places: usize,
    hashes: &[Z],
    batch: &[u32],
) -> Result<u32, Refusal>
    requires { depth ≤ Z.MAX_DEPTH }
    ensures { result ≡ ok_unless (or_else (hashes_refusal depth end 0 (Z.numbers hashes.now)) (or_else (total_refusal (sum_of held.now) batch.now) (space_refusal places (length held.now) (length hashes.now)))) (sum_of held.now + sum_of batch.now) }
{
    check_cells(depth, end, hashes)?;
    let total = check_total(capped_sum(held), batch)?;
    check_space(places, held.len(), hashes.len())?;
    Ok(total)
}

// Rows 7 and 8 for all cells of a batch.
fn check_cells<Z: ZUniqHashT>(depth: u8, end: u64, hashes: &[Z]) -> Result<(), Refusal>
    requires { depth ≤ Z.MAX_DEPTH }
    ensures { result ≡ check_of (hashes_refusal depth end 0 (Z.numbers hashes.now)) }
{
    let n_hash = n_hash_unchecked(depth);
    let mut least = end;
    for (i, hash) in hashes.iter().enumerate() {
        let hash = hash.as_u64();
        check_cell(n_hash, least, hash, i)?;
        least = hash + 1;
    }
    Ok(())
}

// The sum of some counts, or one more than a u32 holds where it is more than that.
pub fn capped_sum(counts: &[u32]) -> u64
    ensures { result ≡ capped_sum counts.now }
{
    let mut sum = 0;
    for count in counts {
        sum = capped(sum + u64::from(*count));
    }
    sum
}

fn capped(sum: u64) -> u64
    ensures { result ≡ min sum 4294967296 }
{
    sum.min(MAX_COUNT + 1)
}

// Row 10: the total of the held counts and the batch, or the first cell with which it no longer fits.
pub fn check_total(held: u64, batch: &[u32]) -> Result<u32, Refusal>
    ensures { result ≡ ok_unless (total_refusal held batch.now) (held + sum_of batch.now) }
{
    if held > MAX_COUNT {
        return Err(Refusal::CountOverflow(0));
    }
    let BatchCheck::Total(total) = total_with(held, batch) else {
        return Err(Refusal::CountOverflow(overflow_place(held, batch)));
    };
    Ok(total)
}

// That total alone, if it fits.
fn total_with(held: u64, batch: &[u32]) -> BatchCheck
    requires { held ≤ 4294967295 }
    ensures { result ≡ cond (ltb 4294967295 (held + sum_of batch.now)) BatchCheck.TooLarge (BatchCheck.Total (held + sum_of batch.now)) }
{
    let sum = held + capped_sum(batch);
    if sum > MAX_COUNT {
        return BatchCheck::TooLarge;
    }
    BatchCheck::Total(sum as u32)
}

// The first cell of a batch with which the total no longer fits, or 0 where the held counts alone do not:
// only a refusal asks for the place.
fn overflow_place(held: u64, batch: &[u32]) -> usize
    requires { (held ≤ 4294967295) × (4294967295 < held + sum_of batch.now) }
    ensures { total_refusal held batch.now ≡ some (Refusal.CountOverflow result) }
{
    let mut sum = held;
    for (i, count) in batch.iter().enumerate() {
        sum += u64::from(*count);
        if sum > MAX_COUNT {
            return i;
        }
    }
    0
}
