// Moving a count map between widths, note 2 of document 02: from u64 zuniqs to u32 ones, whose largest
// depth is 13, and back.
//
// Every entry keeps its cell and its count; only its zuniq is another. The answer is the number of
// entries and the depth of the moved map, the smaller of the given map's and the largest of the other
// width. Every place after the entries is then 0. A call looks at everything before it writes anything,
// so that a refusal leaves the output as it was.
//
// Refused: a depth over 29, of a narrow map over 13 (number 1); zuniqs and counts that are not equally
// many, in the map or in the output (4); an invalid map (5, place the entry); an entry to be narrowed
// that is deeper than 13 (13, place the entry); fewer places in the output than entries (11).
#![tactic(auto)]

ghost use Rattle.std.specs.Prelude.{◌≡◌, ℕ, map, ◌≤◌, ◌<◌, min, length, get_or, ◌++◌, ◌-◌, replicate};
ghost use Rattle.zuniq.specs.Codec.{decode};
ghost use Rattle.refusal.specs.Checks.{check_of};
ghost use Rattle.moving.specs.Moving.{is_deeper, deep_refusal, entries_refusal, moving_refusal, moved};
ghost use Rattle.moving.specs.Widths.{in_width, MovesTo};

use build::{check_lengths, check_map, check_space};
use refusal::Refusal;
use zuniq::{DIM, Decoded, ZUniqHashT};

// The map in the output.
#[derive(Clone, Copy, Debug, PartialEq, Eq)]
pub struct Moved {
    pub depth: u8,
    pub entries: usize,
}

// Writes a map anew, in zuniqs of another width. Narrowed it keeps its depth or has the largest of a
// narrow map; widened it keeps its own.
pub fn move_map<Z: ZUniqHashT, W: ZUniqHashT>(
    depth: u8,
    zuniqs: &[Z],
    counts: &[u32],
    out_zuniqs: &mut [W],
    out_counts: &mut [u32],
) -> Result<Moved, Refusal>
    ensures { (result, W.numbers out_zuniqs.new, out_counts.new) ≡ moved Z.MAX_DEPTH W.MAX_DEPTH depth (Z.numbers zuniqs.now) counts.now (W.numbers out_zuniqs.old) out_counts.old }
{
    check::<Z, W>(
        depth,
        zuniqs,
        counts.len(),
        out_zuniqs.len(),
        out_counts.len(),
    )?;
    write_zuniqs(zuniqs, out_zuniqs);
    write_counts(counts, out_counts);
    Ok(Moved {
        depth: depth.min(W::MAX_DEPTH),
        entries: zuniqs.len(),
    })
}

// All that can be refused, in the order of the table. Compiled by itself, the pass over the map is
// faster than among what is written behind it.
#[inline(never)]
#[tactic(auto, unfolding(crate::specs::Moving::moving_refusal))]
fn check<Z: ZUniqHashT, W: ZUniqHashT>(
    depth: u8,
    zuniqs: &[Z],
    counts: usize,
    places: usize,
    values: usize,
) -> Result<(), Refusal>
    ensures { result ≡ check_of (moving_refusal Z.MAX_DEPTH W.MAX_DEPTH depth (Z.numbers zuniqs.now) counts places values) }
{
    if depth > Z::MAX_DEPTH {
        return Err(Refusal::DepthOutOfRange);
    }
    check_lengths(0, zuniqs.len(), counts, places, values)?;
    check_entries::<Z, W>(depth, zuniqs)?;
    check_space(places, 0, zuniqs.len())
}

// Rows 5 and 13. A map that is valid of the depth that it shall have in the output is valid of its own
// and has no entry that is too deep: so a map that can be moved is read once. Only where that finds a
// fault are the two reasons told apart, in their order.
fn check_entries<Z: ZUniqHashT, W: ZUniqHashT>(depth: u8, zuniqs: &[Z]) -> Result<(), Refusal>
    ensures { result ≡ check_of (entries_refusal Z.MAX_DEPTH W.MAX_DEPTH depth (Z.numbers zuniqs.now)) }
{
    if check_map(depth.min(W::MAX_DEPTH), zuniqs).is_ok() {
        return Ok(());
    }
    check_both::<Z, W>(depth, zuniqs)
}

// Row 5, then row 13.
#[tactic(auto, unfolding(crate::specs::Moving::entries_refusal))]
fn check_both<Z: ZUniqHashT, W: ZUniqHashT>(depth: u8, zuniqs: &[Z]) -> Result<(), Refusal>
    ensures { result ≡ check_of (entries_refusal Z.MAX_DEPTH W.MAX_DEPTH depth (Z.numbers zuniqs.now)) }
{
    check_map(depth, zuniqs)?;
    check_deep::<Z, W>(zuniqs)
}

// Row 13.
fn check_deep<Z: ZUniqHashT, W: ZUniqHashT>(zuniqs: &[Z]) -> Result<(), Refusal>
    ensures { result ≡ check_of (deep_refusal Z.MAX_DEPTH W.MAX_DEPTH 0 (Z.numbers zuniqs.now)) }
{
    for (i, &zuniq) in zuniqs.iter().enumerate() {
        if is_deep::<Z, W>(zuniq) {
            return Err(Refusal::EntryTooDeep(i));
        }
    }
    Ok(())
}

// Whether a value is the zuniq of a cell deeper than any of the other width.
#[tactic(auto, unfolding(crate::specs::Moving::is_deeper))]
fn is_deep<Z: ZUniqHashT, W: ZUniqHashT>(zuniq: Z) -> bool
    ensures { result ≡ is_deeper W.MAX_DEPTH (decode Z.MAX_DEPTH (Z.number «zuniq»)) }
{
    let Decoded::Cell(cell) = Z::from_zuniq(zuniq) else {
        return false;
    };
    cell.depth > W::MAX_DEPTH
}

// Writes the zuniqs of the same cells, and 0 behind them.
fn write_zuniqs<Z: ZUniqHashT, W: ZUniqHashT>(zuniqs: &[Z], out: &mut [W])
    requires { (length zuniqs.now ≤ length out.old) × ((i : ℕ) → i < length zuniqs.now → MovesTo Z.MAX_DEPTH W.MAX_DEPTH (get_or (Z.numbers zuniqs.now) i 0)) }
    ensures { W.numbers out.new ≡ map (in_width Z.MAX_DEPTH W.MAX_DEPTH) (Z.numbers zuniqs.now) ++ replicate (length out.old - length zuniqs.now) 0 }
{
    for (i, &zuniq) in zuniqs.iter().enumerate() {
        out[i] = change_width(zuniq);
    }
    for place in zuniqs.len()..out.len() {
        out[place] = W::of_u64(0);
    }
}

// Writes the counts, and 0 behind them.
fn write_counts(counts: &[u32], out: &mut [u32])
    requires { length counts.now ≤ length out.old }
    ensures { out.new ≡ counts.now ++ replicate (length out.old - length counts.now) 0 }
{
    // No `copy_from_slice`: it calls memmove, which the archive would then need from outside.
    for (i, &count) in counts.iter().enumerate() {
        out[i] = count;
    }
    out[counts.len()..].fill(0);
}

// The zuniq of the same cell: a wider one has more zeros behind it.
fn change_width<Z: ZUniqHashT, W: ZUniqHashT>(zuniq: Z) -> W
    requires { MovesTo Z.MAX_DEPTH W.MAX_DEPTH (Z.number «zuniq») }
    ensures { W.number result ≡ in_width Z.MAX_DEPTH W.MAX_DEPTH (Z.number «zuniq») }
{
    let number = zuniq.as_u64();
    let from = Z::MAX_DEPTH;
    let to = W::MAX_DEPTH;
    if from < to {
        W::of_u64(number << (DIM * (to - from)))
    } else {
        W::of_u64(number >> (DIM * (from - to)))
    }
}
