// The C functions that move a count map between widths: note 2 of document 02. The word has the number of
// entries, and the depth of the map in the output goes through a `&mut` number.
//
// Refused: a depth over 29, over 13 of a narrow map (number 1); zuniqs and counts that differ in number,
// in or out (4); an invalid map (5); an entry deeper than 13 that is narrowed (13); too little space (11).
ghost use Rattle.std.specs.Prelude.{◌≡◌};
ghost use Rattle.moving.specs.Moving.{moved};
ghost use Rattle.mom_c.specs.Answers.{moved_map_word};

use moving::move_map;
use words::moved_word;

// Writes a count map anew in u32 zuniqs: the number of entries, and the depth.
#[unsafe(no_mangle)]
pub extern "C" fn mom_narrow(
    depth: u8,
    zuniqs: &[u64],
    counts: &[u32],
    out_zuniqs: &mut [u32],
    out_counts: &mut [u32],
    out_depth: &mut u8,
) -> u64
    ensures { (result, out_depth.new, out_zuniqs.new, out_counts.new) ≡ moved_map_word (moved 29 13 depth zuniqs.now counts.now out_zuniqs.old out_counts.old) out_depth.old }
{
    let answer = move_map(depth, zuniqs, counts, out_zuniqs, out_counts);
    moved_word(answer, out_depth)
}

// Writes a narrow count map anew in u64 zuniqs: the number of entries, and the depth.
#[unsafe(no_mangle)]
pub extern "C" fn mom_widen(
    depth: u8,
    zuniqs: &[u32],
    counts: &[u32],
    out_zuniqs: &mut [u64],
    out_counts: &mut [u32],
    out_depth: &mut u8,
) -> u64
    ensures { (result, out_depth.new, out_zuniqs.new, out_counts.new) ≡ moved_map_word (moved 13 29 depth zuniqs.now counts.now out_zuniqs.old out_counts.old) out_depth.old }
{
    let answer = move_map(depth, zuniqs, counts, out_zuniqs, out_counts);
    moved_word(answer, out_depth)
}
