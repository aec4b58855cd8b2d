// The area that observers can reach, from C: note 6 of document 02. It is a coverage, half-open ranges of
// hashes of depth 29, starts and ends in two paired buffers. The word has the number of ranges or cells.
//
// Refused: a depth over 29 (number 1); paired buffers that differ in length, in or out (4); an invalid map
// (5); to clip, a density that is NaN, infinite or below 0 (6), and a range that is empty, ends past the sky
// or does not start above the end before (14); too little space (11).
ghost use Rattle.std.specs.Prelude.{◌≡◌};
ghost use Rattle.combine.specs.Pool.{Given};
ghost use Rattle.coverage.specs.Coverage.{coverage_call};
ghost use Rattle.clip.specs.Call.{clip_call};
ghost use Rattle.mom_c.specs.Answers.{buffers_told};

use clip::clip;
use coverage::coverage;
use words::number_word;

// Writes the coverage of a map into two output buffers: the number of ranges.
#[unsafe(no_mangle)]
pub extern "C" fn mom_coverage(
    depth: u8,
    zuniqs: &[u64],
    starts: &mut [u64],
    ends: &mut [u64],
) -> u64
    ensures { (result, starts.new, ends.new) ≡ buffers_told (coverage_call depth zuniqs.now starts.old ends.old) }
{
    number_word(coverage(depth, zuniqs, starts, ends))
}

// Clips a density map to a coverage, into two output buffers: the number of cells.
#[unsafe(no_mangle)]
pub extern "C" fn mom_clip(
    depth: u8,
    map_zuniqs: &[u64],
    map_densities: &[f64],
    starts: &[u64],
    ends: &[u64],
    zuniqs: &mut [u64],
    densities: &mut [f64],
) -> u64
    ensures { (result, zuniqs.new, densities.new) ≡ buffers_told (clip_call (record { depth = depth; zuniqs = map_zuniqs.now; values = map_densities.now }) starts.now ends.now zuniqs.old densities.old) }
{
    number_word(clip(
        depth,
        map_zuniqs,
        map_densities,
        starts,
        ends,
        zuniqs,
        densities,
    ))
}
