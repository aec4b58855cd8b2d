// The C functions of narrow maps, for the dome boxes: note 2 of document 02. Rows are of 8 bytes, a u32
// zuniq and a u32 count, and the check and lookup of a map that comes as rows take at most 4,096 of
// them. Those with `_zuniqs` behind their name take the zuniqs of a map, of any length.
//
// Refused: a depth over 13 (number 1); everything else as by the function of the same name for u64
// zuniqs.
ghost use Rattle.std.specs.Prelude.{◌≡◌};
ghost use Rattle.zuniq.specs.Codec.{encode, decode, overlap_test};
ghost use Rattle.mom.specs.Map.{map_check};
ghost use Rattle.build.specs.Counts.{add_counts};
ghost use Rattle.rows.specs.Rows.{narrow_rows, read_rows, write_rows};
ghost use Rattle.map_rows.specs.MapRows.{narrow, check_rows};
ghost use Rattle.words.specs.Words.{value_word, decoded_word, overlap_word, map_check_word};
ghost use Rattle.mom_c.specs.Answers.{ContainingIs, RunIs, counts_added_word, number_told};
ghost use Rattle.mom_c.specs.Ingest.{ContainingInRows, RunInRows};

use build_counts::add_counts;
use lookup::{get_cell_containing, get_overlapped_run};
use map_rows::{
    check_is_mom as check_rows, get_cell_containing as get_row_containing,
    get_overlapped_run as get_overlapped_rows,
};
use mom::check_is_mom;
use rows::{read_rows, write_rows};
use words::{
    cell_word, containing_word, counts_word, map_check_word, number_word, overlap_word, run_word,
    value_word,
};
use zuniq::ZUniqHashT;

// The zuniq of a cell.
#[unsafe(no_mangle)]
pub extern "C" fn mom32_to_zuniq(depth: u8, hash: u32, zuniq: &mut u32) -> u64
    ensures { (result, «zuniq».new) ≡ value_word (encode 13 depth hash) «zuniq».old }
{
    value_word(u32::to_zuniq(depth, hash), zuniq)
}

// The cell of a zuniq, or that there is none.
#[unsafe(no_mangle)]
pub extern "C" fn mom32_from_zuniq(zuniq: u32, depth: &mut u8, hash: &mut u32) -> u64
    ensures { (result, depth.new, hash.new) ≡ decoded_word (decode 13 «zuniq») depth.old hash.old }
{
    cell_word(zuniq, depth, hash)
}

// Whether two zuniqs overlap, 1 or 0.
#[unsafe(no_mangle)]
pub extern "C" fn mom32_are_overlapping(zuniq_l: u32, zuniq_r: u32) -> u64
    ensures { result ≡ overlap_word (overlap_test 13 zuniq_l zuniq_r) }
{
    overlap_word(u32::are_overlapping(zuniq_l, zuniq_r))
}

// Reads rows into two buffers: the number of rows.
#[unsafe(no_mangle)]
pub extern "C" fn mom32_read_count_rows(bytes: &[u8], zuniqs: &mut [u32], counts: &mut [u32]) -> u64
    ensures { (result, narrow_rows zuniqs.new counts.new) ≡ number_told (read_rows (narrow_rows zuniqs.old counts.old) bytes.now) }
{
    number_word(read_rows(bytes, zuniqs, counts))
}

// Writes rows from two buffers: the number of rows.
#[unsafe(no_mangle)]
pub extern "C" fn mom32_write_count_rows(zuniqs: &[u32], counts: &[u32], bytes: &mut [u8]) -> u64
    ensures { (result, bytes.new) ≡ number_told (write_rows (narrow_rows zuniqs.now counts.now) bytes.old) }
{
    number_word(write_rows(zuniqs, counts, bytes))
}

// Whether rows are a valid map, or its first fault with the place.
#[unsafe(no_mangle)]
pub extern "C" fn mom32_check_is_mom(depth: u8, bytes: &[u8]) -> u64
    ensures { result ≡ map_check_word (check_rows narrow depth bytes.now) }
{
    map_check_word(check_rows::<u32>(depth, bytes))
}

// The row of the entry in which a cell of the map's depth lies, or that there is none.
#[unsafe(no_mangle)]
pub extern "C" fn mom32_get_cell_containing(depth: u8, bytes: &[u8], zuniq: u32) -> u64
    ensures { ContainingInRows narrow depth bytes.now «zuniq» result }
{
    containing_word(get_row_containing(depth, bytes, zuniq))
}

// The rows of the entries that overlap a query: the first, and their number.
#[unsafe(no_mangle)]
pub extern "C" fn mom32_get_overlapped_cells(bytes: &[u8], zuniq: u32, number: &mut usize) -> u64
    ensures { RunInRows narrow bytes.now «zuniq» number.old result number.new }
{
    run_word(get_overlapped_rows(bytes, zuniq), number)
}

// Whether a map is valid, or its first fault with the place.
#[unsafe(no_mangle)]
pub extern "C" fn mom32_check_is_mom_zuniqs(depth: u8, zuniqs: &[u32]) -> u64
    ensures { result ≡ map_check_word (map_check 13 depth zuniqs.now) }
{
    map_check_word(check_is_mom(depth, zuniqs))
}

// The place of the entry in which a cell of the map's depth lies, or that there is none.
#[unsafe(no_mangle)]
pub extern "C" fn mom32_get_cell_containing_zuniqs(depth: u8, zuniqs: &[u32], zuniq: u32) -> u64
    ensures { ContainingIs 13 depth zuniqs.now «zuniq» result }
{
    containing_word(get_cell_containing(depth, zuniqs, zuniq))
}

// The entries that overlap a query: the place of the first, and their number.
#[unsafe(no_mangle)]
pub extern "C" fn mom32_get_overlapped_cells_zuniqs(
    zuniqs: &[u32],
    zuniq: u32,
    number: &mut usize,
) -> u64
    ensures { RunIs 13 zuniqs.now «zuniq» number.old result number.new }
{
    run_word(get_overlapped_run(zuniqs, zuniq), number)
}

// Adds a batch of counts to a map in two buffers: the number of entries, and their total.
#[unsafe(no_mangle)]
pub extern "C" fn mom32_add_counts(
    depth: u8,
    depth_threshold: u8,
    chi2_threshold: f64,
    protected: &[u32],
    held: usize,
    zuniqs: &mut [u32],
    counts: &mut [u32],
    hashes: &[u32],
    batch: &[u32],
    total: &mut u32,
) -> u64
    ensures { (result, total.new, zuniqs.new, counts.new) ≡ counts_added_word (add_counts 13 protected.now depth depth_threshold chi2_threshold held zuniqs.old counts.old hashes.now batch.now) total.old }
{
    let added = add_counts(
        depth,
        depth_threshold,
        chi2_threshold,
        protected,
        held,
        zuniqs,
        counts,
        hashes,
        batch,
    );
    counts_word(added, total)
}
