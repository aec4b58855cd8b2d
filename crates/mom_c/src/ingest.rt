// The C functions that the Rust ingest process calls: rows, densities, and the check and lookup of a
// map that comes as count rows in bytes, at most 4,096 of them.
//
// Refused: a depth over 29 (number 1); paired buffers that differ in length, and bytes to be read
// that are no whole number of rows (4); too little space, and more than 4,096 rows of a map (11); a
// query that is no zuniq, or in `mom_get_cell_containing` not of the map's depth (12).
ghost use Rattle.std.specs.Prelude.{◌≡◌};
ghost use Rattle.rows.specs.Rows.{count_rows, density_rows, read_rows, write_rows};
ghost use Rattle.map_rows.specs.MapRows.{wide, check_rows};
ghost use Rattle.density.specs.Densities.{density_of_count, density_of_pattern, pattern_of_density};
ghost use Rattle.words.specs.Words.{map_check_word, value_word, found_word};
ghost use Rattle.mom_c.specs.Answers.{number_told};
ghost use Rattle.mom_c.specs.Ingest.{ContainingInRows, RunInRows};

use density::{density_of_count, density_of_pattern, pattern_of_density};
use map_rows::{check_is_mom, get_cell_containing, get_overlapped_run};
use rows::{read_rows, write_rows};
use words::{containing_word, found_word, map_check_word, number_word, run_word, value_word};

// Reads count rows into two buffers: the number of rows.
#[unsafe(no_mangle)]
pub extern "C" fn mom_read_count_rows(bytes: &[u8], zuniqs: &mut [u64], counts: &mut [u32]) -> u64
    ensures { (result, count_rows zuniqs.new counts.new) ≡ number_told (read_rows (count_rows zuniqs.old counts.old) bytes.now) }
{
    number_word(read_rows(bytes, zuniqs, counts))
}

// Reads density rows into two buffers, densities as their 64-bit patterns: the number of rows.
#[unsafe(no_mangle)]
pub extern "C" fn mom_read_density_rows(
    bytes: &[u8],
    zuniqs: &mut [u64],
    patterns: &mut [u64],
) -> u64
    ensures { (result, density_rows zuniqs.new patterns.new) ≡ number_told (read_rows (density_rows zuniqs.old patterns.old) bytes.now) }
{
    number_word(read_rows(bytes, zuniqs, patterns))
}

// Writes count rows from two buffers: the number of rows.
#[unsafe(no_mangle)]
pub extern "C" fn mom_write_count_rows(zuniqs: &[u64], counts: &[u32], bytes: &mut [u8]) -> u64
    ensures { (result, bytes.new) ≡ number_told (write_rows (count_rows zuniqs.now counts.now) bytes.old) }
{
    number_word(write_rows(zuniqs, counts, bytes))
}

// Writes density rows from two buffers, densities as their 64-bit patterns: the number of rows.
#[unsafe(no_mangle)]
pub extern "C" fn mom_write_density_rows(zuniqs: &[u64], patterns: &[u64], bytes: &mut [u8]) -> u64
    ensures { (result, bytes.new) ≡ number_told (write_rows (density_rows zuniqs.now patterns.now) bytes.old) }
{
    number_word(write_rows(zuniqs, patterns, bytes))
}

// The density of a count.
#[unsafe(no_mangle)]
pub extern "C" fn mom_density_of_count(depth: u8, count: u32, density: &mut f64) -> u64
    ensures { (result, density.new) ≡ value_word (density_of_count 29 count depth) density.old }
{
    value_word(density_of_count(depth, count), density)
}

// The density of a pattern, or that there is none.
#[unsafe(no_mangle)]
pub extern "C" fn mom_density_of_pattern(pattern: u64, density: &mut f64) -> u64
    ensures { (result, density.new) ≡ found_word (density_of_pattern pattern) density.old }
{
    found_word(density_of_pattern(pattern), density)
}

// The pattern of a density, or that there is none.
#[unsafe(no_mangle)]
pub extern "C" fn mom_pattern_of_density(density: f64, pattern: &mut u64) -> u64
    ensures { (result, pattern.new) ≡ found_word (pattern_of_density density) pattern.old }
{
    found_word(pattern_of_density(density), pattern)
}

// Whether count rows are a valid map, or its first fault with the place.
#[unsafe(no_mangle)]
pub extern "C" fn mom_check_is_mom(depth: u8, bytes: &[u8]) -> u64
    ensures { result ≡ map_check_word (check_rows wide depth bytes.now) }
{
    map_check_word(check_is_mom::<u64>(depth, bytes))
}

// The row of the entry in which a cell of the map's depth lies, or that there is none.
#[unsafe(no_mangle)]
pub extern "C" fn mom_get_cell_containing(depth: u8, bytes: &[u8], zuniq: u64) -> u64
    ensures { ContainingInRows wide depth bytes.now «zuniq» result }
{
    containing_word(get_cell_containing(depth, bytes, zuniq))
}

// The rows of the entries that overlap a query: the first, and their number.
#[unsafe(no_mangle)]
pub extern "C" fn mom_get_overlapped_cells(bytes: &[u8], zuniq: u64, number: &mut usize) -> u64
    ensures { RunInRows wide bytes.now «zuniq» number.old result number.new }
{
    run_word(get_overlapped_run(bytes, zuniq), number)
}
