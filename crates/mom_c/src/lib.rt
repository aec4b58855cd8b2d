// The C functions: section 7 of the scope, on numbers and byte slices. `ingest` has those of the Rust
// ingest process: rows, and the check and lookup of maps that come as rows. `domes` has those of the
// dome boxes, `widths` what goes between the two widths, `disks` rows laid out by byte column, and
// `reach` the area that observers can reach.
// Those here are for the comparison with the original and the benchmark; the check and lookup take the
// zuniqs of a map.
//
// A call answers one word, which `words` makes of the library's answer. What does not fit goes through
// a `&mut` number, which is written on acceptance alone: a refusal touches nothing.
#![tactic(auto)]

ghost use Rattle.std.specs.Prelude.{◌≡◌};
ghost use Rattle.words.specs.Words.{value_word, decoded_word, overlap_word, count_merger_word, density_merger_word, map_check_word};
ghost use Rattle.mom_c.specs.Answers.{ContainingIs, RunIs, counts_added_word, buffers_told};
ghost use Rattle.zuniq.specs.Codec.{cell_number, encode, decode, overlap_test};
ghost use Rattle.merger.specs.Merge.{count_merger, density_merger};
ghost use Rattle.mom.specs.Map.{map_check};
ghost use Rattle.build.specs.Counts.{add_counts};
ghost use Rattle.build.specs.Densities.{add_densities};

use build_counts::add_counts;
use build_densities::add_densities;
use lookup::{get_cell_containing, get_overlapped_run};
use merger::{chi2_count_merger, chi2_density_merger};
use mom::check_is_mom;
use words::{
    cell_word, containing_word, count_merger_word, counts_word, density_merger_word,
    map_check_word, number_word, overlap_word, run_word, value_word,
};
use zuniq::ZUniqHashT;

mod combining;
mod disks;
mod domes;
mod ingest;
mod reach;
mod widths;

// The number of cells at a depth.
#[unsafe(no_mangle)]
pub extern "C" fn mom_n_hash(depth: u8, n_hash: &mut u64) -> u64
    ensures { (result, n_hash.new) ≡ value_word (cell_number 29 depth) n_hash.old }
{
    value_word(zuniq::n_hash(depth), n_hash)
}

// The zuniq of a cell.
#[unsafe(no_mangle)]
pub extern "C" fn mom_to_zuniq(depth: u8, hash: u64, zuniq: &mut u64) -> u64
    ensures { (result, «zuniq».new) ≡ value_word (encode 29 depth hash) «zuniq».old }
{
    value_word(u64::to_zuniq(depth, hash), zuniq)
}

// The cell of a zuniq, or that there is none.
#[unsafe(no_mangle)]
pub extern "C" fn mom_from_zuniq(zuniq: u64, depth: &mut u8, hash: &mut u64) -> u64
    ensures { (result, depth.new, hash.new) ≡ decoded_word (decode 29 «zuniq») depth.old hash.old }
{
    cell_word(zuniq, depth, hash)
}

// Whether two zuniqs overlap, 1 or 0.
#[unsafe(no_mangle)]
pub extern "C" fn mom_are_overlapping(zuniq_l: u64, zuniq_r: u64) -> u64
    ensures { result ≡ overlap_word (overlap_test 29 zuniq_l zuniq_r) }
{
    overlap_word(u64::are_overlapping(zuniq_l, zuniq_r))
}

// The count of a parent's four merged children, or that they are kept, with their chi-square.
#[unsafe(no_mangle)]
pub extern "C" fn mom_chi2_count_merger(
    parent_depth: u8,
    parent_hash: u64,
    depth_threshold: u8,
    chi2_threshold: f64,
    protected: &[u64],
    n0: u32,
    n1: u32,
    n2: u32,
    n3: u32,
    chi2: &mut f64,
) -> u64
    ensures { (result, chi2.new) ≡ count_merger_word (count_merger protected.now depth_threshold chi2_threshold parent_depth parent_hash n0 n1 n2 n3) chi2.old }
{
    let answer = chi2_count_merger(
        parent_depth,
        parent_hash,
        depth_threshold,
        chi2_threshold,
        protected,
        n0,
        n1,
        n2,
        n3,
    );
    count_merger_word(answer, chi2)
}

// The density of a parent's four merged children, or that they are kept, with their chi-square.
#[unsafe(no_mangle)]
pub extern "C" fn mom_chi2_density_merger(
    parent_depth: u8,
    parent_hash: u64,
    depth_threshold: u8,
    chi2_threshold: f64,
    protected: &[u64],
    m0: f64,
    m1: f64,
    m2: f64,
    m3: f64,
    answer: &mut f64,
) -> u64
    ensures { (result, answer.new) ≡ density_merger_word (density_merger protected.now depth_threshold chi2_threshold parent_depth parent_hash m0 m1 m2 m3) answer.old }
{
    let merged = chi2_density_merger(
        parent_depth,
        parent_hash,
        depth_threshold,
        chi2_threshold,
        protected,
        m0,
        m1,
        m2,
        m3,
    );
    density_merger_word(merged, answer)
}

// Whether a map is valid, or its first fault with the place.
#[unsafe(no_mangle)]
pub extern "C" fn mom_check_is_mom_zuniqs(depth: u8, zuniqs: &[u64]) -> u64
    ensures { result ≡ map_check_word (map_check 29 depth zuniqs.now) }
{
    map_check_word(check_is_mom(depth, zuniqs))
}

// The place of the entry in which a cell of the map's depth lies, or that there is none.
#[unsafe(no_mangle)]
pub extern "C" fn mom_get_cell_containing_zuniqs(depth: u8, zuniqs: &[u64], zuniq: u64) -> u64
    ensures { ContainingIs 29 depth zuniqs.now «zuniq» result }
{
    containing_word(get_cell_containing(depth, zuniqs, zuniq))
}

// The entries that overlap a query: the place of the first, and their number.
#[unsafe(no_mangle)]
pub extern "C" fn mom_get_overlapped_cells_zuniqs(
    zuniqs: &[u64],
    zuniq: u64,
    number: &mut usize,
) -> u64
    ensures { RunIs 29 zuniqs.now «zuniq» number.old result number.new }
{
    run_word(get_overlapped_run(zuniqs, zuniq), number)
}

// Adds a batch of counts to a map in two buffers: the number of entries, and their total.
#[unsafe(no_mangle)]
pub extern "C" fn mom_add_counts(
    depth: u8,
    depth_threshold: u8,
    chi2_threshold: f64,
    protected: &[u64],
    held: usize,
    zuniqs: &mut [u64],
    counts: &mut [u32],
    hashes: &[u64],
    batch: &[u32],
    total: &mut u32,
) -> u64
    ensures { (result, total.new, zuniqs.new, counts.new) ≡ counts_added_word (add_counts 29 protected.now depth depth_threshold chi2_threshold held zuniqs.old counts.old hashes.now batch.now) total.old }
{
    let added = add_counts(
        depth,
        depth_threshold,
        chi2_threshold,
        protected,
        held,
        zuniqs,
        counts,
        hashes,
        batch,
    );
    counts_word(added, total)
}

// Adds a batch of densities to a map in two buffers: the number of entries.
#[unsafe(no_mangle)]
pub extern "C" fn mom_add_densities(
    depth: u8,
    depth_threshold: u8,
    chi2_threshold: f64,
    protected: &[u64],
    held: usize,
    zuniqs: &mut [u64],
    densities: &mut [f64],
    hashes: &[u64],
    batch: &[f64],
) -> u64
    ensures { (result, zuniqs.new, densities.new) ≡ buffers_told (add_densities protected.now depth depth_threshold chi2_threshold held zuniqs.old densities.old hashes.now batch.now) }
{
    number_word(add_densities(
        depth,
        depth_threshold,
        chi2_threshold,
        protected,
        held,
        zuniqs,
        densities,
        hashes,
        batch,
    ))
}
