// Combining maps from C: the pool of two count maps, done at once or asked for before, and the product
// of two density maps.
ghost use Rattle.std.specs.Prelude.{◌≡◌};
ghost use Rattle.words.specs.Words.{asked_word};
ghost use Rattle.combine.specs.Pool.{Given, pool_counts, product_densities};
ghost use Rattle.combine.specs.Ask.{ask_counts, commit_counts};
ghost use Rattle.mom_c.specs.Answers.{counts_added_word, buffers_told};

use ask::{ask, commit};
use combine::counts::Figures;
use pool::pool;
use product::product;
use words::{asked_word, counts_word, number_word};

// Pools two count maps into two output buffers: the number of entries, and their total.
#[unsafe(no_mangle)]
pub extern "C" fn mom_pool(
    left_depth: u8,
    left_zuniqs: &[u64],
    left_counts: &[u32],
    right_depth: u8,
    right_zuniqs: &[u64],
    right_counts: &[u32],
    depth_threshold: u8,
    chi2_threshold: f64,
    protected: &[u64],
    zuniqs: &mut [u64],
    counts: &mut [u32],
    total: &mut u32,
) -> u64
    ensures { (result, total.new, zuniqs.new, counts.new) ≡ counts_added_word (pool_counts protected.now (record { depth = left_depth; zuniqs = left_zuniqs.now; values = left_counts.now }) (record { depth = right_depth; zuniqs = right_zuniqs.now; values = right_counts.now }) depth_threshold chi2_threshold zuniqs.old counts.old) total.old }
{
    let pooled = pool(
        left_depth,
        left_zuniqs,
        left_counts,
        right_depth,
        right_zuniqs,
        right_counts,
        depth_threshold,
        chi2_threshold,
        protected,
        zuniqs,
        counts,
    );
    counts_word(pooled, total)
}

// Asks for the pool of two count maps: the cells of the overlay, the entries after merging, the total.
#[unsafe(no_mangle)]
pub extern "C" fn mom_ask(
    left_depth: u8,
    left_zuniqs: &[u64],
    left_counts: &[u32],
    right_depth: u8,
    right_zuniqs: &[u64],
    right_counts: &[u32],
    depth_threshold: u8,
    chi2_threshold: f64,
    protected: &[u64],
    cells: &mut usize,
    entries: &mut usize,
    total: &mut u32,
) -> u64
    ensures { (result, cells.new, entries.new, total.new) ≡ asked_word (ask_counts protected.now (record { depth = left_depth; zuniqs = left_zuniqs.now; values = left_counts.now }) (record { depth = right_depth; zuniqs = right_zuniqs.now; values = right_counts.now }) depth_threshold chi2_threshold) cells.old entries.old total.old }
{
    let answer = ask(
        left_depth,
        left_zuniqs,
        left_counts,
        right_depth,
        right_zuniqs,
        right_counts,
        depth_threshold,
        chi2_threshold,
        protected,
    );
    asked_word(answer, cells, entries, total)
}

// Pools two count maps with the figures of an ask: the number of entries, and their total.
#[unsafe(no_mangle)]
pub extern "C" fn mom_commit(
    left_depth: u8,
    left_zuniqs: &[u64],
    left_counts: &[u32],
    right_depth: u8,
    right_zuniqs: &[u64],
    right_counts: &[u32],
    depth_threshold: u8,
    chi2_threshold: f64,
    protected: &[u64],
    cells: usize,
    entries: usize,
    asked_total: u32,
    zuniqs: &mut [u64],
    counts: &mut [u32],
    total: &mut u32,
) -> u64
    ensures { (result, total.new, zuniqs.new, counts.new) ≡ counts_added_word (commit_counts protected.now (record { depth = left_depth; zuniqs = left_zuniqs.now; values = left_counts.now }) (record { depth = right_depth; zuniqs = right_zuniqs.now; values = right_counts.now }) depth_threshold chi2_threshold (record { cells = cells; entries = entries; total = asked_total }) zuniqs.old counts.old) total.old }
{
    let figures = Figures {
        cells,
        entries,
        total: asked_total,
    };
    let committed = commit(
        left_depth,
        left_zuniqs,
        left_counts,
        right_depth,
        right_zuniqs,
        right_counts,
        depth_threshold,
        chi2_threshold,
        protected,
        figures,
        zuniqs,
        counts,
    );
    counts_word(committed, total)
}

// Multiplies two density maps into two output buffers: the number of entries.
#[unsafe(no_mangle)]
pub extern "C" fn mom_product(
    left_depth: u8,
    left_zuniqs: &[u64],
    left_densities: &[f64],
    right_depth: u8,
    right_zuniqs: &[u64],
    right_densities: &[f64],
    depth_threshold: u8,
    chi2_threshold: f64,
    k: f64,
    protected: &[u64],
    zuniqs: &mut [u64],
    densities: &mut [f64],
) -> u64
    ensures { (result, zuniqs.new, densities.new) ≡ buffers_told (product_densities protected.now (record { depth = left_depth; zuniqs = left_zuniqs.now; values = left_densities.now }) (record { depth = right_depth; zuniqs = right_zuniqs.now; values = right_densities.now }) depth_threshold chi2_threshold k zuniqs.old densities.old) }
{
    number_word(product(
        left_depth,
        left_zuniqs,
        left_densities,
        right_depth,
        right_zuniqs,
        right_densities,
        depth_threshold,
        chi2_threshold,
        k,
        protected,
        zuniqs,
        densities,
    ))
}
