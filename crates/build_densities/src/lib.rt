// Adding densities. There is no total to keep, but held densities and those of the batch are checked:
// chi-square is told of finite densities from 0 up.
#![tactic(auto)]

ghost use Rattle.std.specs.Prelude.{◌≡◌, ◌≤◌, length};
ghost use Rattle.merger.specs.Floats.{invalid_density};
ghost use Rattle.refusal.specs.Checks.{or_else, check_of};
ghost use Rattle.build.specs.Add.{cells_refusal, space_refusal};
ghost use Rattle.build.specs.Densities.{density_refusal, add_densities};

use build::free::clear;
use build::stack::push_all;
use build::{check_cell, check_held, check_space};
use merger::{DensityMerger, invalid_density};
use refusal::Refusal;
use zuniq::n_hash_unchecked;

// Adds a batch of cells of one depth to the first `held` entries of a map in two buffers. Nothing is
// merged into a protected parent. Answers the number of entries. Settings, buffers and lists are parameters
// of their own, as C hands them.
pub fn add_densities(
    depth: u8,
    depth_threshold: u8,
    chi2_threshold: f64,
    protected: &[u64],
    held: usize,
    zuniqs: &mut [u64],
    densities: &mut [f64],
    hashes: &[u64],
    batch: &[f64],
) -> Result<usize, Refusal>
    ensures { (result, zuniqs.new, densities.new) ≡ add_densities protected.now depth depth_threshold chi2_threshold held zuniqs.old densities.old hashes.now batch.now }
{
    let map = check_held(
        depth,
        depth_threshold,
        chi2_threshold,
        protected,
        held,
        zuniqs,
        densities.len(),
        hashes.len(),
        batch.len(),
    )?;
    check_batch(
        depth,
        map.end,
        &densities[..held],
        zuniqs.len(),
        hashes,
        batch,
    )?;
    // Most quads are of the batch's depth. Base cells have no parent, and none asks.
    let parent_depth = depth.saturating_sub(1);
    let merger = DensityMerger::new(parent_depth, depth_threshold, chi2_threshold, map.protected);
    let entries = push_all(&merger, zuniqs, densities, held, depth, hashes, batch);
    clear(&mut zuniqs[entries..], 0);
    clear(&mut densities[entries..], 0.0);
    Ok(entries)
}

// Rows 6 to 9 and 11, of a batch behind a map that ends at `end` and holds these densities.
fn check_batch(
    depth: u8,
    end: u64,
    held: &[f64],
    places: usize,
    hashes: &[u64],
    batch: &[f64],
) -> Result<(), Refusal>
    requires { (depth ≤ 29) × (length hashes.now ≡ length batch.now) }
    ensures { result ≡ check_of (or_else (density_refusal 0 held.now) (or_else (cells_refusal invalid_density depth end 0 hashes.now batch.now) (space_refusal places (length held.now) (length hashes.now)))) }
{
    check_densities(held)?;
    check_cells(depth, end, hashes, batch)?;
    check_space(places, held.len(), hashes.len())
}

// Row 6.
pub fn check_densities(densities: &[f64]) -> Result<(), Refusal>
    ensures { result ≡ check_of (density_refusal 0 densities.now) }
{
    for (i, density) in densities.iter().enumerate() {
        if invalid_density(*density) {
            return Err(Refusal::InvalidMapDensity(i));
        }
    }
    Ok(())
}

// Rows 7, 8 and 9, tried cell by cell, for all cells of a batch.
fn check_cells(depth: u8, end: u64, hashes: &[u64], batch: &[f64]) -> Result<(), Refusal>
    requires { (depth ≤ 29) × (length hashes.now ≡ length batch.now) }
    ensures { result ≡ check_of (cells_refusal invalid_density depth end 0 hashes.now batch.now) }
{
    let n_hash = n_hash_unchecked(depth);
    let mut least = end;
    for (i, hash) in hashes.iter().enumerate() {
        check_cell(n_hash, least, *hash, i)?;
        if invalid_density(batch[i]) {
            return Err(Refusal::InvalidDensity(i));
        }
        least = *hash + 1;
    }
    Ok(())
}
