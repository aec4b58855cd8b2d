// The density merger.
ghost use Rattle.std.specs.Prelude.{◌≡◌, ◌+◌, ◌<◌, ◌≤◌, ⊤, refl};
ghost use Rattle.zuniq.specs.Cells.{n_hash};
ghost use Rattle.merger.specs.Floats.{◌⊘◌, float, π, max, invalid_density};
ghost use Rattle.merger.specs.Merge.{merged, unit_density, chi_of_densities_with, merge_densities_with, merge_densities, accept_densities, first_invalid, density_merger};

use super::{Merge, Merger, check_quad, merges, sum_of};
use protection::Protected;
use refusal::Refusal;
use std::alloc::AllocError;
use zuniq::n_hash_unchecked;

// The f64 with bits 400921FB54442D18.
const PI: f64 = 3.141592653589793;

// The source's `new_chi2_density_merger`, called on a parent and its four densities, as C hands them.
#[tactic(auto, unfolding(crate::specs::Merge::density_merger))]
pub fn chi2_density_merger(
    parent_depth: u8,
    parent_hash: u64,
    depth_threshold: u8,
    chi2_threshold: f64,
    protected: &[u64],
    m0: f64,
    m1: f64,
    m2: f64,
    m3: f64,
) -> Result<Merge<f64>, Refusal>
    ensures { result ≡ density_merger protected.now depth_threshold chi2_threshold parent_depth parent_hash m0 m1 m2 m3 }
{
    let protected = check_quad(
        parent_depth,
        parent_hash,
        depth_threshold,
        chi2_threshold,
        protected,
    )?;
    if let Some(child) = first_invalid(m0, m1, m2, m3) {
        return Err(Refusal::InvalidDensity(child));
    }
    let merger = DensityMerger::new(parent_depth, depth_threshold, chi2_threshold, protected);
    Ok(merger.merge(parent_depth, parent_hash, m0, m1, m2, m3))
}

// The first of four densities that is invalid.
fn first_invalid(m0: f64, m1: f64, m2: f64, m3: f64) -> Option<usize>
    ensures { result ≡ first_invalid m0 m1 m2 m3 }
{
    [m0, m1, m2, m3].iter().position(|m| invalid_density(*m))
}

// The density merger. It keeps c of one parent depth, that of the cells of a batch: c takes a division.
pub struct DensityMerger<'a> {
    pub depth_threshold: u8,
    pub chi2_threshold: f64,
    pub protected: Protected<'a, u64>,
    pub parent_depth: u8,
    pub unit: f64,
    pub ghost unit_is: { unit ≡ unit_density parent_depth },
}

// By hand, since a struct with a fact derives neither.
impl<'a> Copy for DensityMerger<'a> {}

impl<'a> Clone for DensityMerger<'a> {
    ghost is_clone = { λ m n. n ≡ m };

    ghost is_infallible = { λ _. ⊤ };

    fn clone(&self) -> Result<Self, AllocError> {
        Ok(*self)
    }
}

impl<'a> DensityMerger<'a> {
    // A merger that keeps c of this parent depth.
    #[tactic(auto, unfolding(crate::specs::Merge::unit_density))]
    pub fn new(
        parent_depth: u8,
        depth_threshold: u8,
        chi2_threshold: f64,
        protected: Protected<'a, u64>,
    ) -> DensityMerger<'a>
        requires { parent_depth ≤ 29 }
        ensures { (result.depth_threshold ≡ depth_threshold) × (result.chi2_threshold ≡ chi2_threshold) × (result.protected.zuniqs.now ≡ protected.entry.zuniqs.now) × (result.parent_depth ≡ parent_depth) }
    {
        DensityMerger {
            depth_threshold,
            chi2_threshold,
            protected,
            parent_depth,
            unit: unit_density(n_hash_unchecked(parent_depth)),
        }
    }

    // The merger with a given c, for any four f64s. The list is searched only for what the chi-square
    // would merge. Adding is a sixth faster where this is no call.
    #[tactic(auto, using(crate::proofs::Floats::literals), unfolding(crate::specs::Merge::merge_densities_with, crate::specs::Merge::merge_densities_by_chi))]
    #[inline]
    pub fn merge_with(
        &self,
        c: f64,
        parent_depth: u8,
        parent_hash: u64,
        m0: f64,
        m1: f64,
        m2: f64,
        m3: f64,
    ) -> Merge<f64>
        requires { (parent_depth ≤ 29) × (parent_hash < n_hash parent_depth) }
        ensures { result ≡ merge_densities_with c self.now.protected.zuniqs.now self.now.depth_threshold self.now.chi2_threshold parent_depth parent_hash m0 m1 m2 m3 }
    {
        let chi2 = chi2_of_densities(c, m0, m1, m2, m3);
        if merges(
            parent_depth,
            self.depth_threshold,
            self.chi2_threshold,
            chi2,
        ) && !self.protected.contains(parent_depth, parent_hash)
        {
            return Merge::Merged(sum_of(m0, m1, m2, m3) / 4.0);
        }
        Merge::Kept(chi2)
    }

    // c at a parent depth.
    #[tactic(auto, unfolding(crate::specs::Merge::unit_density))]
    fn unit_at(&self, parent_depth: u8) -> f64
        requires { parent_depth ≤ 29 }
        ensures { result ≡ unit_density parent_depth }
    {
        if parent_depth == self.parent_depth {
            return self.unit;
        }
        unit_density(n_hash_unchecked(parent_depth))
    }
}

impl<'a> Merger for DensityMerger<'a> {
    type Zuniq = u64;

    type Value = f64;

    ghost accept = { λ m p h m0 m1 m2 m3. accept_densities m.protected.zuniqs.now m.depth_threshold m.chi2_threshold p h m0 m1 m2 m3 };

    ghost weight = { λ m. 0 };

    #[tactic(auto, unfolding(crate::specs::Merge::accept_densities))]
    #[inline]
    fn merge(
        &self,
        parent_depth: u8,
        parent_hash: u64,
        m0: f64,
        m1: f64,
        m2: f64,
        m3: f64,
    ) -> Merge<f64>
        requires cell { (parent_depth ≤ 29) × (parent_hash < n_hash parent_depth) }
        ensures accepts { merged result ≡ accept_densities self.now.protected.zuniqs.now self.now.depth_threshold self.now.chi2_threshold parent_depth parent_hash m0 m1 m2 m3 }
        ensures answer { result ≡ merge_densities self.now.protected.zuniqs.now self.now.depth_threshold self.now.chi2_threshold parent_depth parent_hash m0 m1 m2 m3 }
    {
        let c = self.unit_at(parent_depth);
        self.merge_with(c, parent_depth, parent_hash, m0, m1, m2, m3)
    }

    ghost keeps_weight = { λ m p h m0 m1 m2 m3 x e. refl };
}

// The chi-square of four densities, as that of four counts. A child has the surface 1 / c, so a
// density m_i has the variance m_i * c, here that of one source where m_i is less, and
//     chi2 = ((sum of m_i) - 4 * (4 / w)) / c, w being the sum of the 1 / max(m_i, c).
#[tactic(auto, using(crate::proofs::Floats::literals), unfolding(crate::specs::Merge::chi_of_densities_with))]
fn chi2_of_densities(c: f64, m0: f64, m1: f64, m2: f64, m3: f64) -> f64
    ensures { result ≡ chi_of_densities_with c m0 m1 m2 m3 }
{
    let w = sum_of(
        1.0 / max(m0, c),
        1.0 / max(m1, c),
        1.0 / max(m2, c),
        1.0 / max(m3, c),
    );
    (sum_of(m0, m1, m2, m3) - 4.0 * (4.0 / w)) / c
}

// c, the density of one source in a child of a cell, where the sky has `n_hash` such cells: it has
// four times as many children, and the surface 4 pi.
pub fn unit_density(n_hash: u64) -> f64
    ensures { result ≡ float n_hash ⊘ π }
{
    std::num::nearest_u64_to_f64(n_hash) / PI
}

// One comparison: c where m is a NaN.
fn max(m: f64, c: f64) -> f64
    ensures { result ≡ max m c }
{
    if m > c { m } else { c }
}

// NaN, infinite or below 0. A NaN is not at least 0, and times 0 only what is finite is 0. Of a
// comparison with infinity the compiler would make tests of the bits, which take longer.
#[tactic(auto, using(crate::proofs::Floats::density_tests))]
pub fn invalid_density(x: f64) -> bool
    ensures { result ≡ invalid_density x }
{
    if x >= 0.0 {
        return x * 0.0 != 0.0;
    }
    true
}
