// The mergers of four siblings into their parent: section 2 of the scope, blank sky (note 4 of 02) and
// protected parents (notes 7 and 11).
//
// Four siblings are merged where the parent's depth is at least M, the depth threshold, their
// chi-square, with 3 degrees of freedom, is strictly below T, the chi-square threshold, and the parent is
// not protected. Four counts of 0 are merged at any T, but not under a protected parent either. The merged
// count is the sum, the merged density a quarter of the sum. Otherwise the four are kept, and the answer
// carries the chi-square that was found.
//
// `chi2_count_merger` and `chi2_density_merger` refuse, in this order: a parent depth over 28 (number
// 1), M over 29 (2), T a NaN (3), a list of protected parents that is no rising one of zuniqs (15, place:
// the index), a parent hash that its depth does not have (7), a density that is NaN, infinite or below 0
// (9, place: the child; -0 is accepted), counts whose sum exceeds a u32 (10). `CountMerger` and
// `DensityMerger` refuse nothing: they are for callers that have checked their input.
#![tactic(auto)]

ghost use Rattle.std.specs.Prelude.{◌≡◌, ◌+◌, ◌<◌, ◌≤◌, ℕ, MatchResult, OnOk};
ghost use Rattle.std.proofs.Math.Option.{Option, none, some};
ghost use Rattle.zuniq.specs.Cells.{n_hash};
ghost use Rattle.merger.specs.Merge.{merges, sum_of, quad_refusal, merged};

use protection::Protected;
use refusal::Refusal;
use zuniq::{ZUniqHashT, n_hash_unchecked};

mod count_merger;
mod density_merger;

pub use count_merger::{CountMerger, chi2_count_merger};
pub use density_merger::{DensityMerger, chi2_density_merger, invalid_density, unit_density};

// What becomes of four siblings: their parent's value, or that they are kept, with their chi-square. An
// enum of our own and no Result: the scope names it.
#[derive(Clone, Copy)]
pub enum Merge<V> {
    Merged(V),
    Kept(f64),
}

// A merger of four siblings, with its settings: M, T and the protected parents.
pub trait Merger {
    // The zuniqs among which it merges, and the values beside them.
    type Zuniq: ZUniqHashT;

    type Value: Copy;
    // The parent's value, by the parent's depth and hash and the four values, where it accepts them.
    ghost accept: { Self → ℕ → ℕ → Self.Value → Self.Value → Self.Value → Self.Value → Option Self.Value };
    // What a value adds to a total that has to fit a u32: a count itself, a density nothing.
    ghost weight: { Self.Value → ℕ };

    // The merger, called on a parent and its four values, one by one as C hands them. It refuses nothing.
    fn merge(
        &self,
        parent_depth: u8,
        parent_hash: u64,
        v0: Self::Value,
        v1: Self::Value,
        v2: Self::Value,
        v3: Self::Value,
    ) -> Merge<Self::Value>
        requires cell { (parent_depth ≤ Self.Zuniq.MAX_DEPTH) × (parent_hash < n_hash parent_depth) }
        requires fits { weight v0 + weight v1 + weight v2 + weight v3 ≤ 4294967295 }
        ensures accepts { merged result ≡ accept self.now parent_depth parent_hash v0 v1 v2 v3 };

    // Merging leaves the total as it was.
    ghost keeps_weight: { (m : Self) (d h : ℕ) (a b c e x : Self.Value) → accept m d h a b c e ≡ some x → weight x ≡ weight a + weight b + weight c + weight e };
}

// Cells of the largest depth have no children.
const MAX_PARENT_DEPTH: u8 = u64::MAX_DEPTH - 1;

// What both merger calls refuse of a parent, in the order of the table: rows 1 to 3, 15 and 7.
#[tactic(auto, unfolding(crate::specs::Merge::quad_refusal))]
fn check_quad<'a>(
    parent_depth: u8,
    parent_hash: u64,
    depth_threshold: u8,
    chi2_threshold: f64,
    protected: &'a [u64],
) -> Result<Protected<'a, u64>, Refusal>
    ensures cases { MatchResult result (λ p. (p.zuniqs.now ≡ protected.now) × (quad_refusal protected.now depth_threshold chi2_threshold parent_depth parent_hash ≡ none)) (λ r. quad_refusal protected.now depth_threshold chi2_threshold parent_depth parent_hash ≡ some r) }
    ensures cell { OnOk result ((parent_depth ≤ 28) × (parent_hash < n_hash parent_depth)) }
{
    if parent_depth > MAX_PARENT_DEPTH {
        return Err(Refusal::DepthOutOfRange);
    }
    if depth_threshold > u64::MAX_DEPTH {
        return Err(Refusal::DepthThresholdOutOfRange);
    }
    if chi2_threshold.is_nan() {
        return Err(Refusal::Chi2ThresholdIsNan);
    }
    let protected = Protected::check(protected)?;
    if parent_hash >= n_hash_unchecked(parent_depth) {
        return Err(Refusal::HashOutOfRange(0));
    }
    Ok(protected)
}

// Whether four siblings with this chi-square are merged, if nothing protects their parent.
fn merges(parent_depth: u8, depth_threshold: u8, chi2_threshold: f64, chi2: f64) -> bool
    ensures { result ≡ merges depth_threshold chi2_threshold parent_depth chi2 }
{
    parent_depth >= depth_threshold && chi2 < chi2_threshold
}

fn sum_of(x0: f64, x1: f64, x2: f64, x3: f64) -> f64
    ensures { result ≡ sum_of x0 x1 x2 x3 }
{
    ((x0 + x1) + x2) + x3
}
