// The count merger.
ghost use Rattle.std.specs.Prelude.{◌≡◌, ◌+◌, ◌<◌, ◌≤◌, ◌&&◌, ◌||◌, nat_le};
ghost use Rattle.zuniq.specs.Cells.{n_hash};
ghost use Rattle.merger.specs.Merge.{merges, merged, chi_of_counts, blank, merge_counts, accept_counts, count_merger};
ghost use Rattle.merger.specs.Laws.{sum_of_accepted};

use super::{Merge, Merger, check_quad, merges, sum_of};
use protection::Protected;
use refusal::Refusal;
use zuniq::ZUniqHashT;

const MAX_COUNT: u64 = 4_294_967_295;

// The source's `new_chi2_count_merger_with_depth_threshold`, called on a parent and its four counts; all are
// parameters of their own, as C hands them.
#[tactic(auto, unfolding(crate::specs::Merge::count_merger))]
pub fn chi2_count_merger(
    parent_depth: u8,
    parent_hash: u64,
    depth_threshold: u8,
    chi2_threshold: f64,
    protected: &[u64],
    n0: u32,
    n1: u32,
    n2: u32,
    n3: u32,
) -> Result<Merge<u32>, Refusal>
    ensures { result ≡ count_merger protected.now depth_threshold chi2_threshold parent_depth parent_hash n0 n1 n2 n3 }
{
    let protected = check_quad(
        parent_depth,
        parent_hash,
        depth_threshold,
        chi2_threshold,
        protected,
    )?;
    if n0 as u64 + n1 as u64 + n2 as u64 + n3 as u64 > MAX_COUNT {
        return Err(Refusal::CountOverflow(0));
    }
    let merger = CountMerger {
        depth_threshold,
        chi2_threshold,
        protected,
    };
    Ok(merger.merge(parent_depth, parent_hash, n0, n1, n2, n3))
}

// The count merger for parents of either width.
#[derive(Clone, Copy)]
pub struct CountMerger<'a, Z: ZUniqHashT> {
    pub depth_threshold: u8,
    pub chi2_threshold: f64,
    pub protected: Protected<'a, Z>,
}

impl<'a, Z: ZUniqHashT> Merger for CountMerger<'a, Z> {
    type Zuniq = Z;

    type Value = u32;

    ghost accept = { λ m p h n0 n1 n2 n3. accept_counts Z.MAX_DEPTH (Z.numbers m.protected.zuniqs.now) m.depth_threshold m.chi2_threshold p h n0 n1 n2 n3 };

    ghost weight = { λ n. n };

    // For four counts whose sum fits a u32. The list is searched last, and only for what would be merged
    // without it: a listed parent keeps its four, blank or not, with their chi-square.
    #[tactic(auto, unfolding(crate::specs::Merge::accept_counts, crate::specs::Merge::merge_counts, crate::specs::Merge::merge_by_chi))]
    fn merge(
        &self,
        parent_depth: u8,
        parent_hash: u64,
        n0: u32,
        n1: u32,
        n2: u32,
        n3: u32,
    ) -> Merge<u32>
        requires cell { (parent_depth ≤ Z.MAX_DEPTH) × (parent_hash < n_hash parent_depth) }
        requires fits { n0 + n1 + n2 + n3 ≤ 4294967295 }
        ensures accepts { merged result ≡ accept_counts Z.MAX_DEPTH (Z.numbers self.now.protected.zuniqs.now) self.now.depth_threshold self.now.chi2_threshold parent_depth parent_hash n0 n1 n2 n3 }
        ensures answer { result ≡ merge_counts Z.MAX_DEPTH (Z.numbers self.now.protected.zuniqs.now) self.now.depth_threshold self.now.chi2_threshold parent_depth parent_hash n0 n1 n2 n3 }
    {
        let chi2 = chi2_of_counts(n0, n1, n2, n3);
        if self.merges(parent_depth, chi2, n0, n1, n2, n3)
            && !self.protected.contains(parent_depth, parent_hash)
        {
            return Merge::Merged(n0 + n1 + n2 + n3);
        }
        Merge::Kept(chi2)
    }

    ghost keeps_weight = { λ m p h n0 n1 n2 n3 n e. sum_of_accepted Z.MAX_DEPTH (Z.numbers m.protected.zuniqs.now) m.depth_threshold m.chi2_threshold p h n0 n1 n2 n3 n e };
}

impl<'a, Z: ZUniqHashT> CountMerger<'a, Z> {
    // Whether four counts with this chi-square are merged, if nothing protects their parent. Blank sky is
    // merged at any T: its chi-square is 0, and a T of 0 or less would keep it. It is looked for last, among
    // what would be kept, so that who merges by the chi-square pays nothing for it.
    fn merges(&self, parent_depth: u8, chi2: f64, n0: u32, n1: u32, n2: u32, n3: u32) -> bool
        requires { n0 + n1 + n2 + n3 ≤ 4294967295 }
        ensures { result ≡ (merges self.now.depth_threshold self.now.chi2_threshold parent_depth chi2 || (nat_le self.now.depth_threshold parent_depth && blank n0 n1 n2 n3)) }
    {
        merges(
            parent_depth,
            self.depth_threshold,
            self.chi2_threshold,
            chi2,
        ) || parent_depth >= self.depth_threshold && are_blank(n0, n1, n2, n3)
    }
}

// Whether there is no source in any of the four. Most quads are told by the first.
fn are_blank(n0: u32, n1: u32, n2: u32, n3: u32) -> bool
    requires { n0 + n1 + n2 + n3 ≤ 4294967295 }
    ensures { result ≡ blank n0 n1 n2 n3 }
{
    n0 == 0 && n1 + n2 + n3 == 0
}

// The chi-square of four counts about their common mean, after Pineau et al. 2017. A count n_i has
// the variance n_i, so the mean weighted by the inverse variances is 4 / w, w being the sum of the
// 1 / n_i, and
//     chi2 = sum of (n_i - 4 / w)^2 / n_i = (sum of n_i) - 4 * (4 / w).
// A zero makes w infinite and chi2 the sum. Of counts above 0 the f64 is within 1 part in 2^50 of the sum
// from that number (note 9 of 02: `chi_near` in proofs/ChiError).
#[tactic(auto, using(crate::proofs::Floats::literals), unfolding(crate::specs::Merge::chi_of_counts))]
fn chi2_of_counts(n0: u32, n1: u32, n2: u32, n3: u32) -> f64
    ensures { result ≡ chi_of_counts n0 n1 n2 n3 }
{
    let mu0 = n0 as f64;
    let mu1 = n1 as f64;
    let mu2 = n2 as f64;
    let mu3 = n3 as f64;
    let w = sum_of(1.0 / mu0, 1.0 / mu1, 1.0 / mu2, 1.0 / mu3);
    sum_of(mu0, mu1, mu2, mu3) - 4.0 * (4.0 / w)
}
