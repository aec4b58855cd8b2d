// What the product keeps of the overlay, and what is done with its cells: they are tried, and merged.
ghost use Rattle.std.specs.Prelude.{◌≡◌, List, [], ◌∷◌, ℕ, ◌<◌, Float};
ghost use Rattle.combine.specs.Rules.{kept_of, copy_density, product_rule};
ghost use Rattle.combine.specs.Heads.{shown_as};
ghost use Rattle.combine.specs.Densities.{product_cells, not_finite};
ghost use Rattle.combine.specs.Cells.{as_entry, zuniq_in, saw_of};
ghost use Rattle.combine.specs.Sinks.{cells_of, Carries, CanTake, Takes, Walked, Countable, NeverFails, Laid, Room};
ghost use Rattle.merger.specs.Merge.{accept_densities};
ghost use Rattle.product.specs.Sinks.{IsTried, NotFinite};

use build::stack::push;
use combine::by_heads::{Rule, Sink, walk};
use combine::cells::{Dhzv, LhsRhsBoth};
use combine::map::Map;
use merger::DensityMerger;
use refusal::Refusal;

// What an array of pending cells starts with.
const BLANK: Dhzv<f64> = Dhzv {
    depth: 0,
    hash: 0,
    zuniq: 0,
    value: 0.0,
};

// Walks the overlay of two valid maps, and has the sink take the cells of the product.
pub(crate) fn product_cells<S: Sink<f64>>(
    k: f64,
    sink: S,
    left: &Map<f64>,
    right: &Map<f64>,
    zuniqs: &mut [u64],
    densities: &mut [f64],
) -> Result<S::Figures, Refusal>
    requires { S.fits sink zuniqs.old densities.old (product_cells k left.now.zuniqs.now left.now.values.now right.now.zuniqs.now right.now.values.now) }
    ensures { Walked (S.took sink) (S.failed sink) zuniqs.old densities.old (product_cells k left.now.zuniqs.now left.now.values.now right.now.zuniqs.now right.now.values.now) result zuniqs.new densities.new }
{
    let mut lefts = [BLANK; 87];
    let mut rights = [BLANK; 87];
    let rule = Product { k };
    walk(
        rule,
        sink,
        left,
        right,
        &mut lefts,
        &mut rights,
        zuniqs,
        densities,
    )
}

// The rule of the product: alone dropped, both multiplied. A child copies its parent.
#[derive(Clone, Copy)]
pub(crate) struct Product {
    pub(crate) k: f64,
}

impl Rule for Product {
    type Value = f64;

    ghost split = { λ _. copy_density };

    ghost keeps = { λ s. product_rule s.k };

    ghost sees = { λ _ _. Unit {0} };

    fn part(self, depth: u64, hash: u64, value: f64, i: u32) -> f64
        requires { i < 4 }
        ensures { result ≡ copy_density depth hash value i }
    {
        value
    }

    fn keep(self, seen: LhsRhsBoth<f64>) -> Option<Dhzv<f64>>
        ensures { (cells_of result ≡ kept_of (product_rule self.k) (shown_as as_entry (saw_of seen))) × Carries (saw_of seen) result }
    {
        match seen {
            LhsRhsBoth::Left(_) => None,
            LhsRhsBoth::Right(_) => None,
            LhsRhsBoth::Both(a, b) => Some(Dhzv {
                value: self.k * a.value * b.value,
                ..a
            }),
        }
    }
}

// Counts the cells, up to the first that is not finite.
#[derive(Clone, Copy)]
pub(crate) struct Trying;

impl Sink<f64> for Trying {
    type Figures = usize;

    ghost fits = { λ _. Countable };

    ghost took = { λ _. IsTried };

    ghost failed = { λ _. NotFinite };

    fn start(self) -> usize
        ensures { (zs : List ℕ) (vs : List Float) → IsTried zs vs [] result zs vs }
    {
        0
    }

    fn take(
        self,
        n: usize,
        cell: Dhzv<f64>,
        zuniqs: &mut [u64],
        densities: &mut [f64],
    ) -> Result<usize, Refusal>
        requires { CanTake Countable IsTried n (zuniq_in cell) (as_entry cell) zuniqs.old densities.old }
        ensures { Takes IsTried NotFinite n (as_entry cell ∷ []) zuniqs.old densities.old result zuniqs.new densities.new }
    {
        if not_finite(cell.value) {
            return Err(Refusal::ProductNotFinite);
        }
        Ok(n + 1)
    }
}

// NaN or infinite.
#[tactic(auto, using(crate::proofs::Finite::finite_tests))]
fn not_finite(x: f64) -> bool
    ensures { result ≡ not_finite x }
{
    x.is_nan()
        || x >= f64::from_bits(0x7ff0_0000_0000_0000)
        || x <= f64::from_bits(0xfff0_0000_0000_0000)
}

// Merges the cells into a map in the two buffers; the figure is the number of its entries.
#[derive(Clone, Copy)]
pub(crate) struct Merging<'a> {
    pub(crate) merger: &'a DensityMerger<'a>,
}

impl<'a> Sink<f64> for Merging<'a> {
    type Figures = usize;

    ghost fits = { λ _. Room };

    ghost took = { λ s. Laid (accept_densities s.merger.now.protected.zuniqs.now s.merger.now.depth_threshold s.merger.now.chi2_threshold) };

    ghost failed = { λ _. NeverFails };

    fn start(self) -> usize
        ensures { (zs : List ℕ) (vs : List Float) → Laid (accept_densities self.entry.merger.now.protected.zuniqs.now self.entry.merger.now.depth_threshold self.entry.merger.now.chi2_threshold) zs vs [] result zs vs }
    {
        0
    }

    fn take(
        self,
        n: usize,
        cell: Dhzv<f64>,
        zuniqs: &mut [u64],
        densities: &mut [f64],
    ) -> Result<usize, Refusal>
        requires { CanTake Room (Laid (accept_densities self.merger.now.protected.zuniqs.now self.merger.now.depth_threshold self.merger.now.chi2_threshold)) n (zuniq_in cell) (as_entry cell) zuniqs.old densities.old }
        ensures { Takes (Laid (accept_densities self.entry.merger.now.protected.zuniqs.now self.entry.merger.now.depth_threshold self.entry.merger.now.chi2_threshold)) NeverFails n (as_entry cell ∷ []) zuniqs.old densities.old result zuniqs.new densities.new }
    {
        Ok(push(
            self.merger,
            zuniqs,
            densities,
            n,
            cell.depth as u8,
            cell.hash,
            cell.zuniq,
            cell.value,
        ))
    }
}
