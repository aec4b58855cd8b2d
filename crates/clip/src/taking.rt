// What is done with the cells that a walk comes to: they are counted, or written to the output buffers.
ghost use Rattle.std.specs.Prelude.{◌≡◌, ◌+◌, ◌^◌, ◌≤◌};
ghost use Rattle.zuniq.specs.Cells.{n_hash};
ghost use Rattle.clip.specs.Passes.{Aim, CanCut, IsCut, CanKeep, Kept};

use crate::sizes::{count_cells, largest_at};

// Takes cells behind n others, and answers the new number. Counting leaves the buffers as they are.
pub(crate) trait Taker {
    ghost aim: { Aim };

    // Takes one cell.
    fn keep(zuniq: u64, density: f64, zuniqs: &mut [u64], densities: &mut [f64], n: usize) -> usize
        requires { CanKeep aim n zuniqs.old densities.old }
        ensures { (result ≡ n + 1) × Kept aim n «zuniq» density zuniqs.old densities.old zuniqs.new densities.new };

    // Takes a piece of the sky, which lies in an entry, cut from the left into the largest cells that
    // fit. Each has the entry's density.
    fn cut(
        from: u64,
        to: u64,
        density: f64,
        zuniqs: &mut [u64],
        densities: &mut [f64],
        n: usize,
    ) -> usize
        requires { (to ≤ n_hash 29) × (to ≤ from + 4 ^ 29) × CanCut aim n from to density zuniqs.old densities.old }
        ensures { IsCut aim n from to density zuniqs.old densities.old result zuniqs.new densities.new };
}

pub(crate) struct Count;

pub(crate) struct Write;

impl Taker for Count {
    ghost aim = { Aim.Count };

    fn keep(
        _zuniq: u64,
        _density: f64,
        _zuniqs: &mut [u64],
        _densities: &mut [f64],
        n: usize,
    ) -> usize {
        n + 1
    }

    fn cut(
        from: u64,
        to: u64,
        _density: f64,
        _zuniqs: &mut [u64],
        _densities: &mut [f64],
        n: usize,
    ) -> usize {
        n + count_cells(from, to)
    }
}

impl Taker for Write {
    ghost aim = { Aim.Write };

    fn keep(
        zuniq: u64,
        density: f64,
        zuniqs: &mut [u64],
        densities: &mut [f64],
        n: usize,
    ) -> usize {
        zuniqs[n] = zuniq;
        densities[n] = density;
        n + 1
    }

    fn cut(
        from: u64,
        to: u64,
        density: f64,
        zuniqs: &mut [u64],
        densities: &mut [f64],
        n: usize,
    ) -> usize {
        let mut n = n;
        let mut at = from;
        // A turn goes on by the cell that fits, so that no range gives the places.
        while at < to {
            let width = largest_at(at, to);
            // A zuniq is the sum of its cell's start and end.
            let zuniq = 2 * at + width;
            n = Write::keep(zuniq, density, zuniqs, densities, n);
            at += width;
        }
        n
    }
}
