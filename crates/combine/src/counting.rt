// Counting the cells that a rule keeps.
ghost use Rattle.std.specs.Prelude.{List, [], ◌∷◌, ℕ};
ghost use Rattle.combine.specs.Cells.{as_entry, zuniq_in};
ghost use Rattle.combine.specs.Sinks.{CanTake, Takes, Countable, NeverFails, IsCounted};

use crate::by_heads::Sink;
use crate::cells::Dhzv;
use refusal::Refusal;

// Counts cells, and leaves the buffers as they are.
#[derive(Clone, Copy)]
pub struct Counting;

impl<V: Copy> Sink<V> for Counting {
    type Figures = usize;

    ghost fits = { λ _. Countable };

    ghost took = { λ _. IsCounted };

    ghost failed = { λ _. NeverFails };

    fn start(self) -> usize
        ensures { (zs : List ℕ) (vs : List V) → IsCounted zs vs [] result zs vs }
    {
        0
    }

    fn take(
        self,
        n: usize,
        cell: Dhzv<V>,
        zuniqs: &mut [u64],
        values: &mut [V],
    ) -> Result<usize, Refusal>
        requires { CanTake Countable IsCounted n (zuniq_in cell) (as_entry cell) zuniqs.old values.old }
        ensures { Takes IsCounted NeverFails n (as_entry cell ∷ []) zuniqs.old values.old result zuniqs.new values.new }
    {
        Ok(n + 1)
    }
}
