// The rule of the pool, and what asking for a pool answers.
ghost use Rattle.std.specs.Prelude.{◌≡◌, ◌<◌, ◌≤◌};
ghost use Rattle.combine.specs.Rules.{split_count, kept_of, pool_rule, pooled_count};
ghost use Rattle.combine.specs.Heads.{shown_as};
ghost use Rattle.combine.specs.Cells.{as_entry, saw_of};
ghost use Rattle.combine.specs.Sinks.{cells_of, Carries};

use crate::by_heads::Rule;
use crate::cells::{Dhzv, LhsRhsBoth};

// The rule of the pool: alone kept, both summed.
#[derive(Clone, Copy)]
pub struct Pool;

impl Rule for Pool {
    type Value = u32;

    ghost split = { λ _. split_count };

    ghost keeps = { λ _. pool_rule };

    ghost sees = { λ _ e. pooled_count e.value ≤ 4294967295 };

    fn part(self, depth: u64, hash: u64, value: u32, i: u32) -> u32
        requires { i < 4 }
        ensures { result ≡ split_count depth hash value i }
    {
        part_of(value, hash, i)
    }

    fn keep(self, seen: LhsRhsBoth<u32>) -> Option<Dhzv<u32>>
        requires { pooled_count (shown_as as_entry (saw_of seen)).value ≤ 4294967295 }
        ensures { (cells_of result ≡ kept_of pool_rule (shown_as as_entry (saw_of seen))) × Carries (saw_of seen) result }
    {
        match seen {
            LhsRhsBoth::Left(a) => Some(a),
            LhsRhsBoth::Right(b) => Some(b),
            LhsRhsBoth::Both(a, b) => Some(Dhzv {
                value: a.value + b.value,
                ..a
            }),
        }
    }
}

// What child i has of its parent's count: a quarter, and one more if it is among the first count % 4
// children. The parent's hash says which child is the first, so that not all that is left over
// gathers in one corner; behind child 3 comes child 0.
fn part_of(count: u32, parent_hash: u64, i: u32) -> u32
    requires { i < 4 }
    ensures { result ≡ split_count 0 parent_hash count i }
{
    let first = (parent_hash % 4) as u32;
    let before = (i + 4 - first) % 4;
    if before < count % 4 {
        count / 4 + 1
    } else {
        count / 4
    }
}

// What a pool costs and comes to.
#[derive(Clone, Copy, Debug, PartialEq, Eq)]
pub struct Figures {
    // Cells of the overlay: the places that the output needs.
    pub cells: usize,
    // Entries after merging them.
    pub entries: usize,
    // The sum of their counts.
    pub total: u32,
}
