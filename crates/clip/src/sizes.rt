// How many cells a piece of the sky is cut into, and how large the first of them is.
ghost use Rattle.std.specs.Prelude.{◌≡◌, ◌+◌, ◌^◌, ◌≤◌, ◌<◌};
ghost use Rattle.zuniq.specs.Cells.{n_hash};
ghost use Rattle.clip.specs.Passes.{LargestWidth, IsCutInto, digit_sum};

// How many cells `cut` cuts a piece into. In between lies a place that divides by the width of the largest
// of them. Up to there they grow, and from there on they shrink: on either side there are as many as the
// digits of the distance to it, in base 4, add up to.
pub(crate) fn count_cells(from: u64, to: u64) -> usize
    requires { (to ≤ n_hash 29) × (to ≤ from + 4 ^ 29) }
    ensures { IsCutInto 29 from to result }
{
    if from >= to {
        return 0;
    }
    let bits = 63 - u64::leading_zeros(to - from);
    let shift = bits / 2 * 2;
    let middle = to >> shift << shift;
    (digit_sum(middle - from) + digit_sum(to - middle)) as usize
}

// The sum of a number's digits in base 4: all bits, and once more the higher one of each two.
fn digit_sum(number: u64) -> u32
    ensures { result ≡ digit_sum 32 number }
{
    u64::count_ones(number) + u64::count_ones(number & 0xaaaa_aaaa_aaaa_aaaa)
}

// How many cells of the largest depth the largest cell has that starts at a place and ends at `to` or
// before. A cell that has 4^levels of them starts at a multiple of that number.
pub(crate) fn largest_at(at: u64, to: u64) -> u64
    requires { (at < to) × (to ≤ at + 4 ^ 29) × (to ≤ n_hash 29) }
    ensures { LargestWidth 29 at to result }
{
    let zeros = u64::trailing_zeros(at);
    let bits = 63 - u64::leading_zeros(to - at);
    let levels = zeros.min(bits) / 2;
    1 << (2 * levels)
}
