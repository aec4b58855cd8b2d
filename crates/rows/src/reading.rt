// Reading: how many rows there are to read, and the numbers of one column.
ghost use Rattle.std.specs.Prelude.{◌≡◌, [], ◌∷◌, ◌++◌, ◌+◌, ◌*◌, ◌≤◌, ◌<◌, length, drop, IfOk};
ghost use Rattle.rows.specs.Rows.{numbers_in, rows_to_read};

use crate::little_endian::LittleEndian;
use refusal::Refusal;

// How many rows of this size a number of bytes is, where the buffers have places for all of them.
#[tactic(auto, unfolding(crate::specs::Rows::rows_to_read, crate::specs::Rows::differ, crate::specs::Rows::others_differ, crate::specs::Rows::places))]
pub(crate) fn rows_to_read(
    row_size: usize,
    bytes: usize,
    zuniqs: usize,
    values: usize,
) -> Result<usize, Refusal>
    requires { 0 < row_size }
    ensures answer { result ≡ rows_to_read row_size bytes (zuniqs ∷ values ∷ []) }
    ensures fits { IfOk result (λ n. (n * row_size ≤ bytes) × (n ≤ zuniqs) × (n ≤ values)) }
{
    if zuniqs != values || bytes % row_size != 0 {
        return Err(Refusal::LengthMismatch);
    }
    if zuniqs < bytes / row_size {
        return Err(Refusal::NoSpace);
    }
    Ok(bytes / row_size)
}

// The numbers of one column: those that start at byte `at` of each row. Rows are read a column at a
// time, and not row by row, because stores side by side are faster than stores that go to two
// buffers in turn.
pub(crate) fn read_column<T: LittleEndian>(
    bytes: &[u8],
    row_size: usize,
    at: usize,
    rows: usize,
    numbers: &mut [T],
)
    requires { (at + T.SIZE ≤ row_size) × (rows * row_size ≤ length bytes.now) × (rows ≤ length numbers.old) }
    ensures { T.numbers numbers.new ≡ numbers_in row_size at T.SIZE bytes.now rows ++ drop rows (T.numbers numbers.old) }
{
    for row in 0..rows {
        numbers[row] = T::read(bytes, row * row_size + at);
    }
}
