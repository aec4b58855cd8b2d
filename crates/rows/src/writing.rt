// Writing: how many rows there are to write.
ghost use Rattle.std.specs.Prelude.{◌≡◌, [], ◌∷◌, ◌*◌, ◌≤◌, ◌<◌, IfOk};
ghost use Rattle.rows.specs.Rows.{rows_to_write};

use refusal::Refusal;

// How many rows of this size the buffers make, where there are bytes for all of them.
#[tactic(auto, unfolding(crate::specs::Rows::rows_to_write, crate::specs::Rows::differ, crate::specs::Rows::others_differ, crate::specs::Rows::places))]
pub(crate) fn rows_to_write(
    row_size: usize,
    bytes: usize,
    zuniqs: usize,
    values: usize,
) -> Result<usize, Refusal>
    requires { 0 < row_size }
    ensures answer { result ≡ rows_to_write row_size bytes (zuniqs ∷ values ∷ []) }
    ensures fits { IfOk result (λ n. (n * row_size ≤ bytes) × (n ≡ zuniqs) × (n ≡ values)) }
{
    if zuniqs != values {
        return Err(Refusal::LengthMismatch);
    }
    if bytes / row_size < zuniqs {
        return Err(Refusal::NoSpace);
    }
    Ok(zuniqs)
}
