// Rows laid out by byte column: note 3 of document 02.
//
// A file of rows is often stored in less space when all first bytes of the rows stand together, then
// all second bytes, and so on: zuniqs that rise have the same high bytes row after row. Byte j of row
// i of n rows then stands at j * n + i. Rows of 8, 12 and 16 bytes are laid out so, and taken back,
// from one lent buffer into another. Both calls answer the number of rows, and look at no byte's
// meaning.
//
// Refused: a row length that is not 8, 12 or 16, and bytes that are no whole number of rows (number
// 4), then an output that is shorter than the input (11). A refusal touches nothing; what is past the
// rows stays as it was.
#![tactic(auto)]

ghost use Rattle.std.specs.Prelude.{◌≡◌};
ghost use Rattle.columns.specs.Columns.{rows_to_lay, rows_to_columns, columns_to_rows};

use refusal::Refusal;

mod direction;
mod turning;
mod words;

use direction::{Shape, ToColumns, ToRows};
use turning::turn;

pub fn rows_to_columns(row_size: usize, rows: &[u8], columns: &mut [u8]) -> Result<usize, Refusal>
    ensures { (result, columns.new) ≡ rows_to_columns row_size rows.now columns.old }
{
    let number = rows_to_lay(row_size, rows.len(), columns.len())?;
    let shape = Shape {
        rows: number,
        row_size,
    };
    turn::<ToColumns>(shape, rows, columns);
    Ok(number)
}

pub fn columns_to_rows(row_size: usize, columns: &[u8], rows: &mut [u8]) -> Result<usize, Refusal>
    ensures { (result, rows.new) ≡ columns_to_rows row_size columns.now rows.old }
{
    let number = rows_to_lay(row_size, columns.len(), rows.len())?;
    let shape = Shape {
        rows: number,
        row_size,
    };
    turn::<ToRows>(shape, columns, rows);
    Ok(number)
}

// How many rows of this size a number of bytes is, where there is space for all of them.
#[tactic(auto, unfolding(crate::specs::Columns::rows_to_lay, crate::specs::Columns::named))]
fn rows_to_lay(row_size: usize, bytes: usize, space: usize) -> Result<usize, Refusal>
    ensures { result ≡ rows_to_lay row_size bytes space }
{
    match row_size {
        8 | 12 | 16 => {
            if bytes % row_size != 0 {
                return Err(Refusal::LengthMismatch);
            }
            if space < bytes {
                return Err(Refusal::NoSpace);
            }
            Ok(bytes / row_size)
        }
        _ => Err(Refusal::LengthMismatch),
    }
}
