// The C functions that lay rows out for the disks, by byte column, and take them back: note 3 of
// document 02.
//
// Refused: a row length that is not 8, 12 or 16, and bytes that are no whole number of rows (number
// 4); then an output that is shorter than the input (11).
ghost use Rattle.std.specs.Prelude.{◌≡◌};
ghost use Rattle.columns.specs.Columns.{rows_to_columns, columns_to_rows};
ghost use Rattle.mom_c.specs.Answers.{number_told};

use columns::{columns_to_rows, rows_to_columns};
use words::number_word;

// Lays rows out by byte column: the number of rows.
#[unsafe(no_mangle)]
pub extern "C" fn mom_rows_to_columns(row_size: usize, rows: &[u8], columns: &mut [u8]) -> u64
    ensures { (result, «columns».new) ≡ number_told (rows_to_columns row_size «rows».now «columns».old) }
{
    number_word(rows_to_columns(row_size, rows, columns))
}

// Takes byte columns back to rows: the number of rows.
#[unsafe(no_mangle)]
pub extern "C" fn mom_columns_to_rows(row_size: usize, columns: &[u8], rows: &mut [u8]) -> u64
    ensures { (result, «rows».new) ≡ number_told (columns_to_rows row_size «columns».now «rows».old) }
{
    number_word(columns_to_rows(row_size, columns, rows))
}
