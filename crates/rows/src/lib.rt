// Rows: section 7 of the scope, and note 2 of document 02.
//
// A map on disk is rows of bytes, one for each entry, with no header: the zuniq in 8 bytes, then
// the count in 4 or the density in 8, each little-endian. So count rows have 12 bytes and density
// rows 16. Those of a narrow map have 8, 4 for the zuniq and 4 for the count. Rows are read into two
// lent buffers, zuniqs and values, and written from two; the types of both say which rows they are.
// Every call answers the number of rows. Rows are not checked as maps.
//
// A density goes through rows as its 64-bit pattern: the language's f64 has one NaN, without a
// pattern, and rows give back every pattern. The crate `density` turns a pattern into a density.
//
// Refused: paired buffers that differ in length, and bytes to be read that are no whole number of
// rows (number 4), then too little space (11). A refusal touches nothing; what is past the rows
// stays as it was.
#![tactic(auto)]

ghost use Rattle.std.specs.Prelude.{◌≡◌, ◌+◌, get_or};
ghost use Rattle.rows.specs.Rows.{zuniqs_of, table, read_rows, write_rows};

use refusal::Refusal;

pub mod little_endian;
mod reading;
mod writing;

use little_endian::LittleEndian;
use reading::{read_column, rows_to_read};
use writing::rows_to_write;

// Reads rows into two buffers.
pub fn read_rows<Z: LittleEndian, V: LittleEndian>(
    bytes: &[u8],
    zuniqs: &mut [Z],
    values: &mut [V],
) -> Result<usize, Refusal>
    ensures { (result, table Z.SIZE V.SIZE (Z.numbers zuniqs.new) (V.numbers values.new)) ≡ read_rows (table Z.SIZE V.SIZE (Z.numbers zuniqs.old) (V.numbers values.old)) bytes.now }
{
    let row_size = Z::SIZE + V::SIZE;
    let rows = rows_to_read(row_size, bytes.len(), zuniqs.len(), values.len())?;
    read_column(bytes, row_size, 0, rows, zuniqs);
    read_column(bytes, row_size, Z::SIZE, rows, values);
    Ok(rows)
}

// Writes rows from two buffers.
pub fn write_rows<Z: LittleEndian, V: LittleEndian>(
    zuniqs: &[Z],
    values: &[V],
    bytes: &mut [u8],
) -> Result<usize, Refusal>
    ensures { (result, bytes.new) ≡ write_rows (table Z.SIZE V.SIZE (Z.numbers zuniqs.now) (V.numbers values.now)) bytes.old }
{
    let row_size = Z::SIZE + V::SIZE;
    let rows = rows_to_write(row_size, bytes.len(), zuniqs.len(), values.len())?;
    for row in 0..rows {
        let at = row * row_size;
        zuniqs[row].write(bytes, at);
        values[row].write(bytes, at + Z::SIZE);
    }
    Ok(rows)
}

// The bytes of a count row: a zuniq, then a count.
pub fn count_row_size<Z: LittleEndian>() -> usize
    ensures { result ≡ Z.SIZE + 4 }
{
    Z::SIZE + u32::SIZE
}

// The zuniq of a count row, read where it stands; 0, which is no zuniq, past the last row.
pub fn zuniq_at<Z: LittleEndian>(bytes: &[u8], row: usize) -> Z
    ensures { Z.number result ≡ get_or (zuniqs_of (Z.SIZE + 4) Z.SIZE bytes.now) row 0 }
{
    if row < bytes.len() / count_row_size::<Z>() {
        return Z::read(bytes, row * count_row_size::<Z>());
    }
    Z::default()
}
