// Moving the bytes of rows from one layout to the other.
ghost use Rattle.std.specs.Prelude.{◌≡◌, ◌+◌, ◌%◌, ◌≤◌, ◌<◌, length};
ghost use Rattle.columns.specs.Turning.{Inside, Part, Turned};

use crate::direction::{Direction, Shape};
use crate::words::BLOCK;

// Rows are moved in blocks, and a block four columns at a time. So each byte column is read or written
// in order, the rows of a block stay in the nearest cache until their last byte is moved, and columns
// that stand a power of two apart do not drive each other out of it.
pub(crate) fn turn<D: Direction>(shape: Shape, source: &[u8], target: &mut [u8])
    requires { (shape.row_size % 4 ≡ 0) × Inside (D.from shape) shape.rows shape.row_size (length source.now) × Inside (D.to shape) shape.rows shape.row_size (length target.old) }
    ensures { Turned (D.from shape) (D.to shape) source.now (Part 0 shape.rows 0 shape.row_size) target.old target.new }
{
    for block in 0..shape.rows.div_ceil(BLOCK) {
        let row = block * BLOCK;
        let end = row + BLOCK.min(shape.rows - row);
        turn_block::<D>(shape, source, target, row, end);
    }
}

// The rows of a block.
fn turn_block<D: Direction>(shape: Shape, source: &[u8], target: &mut [u8], row: usize, end: usize)
    requires { (shape.row_size % 4 ≡ 0) × (row < end) × (end ≤ row + 64) × Inside (D.from shape) end shape.row_size (length source.now) × Inside (D.to shape) end shape.row_size (length target.old) }
    ensures { Turned (D.from shape) (D.to shape) source.now (Part row end 0 shape.row_size) target.old target.new }
{
    for four in 0..shape.row_size / 4 {
        D::turn_four(shape, source, target, row, end, 4 * four);
    }
}
