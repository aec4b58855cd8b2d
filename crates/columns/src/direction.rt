// The two ways: from row after row to column after column, and back.
ghost use Rattle.std.specs.Prelude.{ℕ, ◌+◌, ◌≤◌, ◌<◌, length};
ghost use Rattle.columns.specs.declared.direction.Shape.{Shape};
ghost use Rattle.columns.specs.Turning.{in_rows, in_columns, Inside, Part, Turned};

use crate::words::{BLOCK, read_words, write_columns, write_words};

// So many rows, each of so many bytes.
#[derive(Clone, Copy)]
pub(crate) struct Shape {
    pub(crate) rows: usize,
    pub(crate) row_size: usize,
}

pub(crate) trait Direction {
    // Where a byte of a row stands in the source, and where in the target.
    ghost from: { Shape → ℕ → ℕ → ℕ };

    ghost to: { Shape → ℕ → ℕ → ℕ };

    // Moves four columns of the rows of a block, as words of four bytes.
    fn turn_four(
        shape: Shape,
        source: &[u8],
        target: &mut [u8],
        row: usize,
        end: usize,
        column: usize,
    )
        requires { (row < end) × (end ≤ row + 64) × Inside (from shape) end (column + 4) (length source.now) × Inside (to shape) end (column + 4) (length target.old) }
        ensures { Turned (from shape) (to shape) source.now (Part row end column (column + 4)) target.old target.new };
}

pub(crate) struct ToColumns;

pub(crate) struct ToRows;

impl Direction for ToColumns {
    ghost from = { λ shape. in_rows shape.row_size };

    ghost to = { λ shape. in_columns shape.rows };

    fn turn_four(
        shape: Shape,
        source: &[u8],
        target: &mut [u8],
        row: usize,
        end: usize,
        column: usize,
    ) {
        let mut block = [0; BLOCK];
        let words = &mut block[..end - row];
        let at = row * shape.row_size + column;
        read_words(source, at, shape.row_size, 1, words);
        write_columns(words, target, column * shape.rows + row, shape.rows);
    }
}

impl Direction for ToRows {
    ghost from = { λ shape. in_columns shape.rows };

    ghost to = { λ shape. in_rows shape.row_size };

    fn turn_four(
        shape: Shape,
        source: &[u8],
        target: &mut [u8],
        row: usize,
        end: usize,
        column: usize,
    ) {
        let mut block = [0; BLOCK];
        let words = &mut block[..end - row];
        let at = column * shape.rows + row;
        read_words(source, at, 1, shape.rows, words);
        write_words(words, target, row * shape.row_size + column, shape.row_size);
    }
}
