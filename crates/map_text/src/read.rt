// Reading the text: a line `D,M,T`, then lines `hash,count`.
ghost use Rattle.std.specs.Prelude.{◌≡◌, length, MatchOption};
ghost use Rattle.map_text.specs.Lines.{settings_line, cell_line, cells};
ghost use Rattle.map_text.specs.Steps.{FirstCellIs, CellsAre};

use text::{COMMA, LF, read_number, split_once};

// The most cells that a text holds.
pub const MAX_CELLS: usize = 2048;

const MAX_DEPTH: u64 = u8::MAX as u64;

const MAX_COUNT: u64 = u32::MAX as u64;

// What a line `D,M,T` says, with T in thousandths.
#[derive(Clone, Copy)]
pub struct Settings {
    pub depth: u8,
    pub depth_threshold: u8,
    pub thousandths: u32,
}

// What a line `hash,count` says.
#[derive(Clone, Copy)]
pub struct CountedCell {
    pub hash: u64,
    pub count: u32,
}

// The first line that can't be read, counted from 1.
#[derive(Clone, Copy)]
pub struct UnreadableLine {
    pub line: usize,
}

// Reads a line `D,M,T`, given without its LF.
#[tactic(auto, using(crate::proofs::Lines::lines))]
pub fn read_settings(line: &[u8]) -> Option<Settings>
    ensures { result ≡ settings_line line.now }
{
    let (depth, rest) = split_once(line, COMMA)?;
    let (depth_threshold, thousandths) = split_once(rest, COMMA)?;
    let depth = read_number(depth, MAX_DEPTH)?;
    let depth_threshold = read_number(depth_threshold, MAX_DEPTH)?;
    let thousandths = read_number(thousandths, MAX_COUNT)?;
    Some(Settings {
        depth: depth as u8,
        depth_threshold: depth_threshold as u8,
        thousandths: thousandths as u32,
    })
}

// Reads a line `hash,count`, given without its LF.
#[tactic(auto, using(crate::proofs::Lines::lines))]
fn read_cell(line: &[u8]) -> Option<CountedCell>
    ensures { result ≡ cell_line line.now }
{
    let (hash, count) = split_once(line, COMMA)?;
    let hash = read_number(hash, u64::MAX)?;
    let count = read_number(count, MAX_COUNT)?;
    Some(CountedCell {
        hash,
        count: count as u32,
    })
}

// Reads the line that a text begins with, and hands out what stands behind it. A line that no LF
// ends may have lost digits.
#[tactic(auto, using(crate::proofs::Lines::first_unended))]
fn read_first_cell(text: &[u8]) -> Option<(CountedCell, &[u8])>
    ensures { FirstCellIs text.now result }
{
    let (line, behind) = split_once(text, LF)?;
    let cell = read_cell(line)?;
    Some((cell, behind))
}

// Reads the lines behind the first into two buffers, which the add call takes apart, and answers how
// many cells they hold.
pub fn read_cells(
    text: &[u8],
    hashes: &mut [u64; MAX_CELLS],
    counts: &mut [u32; MAX_CELLS],
) -> Result<usize, UnreadableLine>
    ensures { CellsAre (cells 2048 2 text.now) result hashes.old counts.old hashes.new counts.new }
{
    let mut rest = text;
    for n in 0..MAX_CELLS {
        if rest.is_empty() {
            return Ok(n);
        }
        // Line 1 holds the settings, and lines count from 1.
        let line = n + 2;
        let (cell, behind) = read_first_cell(rest).ok_or(UnreadableLine { line })?;
        hashes[n] = cell.hash;
        counts[n] = cell.count;
        rest = behind;
    }
    if rest.is_empty() {
        Ok(MAX_CELLS)
    } else {
        Err(UnreadableLine {
            line: MAX_CELLS + 2,
        })
    }
}
