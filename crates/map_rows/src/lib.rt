// The map check and lookup over count rows: sections 3, 6 and 7 of the scope, and note 2 of document
// 02.
//
// A map may come as at most 4,096 count rows, with zuniqs of either width. Its zuniqs are read from the
// rows where they stand, as the source's `MomSliceImpl` does: nothing is copied, and a lookup reads no
// more rows than its search passes. The check and the search are those of `mom` and `lookup`, over the
// list of the zuniqs of the rows.
//
// Refused, in this order: a depth over the largest, 29 or 13 (number 1); bytes that are no whole number
// of rows (4); more than 4,096 rows (11); a query that is no zuniq, or in `get_cell_containing` not of
// the map's depth (12). A refusal, like any answer, touches no lent memory.
#![tactic(auto)]

ghost use Rattle.std.specs.Prelude.{◌≡◌, ◌+◌, ℕ, refl};
ghost use Rattle.rows.specs.Rows.{zuniqs_of};
ghost use Rattle.map_rows.specs.MapRows.{width, map_rows, map_rows_at, check_rows, ContainingOver, RunOver, IsMapRows};

use lookup::{get_cell_containing_in, get_overlapped_run_in};
use mom::list::ZuniqList;
use mom::lookup::Run;
use mom::{FirstFault, first_fault_in};
use refusal::Refusal;
use rows::little_endian::LittleEndian;
use rows::{count_row_size, zuniq_at};
use std::marker::PhantomData;
use zuniq::ZUniqHashT;

// A map comes as at most so many rows.
const MAX_ROWS: usize = 4096;

// Zuniqs that stand in rows.
pub trait RowZuniq: ZUniqHashT + LittleEndian {
    ghost same_number: { (z : Self) → Self.ZUniqHashT.number z ≡ Self.LittleEndian.number z };
}

impl RowZuniq for u64 {
    ghost same_number = { λ z. refl };
}

impl RowZuniq for u32 {
    ghost same_number = { λ z. refl };
}

// The zuniqs of count rows, where they stand.
#[derive(Clone, Copy)]
struct CountRows<'a, Z> {
    bytes: &'a [u8],
    zuniqs: PhantomData<Z>,
}

impl<'a, Z: RowZuniq> ZuniqList for CountRows<'a, Z> {
    type Zuniq = Z;

    ghost numbers = { λ rows. zuniqs_of (Z.SIZE + 4) Z.SIZE rows.bytes.now };

    #[tactic(auto, using(rows::proofs::Zuniqs::all_zuniqs))]
    fn n_zuniqs(self) -> usize {
        self.bytes.len() / count_row_size::<Z>()
    }

    fn zuniq_at(self, place: usize) -> Z {
        zuniq_at(self.bytes, place)
    }
}

// The first fault of a map that comes as count rows, none for a valid map.
pub fn check_is_mom<Z: RowZuniq>(depth: u8, bytes: &[u8]) -> Result<Option<FirstFault>, Refusal>
    ensures { result ≡ check_rows (width Z.MAX_DEPTH Z.SIZE) depth bytes.now }
{
    Ok(first_fault_in(depth, map_rows_at::<Z>(depth, bytes)?))
}

// The row of the entry in which a cell of the map's depth lies.
pub fn get_cell_containing<Z: RowZuniq>(
    depth: u8,
    bytes: &[u8],
    zuniq: Z,
) -> Result<Option<usize>, Refusal>
    ensures { ContainingOver (width Z.MAX_DEPTH Z.SIZE) (map_rows_at (width Z.MAX_DEPTH Z.SIZE) depth bytes.now) depth bytes.now (Z.ZUniqHashT.number «zuniq») result }
{
    get_cell_containing_in(depth, map_rows_at::<Z>(depth, bytes)?, zuniq)
}

// The rows of the entries that overlap a query: the first, and their number.
pub fn get_overlapped_run<Z: RowZuniq>(bytes: &[u8], zuniq: Z) -> Result<Run, Refusal>
    ensures { RunOver (width Z.MAX_DEPTH Z.SIZE) (map_rows (width Z.MAX_DEPTH Z.SIZE) bytes.now) bytes.now (Z.ZUniqHashT.number «zuniq») result }
{
    get_overlapped_run_in(map_rows::<Z>(bytes)?, zuniq)
}

// The rows that a map of a depth comes as.
#[tactic(auto, unfolding(crate::specs::MapRows::map_rows_at))]
fn map_rows_at<Z: RowZuniq>(depth: u8, bytes: &[u8]) -> Result<CountRows<'_, Z>, Refusal>
    ensures { IsMapRows (map_rows_at (width Z.MAX_DEPTH Z.SIZE) depth bytes.now) bytes.now result }
{
    if depth > Z::MAX_DEPTH {
        return Err(Refusal::DepthOutOfRange);
    }
    map_rows(bytes)
}

// The rows that a map comes as.
#[tactic(auto, unfolding(crate::specs::MapRows::map_rows, rows::specs::Rows::rows_to_read, rows::specs::Rows::differ, rows::specs::Rows::others_differ, rows::specs::Rows::places))]
fn map_rows<Z: RowZuniq>(bytes: &[u8]) -> Result<CountRows<'_, Z>, Refusal>
    ensures { IsMapRows (map_rows (width Z.MAX_DEPTH Z.SIZE) bytes.now) bytes.now result }
{
    if bytes.len() % count_row_size::<Z>() != 0 {
        return Err(Refusal::LengthMismatch);
    }
    if bytes.len() / count_row_size::<Z>() > MAX_ROWS {
        return Err(Refusal::NoSpace);
    }
    Ok(CountRows {
        bytes,
        zuniqs: PhantomData,
    })
}
