// The library's calls by name: numbers hold the arguments, and the answer comes as numbers again. A
// list is its length and its items, a buffer the list that it holds, and an f64 its 64-bit pattern.
//
//     n_hash DEPTH                                  N
//     to_zuniq DEPTH HASH                           ZUNIQ
//     from_zuniq ZUNIQ                              DEPTH HASH, or nothing
//     are_overlapping LEFT RIGHT                    0 or 1
//     chi2_count_merger P HASH M T PROTECTED N0 N1 N2 N3
//                                                   1 COUNT for merged, 0 CHI for kept
//     chi2_density_merger P HASH M T PROTECTED M0 M1 M2 M3
//                                                   1 DENSITY for merged, 0 CHI for kept
//     check_is_mom D ZUNIQS                         0 for valid, or the fault, 1 to 4, and its place
//     get_cell_containing D ZUNIQS ZUNIQ            PLACE, or nothing
//     get_overlapped_cells ZUNIQS ZUNIQ             FIRST PART
//     add_counts D M T PROTECTED HELD ZUNIQS COUNTS HASHES BATCH
//                                                   ENTRIES TOTAL ZUNIQS COUNTS
//     add_densities D M T PROTECTED HELD ZUNIQS DENSITIES HASHES BATCH
//                                                   ENTRIES ZUNIQS DENSITIES
//     pool D ZUNIQS COUNTS D ZUNIQS COUNTS M T PROTECTED ZUNIQS COUNTS
//                                                   ENTRIES TOTAL ZUNIQS COUNTS
//     product D ZUNIQS DENSITIES D ZUNIQS DENSITIES M T K PROTECTED ZUNIQS DENSITIES
//                                                   ENTRIES ZUNIQS DENSITIES
//     read_count_rows BYTES ZUNIQS COUNTS           ROWS ZUNIQS COUNTS
//     read_density_rows BYTES ZUNIQS PATTERNS       ROWS ZUNIQS PATTERNS
//     write_count_rows ZUNIQS COUNTS BYTES          ROWS BYTES
//     write_density_rows ZUNIQS PATTERNS BYTES      ROWS BYTES
//     density_of_count DEPTH COUNT                  DENSITY
//     density_of_pattern PATTERN                    DENSITY, or nothing
//     pattern_of_density DENSITY                    PATTERN, or nothing
//     narrow D ZUNIQS COUNTS ZUNIQS COUNTS          D ENTRIES ZUNIQS COUNTS
//     widen D ZUNIQS COUNTS ZUNIQS COUNTS           D ENTRIES ZUNIQS COUNTS
//     rows_to_columns LENGTH BYTES BYTES            ROWS BYTES
//     columns_to_rows LENGTH BYTES BYTES            ROWS BYTES
//     coverage D ZUNIQS STARTS ENDS                 RANGES STARTS ENDS
//     clip D ZUNIQS DENSITIES STARTS ENDS ZUNIQS DENSITIES
//                                                   CELLS ZUNIQS DENSITIES
//     ask D ZUNIQS COUNTS D ZUNIQS COUNTS M T PROTECTED
//                                                   CELLS ENTRIES TOTAL
//     commit D ZUNIQS COUNTS D ZUNIQS COUNTS M T PROTECTED CELLS ENTRIES TOTAL ZUNIQS COUNTS
//                                                   ENTRIES TOTAL ZUNIQS COUNTS
//
// The calls on narrow maps, `narrow_to_zuniq` and so on, take and answer what those without `narrow_`
// do, and `read_narrow_rows` and `write_narrow_rows` what those of count rows do. Their zuniqs and hashes
// are u32s.
use crate::answer::Answer;
use crate::arguments::Arguments;
use crate::error::Error;
use crate::kind::Kind;
use crate::{building, cells, combining, layouts, maps, reach};

// Makes the call that a kind names, on the arguments at the front of those given. A table, with a line for
// each kind.
pub(crate) fn call(kind: Kind, arguments: &mut Arguments<'_>) -> Result<Answer, Error> {
    match kind {
        Kind::NHash => cells::n_hash(arguments),
        Kind::ToZuniq => cells::to_zuniq::<u64>(arguments),
        Kind::FromZuniq => cells::from_zuniq::<u64>(arguments),
        Kind::AreOverlapping => cells::are_overlapping::<u64>(arguments),
        Kind::CountMerger => cells::chi2_count_merger(arguments),
        Kind::DensityMerger => cells::chi2_density_merger(arguments),
        Kind::CheckIsMom => maps::check_is_mom::<u64>(arguments),
        Kind::Containing => maps::get_cell_containing::<u64>(arguments),
        Kind::Overlapped => maps::get_overlapped_cells::<u64>(arguments),
        Kind::AddCounts => building::add_counts::<u64>(arguments),
        Kind::AddDensities => building::add_densities(arguments),
        Kind::Pool => combining::pool(arguments),
        Kind::Product => combining::product(arguments),
        Kind::ReadCountRows => layouts::read_rows::<u64, u32>(arguments),
        Kind::ReadDensityRows => layouts::read_rows::<u64, u64>(arguments),
        Kind::WriteCountRows => layouts::write_rows::<u64, u32>(arguments),
        Kind::WriteDensityRows => layouts::write_rows::<u64, u64>(arguments),
        Kind::DensityOfCount => cells::density_of_count(arguments),
        Kind::DensityOfPattern => cells::density_of_pattern(arguments),
        Kind::PatternOfDensity => cells::pattern_of_density(arguments),
        Kind::NarrowToZuniq => cells::to_zuniq::<u32>(arguments),
        Kind::NarrowFromZuniq => cells::from_zuniq::<u32>(arguments),
        Kind::NarrowAreOverlapping => cells::are_overlapping::<u32>(arguments),
        Kind::NarrowCheckIsMom => maps::check_is_mom::<u32>(arguments),
        Kind::NarrowContaining => maps::get_cell_containing::<u32>(arguments),
        Kind::NarrowOverlapped => maps::get_overlapped_cells::<u32>(arguments),
        Kind::NarrowAddCounts => building::add_counts::<u32>(arguments),
        Kind::ReadNarrowRows => layouts::read_rows::<u32, u32>(arguments),
        Kind::WriteNarrowRows => layouts::write_rows::<u32, u32>(arguments),
        Kind::Narrow => maps::move_map::<u64, u32>(arguments),
        Kind::Widen => maps::move_map::<u32, u64>(arguments),
        Kind::RowsToColumns => layouts::lay_out(arguments, columns::rows_to_columns),
        Kind::ColumnsToRows => layouts::lay_out(arguments, columns::columns_to_rows),
        Kind::Coverage => reach::coverage(arguments),
        Kind::Clip => reach::clip(arguments),
        Kind::Ask => combining::ask(arguments),
        Kind::Commit => combining::commit(arguments),
    }
}
