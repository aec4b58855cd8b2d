// The kinds of calls, and their words.
//
// A further kind is a case of `Kind` with its word in WORDS, and a function that `call` hands its
// arguments to.
use crate::error::Error;
use std::fmt;
use std::str::FromStr;

// In the order in which they are printed.
#[derive(Clone, Copy, PartialEq, Eq, PartialOrd, Ord)]
pub enum Kind {
    NHash,
    ToZuniq,
    FromZuniq,
    AreOverlapping,
    CountMerger,
    DensityMerger,
    CheckIsMom,
    Containing,
    Overlapped,
    AddCounts,
    AddDensities,
    Pool,
    Product,
    ReadCountRows,
    ReadDensityRows,
    WriteCountRows,
    WriteDensityRows,
    DensityOfCount,
    DensityOfPattern,
    PatternOfDensity,
    NarrowToZuniq,
    NarrowFromZuniq,
    NarrowAreOverlapping,
    NarrowCheckIsMom,
    NarrowContaining,
    NarrowOverlapped,
    NarrowAddCounts,
    ReadNarrowRows,
    WriteNarrowRows,
    Narrow,
    Widen,
    RowsToColumns,
    ColumnsToRows,
    Coverage,
    Clip,
    Ask,
    Commit,
}

// A kind's word is the call's name.
const WORDS: [(Kind, &str); 37] = [
    (Kind::NHash, "n_hash"),
    (Kind::ToZuniq, "to_zuniq"),
    (Kind::FromZuniq, "from_zuniq"),
    (Kind::AreOverlapping, "are_overlapping"),
    (Kind::CountMerger, "chi2_count_merger"),
    (Kind::DensityMerger, "chi2_density_merger"),
    (Kind::CheckIsMom, "check_is_mom"),
    (Kind::Containing, "get_cell_containing"),
    (Kind::Overlapped, "get_overlapped_cells"),
    (Kind::AddCounts, "add_counts"),
    (Kind::AddDensities, "add_densities"),
    (Kind::Pool, "pool"),
    (Kind::Product, "product"),
    (Kind::ReadCountRows, "read_count_rows"),
    (Kind::ReadDensityRows, "read_density_rows"),
    (Kind::WriteCountRows, "write_count_rows"),
    (Kind::WriteDensityRows, "write_density_rows"),
    (Kind::DensityOfCount, "density_of_count"),
    (Kind::DensityOfPattern, "density_of_pattern"),
    (Kind::PatternOfDensity, "pattern_of_density"),
    (Kind::NarrowToZuniq, "narrow_to_zuniq"),
    (Kind::NarrowFromZuniq, "narrow_from_zuniq"),
    (Kind::NarrowAreOverlapping, "narrow_are_overlapping"),
    (Kind::NarrowCheckIsMom, "narrow_check_is_mom"),
    (Kind::NarrowContaining, "narrow_get_cell_containing"),
    (Kind::NarrowOverlapped, "narrow_get_overlapped_cells"),
    (Kind::NarrowAddCounts, "narrow_add_counts"),
    (Kind::ReadNarrowRows, "read_narrow_rows"),
    (Kind::WriteNarrowRows, "write_narrow_rows"),
    (Kind::Narrow, "narrow"),
    (Kind::Widen, "widen"),
    (Kind::RowsToColumns, "rows_to_columns"),
    (Kind::ColumnsToRows, "columns_to_rows"),
    (Kind::Coverage, "coverage"),
    (Kind::Clip, "clip"),
    (Kind::Ask, "ask"),
    (Kind::Commit, "commit"),
];

impl fmt::Display for Kind {
    fn fmt<W: fmt::Write>(&self, f: &mut fmt::Formatter<W>) -> fmt::Result {
        match WORDS.iter().find(|(kind, _)| kind == self) {
            Some((_, word)) => f.write_str(word),
            None => Ok(()),
        }
    }
}

impl FromStr for Kind {
    type Err = Error;

    fn from_str(text: &str) -> Result<Self, Error> {
        match WORDS.iter().find(|(_, word)| *word == text) {
            Some((kind, _)) => Ok(*kind),
            None => Err(Error::Unreadable),
        }
    }
}
