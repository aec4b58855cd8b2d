// Why a call is refused. All calls of the library share this type; each names the cases it gives.
// A refusal touches no lent memory.
#![tactic(auto)]

ghost use Rattle.std.specs.Prelude.{◌≡◌};
ghost use Rattle.refusal.specs.Refusals.{number_of, place_of};

// A case for each thing that can be wrong, in checking order. A case that has a place holds it:
// the parent of a list, the entry of a map, the range of a coverage, the cell of a batch, the child of a
// merger's four, the query of a test's two.
#[derive(Clone, Copy, Debug, PartialEq, Eq)]
pub enum Refusal {
    // The depth is over the largest, or a merger's parent depth is the largest.
    DepthOutOfRange,
    // M, the shallowest parent depth at which merging is allowed, is over the largest depth.
    DepthThresholdOutOfRange,
    // T, the chi-square threshold, is NaN.
    Chi2ThresholdIsNan,
    // k, the factor of a product, is NaN, infinite or below 0.
    InvalidFactor,
    // This listed parent is not a valid zuniq, or not above the one before.
    InvalidProtected(usize),
    // Paired buffers differ in length, a stated number exceeds its buffer, row bytes are uneven, or a
    // row length is not named.
    LengthMismatch,
    // A held or given map is invalid at this entry.
    InvalidMap(usize),
    // This entry of a map to be narrowed is deeper than narrow maps are.
    EntryTooDeep(usize),
    // A held or given density is NaN, infinite or below 0 at this entry.
    InvalidMapDensity(usize),
    // This range of a coverage is empty, ends past the sky, or does not start above the end before.
    InvalidRange(usize),
    // The hash of this cell is not one of its depth.
    HashOutOfRange(usize),
    // This cell is not above the one before, or starts before the last held entry ends.
    CellNotAbove(usize),
    // The density of this cell or child is NaN, infinite or below 0.
    InvalidDensity(usize),
    // The counts exceed what a u32 holds; in an add call, this cell passes it.
    CountOverflow(usize),
    // The product of an overlay cell is not finite.
    ProductNotFinite,
    // The figures handed in are not those that an ask would answer.
    FiguresDiffer,
    // The output has too few places.
    NoSpace,
    // This query is not a valid zuniq or not at the depth asked for.
    InvalidQuery(usize),
}

impl Refusal {
    // The number that the scope's table of refusals gives this case.
    pub fn number(self) -> u8
        ensures { result ≡ number_of self }
    {
        match self {
            Refusal::DepthOutOfRange => 1,
            Refusal::DepthThresholdOutOfRange => 2,
            Refusal::Chi2ThresholdIsNan => 3,
            Refusal::InvalidFactor => 3,
            Refusal::InvalidProtected(_) => 15,
            Refusal::LengthMismatch => 4,
            Refusal::InvalidMap(_) => 5,
            Refusal::EntryTooDeep(_) => 13,
            Refusal::InvalidMapDensity(_) => 6,
            Refusal::InvalidRange(_) => 14,
            Refusal::HashOutOfRange(_) => 7,
            Refusal::CellNotAbove(_) => 8,
            Refusal::InvalidDensity(_) => 9,
            Refusal::CountOverflow(_) => 10,
            Refusal::ProductNotFinite => 10,
            Refusal::FiguresDiffer => 16,
            Refusal::NoSpace => 11,
            Refusal::InvalidQuery(_) => 12,
        }
    }

    // Where it is wrong, counted from 0; 0 where the case has no place.
    pub fn place(self) -> usize
        ensures { result ≡ place_of self }
    {
        match self {
            Refusal::DepthOutOfRange => 0,
            Refusal::DepthThresholdOutOfRange => 0,
            Refusal::Chi2ThresholdIsNan => 0,
            Refusal::InvalidFactor => 0,
            Refusal::InvalidProtected(parent) => parent,
            Refusal::LengthMismatch => 0,
            Refusal::InvalidMap(entry) => entry,
            Refusal::EntryTooDeep(entry) => entry,
            Refusal::InvalidMapDensity(entry) => entry,
            Refusal::InvalidRange(range) => range,
            Refusal::HashOutOfRange(cell) => cell,
            Refusal::CellNotAbove(cell) => cell,
            Refusal::InvalidDensity(cell) => cell,
            Refusal::CountOverflow(cell) => cell,
            Refusal::ProductNotFinite => 0,
            Refusal::FiguresDiffer => 0,
            Refusal::NoSpace => 0,
            Refusal::InvalidQuery(query) => query,
        }
    }
}
