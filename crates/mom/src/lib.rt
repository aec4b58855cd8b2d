// Multi-order maps: the map check, section 3 of the scope. Of lookup, section 6, the
// definitions, laws and answers are here, and the calls in `lookup`.
//
// A map of depth D is a list of zuniqs, of either width, with a value for each; the values play no
// part here. It is valid if each zuniq is valid, none is deeper than D, they rise strictly and no two
// overlap. The check tells the first place where it is not, and what is wrong there.
//
// Refused: a depth over the largest, 29 or 13 (number 1).
#![tactic(auto)]

ghost use Rattle.std.specs.Prelude.{◌≡◌};
ghost use Rattle.mom.specs.Map.{first_fault, map_check};
ghost use Rattle.mom.specs.Range.{range_of};

use list::ZuniqList;
use refusal::Refusal;
use zuniq::{DIM, Decoded, ZUniqHashT};

pub mod list;
pub mod lookup;

// What can be wrong with an entry, in the order in which it is tried.
#[derive(Clone, Copy, Debug, PartialEq, Eq)]
pub enum Fault {
    NotZuniq,
    TooDeep,
    // Not above the entry before it.
    NotAbove,
    // Overlapping the entry before it.
    Overlapping,
}

// The first faulty place with the first fault there.
#[derive(Clone, Copy, Debug, PartialEq, Eq)]
pub struct FirstFault {
    pub place: usize,
    pub fault: Fault,
}

// The range of a cell, in zuniqs: those of the cells that lie in it are between the two, and its own
// is in the middle. Each is twice the hash, at the largest depth, at which the cell starts or ends.
#[derive(Clone, Copy, Debug, PartialEq, Eq)]
pub struct ZuniqRange {
    pub depth: u8,
    pub start: u64,
    pub end: u64,
}

// The first fault of a list of zuniqs, none for a valid map.
#[tactic(auto, unfolding(crate::specs::Map::map_check))]
pub fn check_is_mom<Z: ZUniqHashT>(depth: u8, zuniqs: &[Z]) -> Result<Option<FirstFault>, Refusal>
    ensures { result ≡ map_check Z.MAX_DEPTH depth (Z.numbers zuniqs.now) }
{
    if depth > Z::MAX_DEPTH {
        return Err(Refusal::DepthOutOfRange);
    }
    Ok(first_fault(depth, zuniqs))
}

// The check without its refusal, for the calls that hold a map and have tried its depth.
pub fn first_fault<Z: ZUniqHashT>(depth: u8, zuniqs: &[Z]) -> Option<FirstFault>
    ensures { result ≡ first_fault Z.MAX_DEPTH depth (Z.numbers zuniqs.now) }
{
    first_fault_in(depth, zuniqs)
}

// The same of any list. Entries that rise and do not overlap their neighbours overlap no other entry
// either, so one pass does. An entry is above the one before and does not overlap it exactly if it
// starts where that ends, or after: one comparison, whose failure has two reasons. Before the first
// entry the sky starts, at 0.
pub fn first_fault_in<L: ZuniqList>(depth: u8, list: L) -> Option<FirstFault>
    ensures { result ≡ first_fault L.Zuniq.MAX_DEPTH depth (L.numbers list) }
{
    let mut zuniq_before = 0;
    let mut end_before = 0;
    for place in 0..list.n_zuniqs() {
        let zuniq = list.zuniq_at(place);
        let Some(range) = range_of(zuniq) else {
            return Some(FirstFault {
                place,
                fault: Fault::NotZuniq,
            });
        };
        if range.depth > depth {
            return Some(FirstFault {
                place,
                fault: Fault::TooDeep,
            });
        }
        if range.start < end_before {
            if zuniq.as_u64() <= zuniq_before {
                return Some(FirstFault {
                    place,
                    fault: Fault::NotAbove,
                });
            }
            return Some(FirstFault {
                place,
                fault: Fault::Overlapping,
            });
        }
        zuniq_before = zuniq.as_u64();
        end_before = range.end;
    }
    None
}

// The range of the cell that a zuniq encodes. Half its width is a power of four.
#[tactic(auto, unfolding(crate::specs::Range::range_of, crate::specs::Range::cell_range))]
pub fn range_of<Z: ZUniqHashT>(zuniq: Z) -> Option<ZuniqRange>
    ensures { result ≡ range_of Z.MAX_DEPTH (Z.number «zuniq») }
{
    let Decoded::Cell(cell) = Z::from_zuniq(zuniq) else {
        return None;
    };
    let half = 1 << (DIM * (Z::MAX_DEPTH - cell.depth));
    let middle = zuniq.as_u64();
    Some(ZuniqRange {
        depth: cell.depth,
        start: middle - half,
        end: middle + half,
    })
}
