// Sections 3 and 6: the map check and lookup, of maps and of narrow maps; and moving between the two
// widths, note 2 of document 02.
use crate::answer::Answer;
use crate::arguments::Arguments;
use crate::error::Error;
use crate::number::Number;
use mom::Fault;
use zuniq::ZUniqHashT;

pub(crate) fn check_is_mom<Z: ZUniqHashT + Number>(
    arguments: &mut Arguments<'_>,
) -> Result<Answer, Error> {
    let depth = arguments.number()?;
    let zuniqs = arguments.list::<Z>()?;
    let Some(first) = mom::check_is_mom(depth, &zuniqs)? else {
        return Answer::case(arguments.alloc, "valid", 0);
    };
    let faulty = match first.fault {
        Fault::NotZuniq => Answer::case(arguments.alloc, "not a zuniq at", 1),
        Fault::TooDeep => Answer::case(arguments.alloc, "too deep at", 2),
        Fault::NotAbove => Answer::case(arguments.alloc, "not above at", 3),
        Fault::Overlapping => Answer::case(arguments.alloc, "overlapping at", 4),
    };
    faulty?.with(first.place)
}

pub(crate) fn get_cell_containing<Z: ZUniqHashT + Number>(
    arguments: &mut Arguments<'_>,
) -> Result<Answer, Error> {
    let depth = arguments.number()?;
    let zuniqs = arguments.list::<Z>()?;
    let query = arguments.number()?;
    let place = lookup::get_cell_containing(depth, &zuniqs, query)?;
    Answer::option(arguments.alloc, place)
}

pub(crate) fn get_overlapped_cells<Z: ZUniqHashT + Number>(
    arguments: &mut Arguments<'_>,
) -> Result<Answer, Error> {
    let zuniqs = arguments.list::<Z>()?;
    let query = arguments.number()?;
    let overlapped = lookup::get_overlapped_cells(&zuniqs, query)?;
    let answer = Answer::new(arguments.alloc).with(overlapped.first)?;
    answer.with_list(overlapped.part)
}

// A map to be moved, and the output.
#[derive(Drop)]
struct Move<Z, W> {
    depth: u8,
    zuniqs: Vec<Z>,
    counts: Vec<u32>,
    out_zuniqs: Vec<W>,
    out_counts: Vec<u32>,
}

impl<Z: Number, W: Number> Move<Z, W> {
    fn read(arguments: &mut Arguments<'_>) -> Result<Self, Error> {
        Ok(Self {
            depth: arguments.number()?,
            zuniqs: arguments.list()?,
            counts: arguments.list()?,
            out_zuniqs: arguments.list()?,
            out_counts: arguments.list()?,
        })
    }
}

pub(crate) fn move_map<Z, W>(arguments: &mut Arguments<'_>) -> Result<Answer, Error>
where
    Z: ZUniqHashT + Number,
    W: ZUniqHashT + Number,
{
    let mut map = Move::<Z, W>::read(arguments)?;
    let moved = moving::move_map(
        map.depth,
        &map.zuniqs,
        &map.counts,
        &mut map.out_zuniqs,
        &mut map.out_counts,
    )?;
    let answer = Answer::new(arguments.alloc)
        .with(moved.depth)?
        .with(moved.entries)?;
    answer
        .with_list(&map.out_zuniqs)?
        .with_list(&map.out_counts)
}
