// Coverage and clipping, note 6 of document 02.
use crate::answer::Answer;
use crate::arguments::Arguments;
use crate::error::Error;

pub(crate) fn coverage(arguments: &mut Arguments<'_>) -> Result<Answer, Error> {
    let depth = arguments.number()?;
    let zuniqs = arguments.list()?;
    let mut starts = arguments.list()?;
    let mut ends = arguments.list()?;
    let ranges = coverage::coverage(depth, &zuniqs, &mut starts, &mut ends)?;
    let answer = Answer::new(arguments.alloc).with(ranges)?;
    answer.with_list(&starts)?.with_list(&ends)
}

pub(crate) fn clip(arguments: &mut Arguments<'_>) -> Result<Answer, Error> {
    let depth = arguments.number()?;
    let map_zuniqs = arguments.list()?;
    let map_densities = arguments.list()?;
    let starts = arguments.list()?;
    let ends = arguments.list()?;
    let mut zuniqs = arguments.list()?;
    let mut densities = arguments.list()?;
    let cells = clip::clip(
        depth,
        &map_zuniqs,
        &map_densities,
        &starts,
        &ends,
        &mut zuniqs,
        &mut densities,
    )?;
    let answer = Answer::new(arguments.alloc).with(cells)?;
    answer.with_list(&zuniqs)?.with_list(&densities)
}
