// Sections 1, 2 and 7 of the scope: cells and zuniqs, the mergers, on a quad whose parent may be protected
// (note 7 of document 02), and densities.
use crate::answer::Answer;
use crate::arguments::Arguments;
use crate::error::Error;
use crate::number::Number;
use merger::Merge;
use zuniq::{Decoded, ZUniqHashT};

pub(crate) fn n_hash(arguments: &mut Arguments<'_>) -> Result<Answer, Error> {
    let depth = arguments.number()?;
    let cells = zuniq::n_hash(depth)?;
    Answer::new(arguments.alloc).with(cells)
}

pub(crate) fn to_zuniq<Z: ZUniqHashT + Number>(
    arguments: &mut Arguments<'_>,
) -> Result<Answer, Error> {
    let depth = arguments.number()?;
    let hash = arguments.number()?;
    let zuniq: Z = Z::to_zuniq(depth, hash)?;
    Answer::new(arguments.alloc).with(zuniq)
}

pub(crate) fn from_zuniq<Z: ZUniqHashT + Number>(
    arguments: &mut Arguments<'_>,
) -> Result<Answer, Error> {
    let zuniq = arguments.number()?;
    let Decoded::Cell(cell) = Z::from_zuniq(zuniq) else {
        return Ok(Answer::none(arguments.alloc));
    };
    Answer::new(arguments.alloc)
        .with(cell.depth)?
        .with(cell.hash)
}

pub(crate) fn are_overlapping<Z: ZUniqHashT + Number>(
    arguments: &mut Arguments<'_>,
) -> Result<Answer, Error> {
    let left = arguments.number()?;
    let right = arguments.number()?;
    let is_overlapping = Z::are_overlapping(left, right)?;
    Answer::new(arguments.alloc).with(is_overlapping as u8)
}

// P, the hash, M and T, the protected parents, and the values of the four.
#[derive(Drop)]
struct Quad<V> {
    parent_depth: u8,
    parent_hash: u64,
    depth_threshold: u8,
    chi2_threshold: f64,
    protected: Vec<u64>,
    value0: V,
    value1: V,
    value2: V,
    value3: V,
}

impl<V: Number> Quad<V> {
    fn read(arguments: &mut Arguments<'_>) -> Result<Self, Error> {
        Ok(Self {
            parent_depth: arguments.number()?,
            parent_hash: arguments.number()?,
            depth_threshold: arguments.number()?,
            chi2_threshold: arguments.number()?,
            protected: arguments.list()?,
            value0: arguments.number()?,
            value1: arguments.number()?,
            value2: arguments.number()?,
            value3: arguments.number()?,
        })
    }
}

pub(crate) fn chi2_count_merger(arguments: &mut Arguments<'_>) -> Result<Answer, Error> {
    let quad = Quad::read(arguments)?;
    let merge = merger::chi2_count_merger(
        quad.parent_depth,
        quad.parent_hash,
        quad.depth_threshold,
        quad.chi2_threshold,
        &quad.protected,
        quad.value0,
        quad.value1,
        quad.value2,
        quad.value3,
    )?;
    merged(arguments, merge)
}

pub(crate) fn chi2_density_merger(arguments: &mut Arguments<'_>) -> Result<Answer, Error> {
    let quad = Quad::read(arguments)?;
    let merge = merger::chi2_density_merger(
        quad.parent_depth,
        quad.parent_hash,
        quad.depth_threshold,
        quad.chi2_threshold,
        &quad.protected,
        quad.value0,
        quad.value1,
        quad.value2,
        quad.value3,
    )?;
    merged(arguments, merge)
}

// What a merger answered.
fn merged<V: Number>(arguments: &mut Arguments<'_>, merge: Merge<V>) -> Result<Answer, Error> {
    match merge {
        Merge::Merged(value) => Answer::case(arguments.alloc, "merged", 1)?.with(value),
        Merge::Kept(chi2) => Answer::case(arguments.alloc, "kept", 0)?.with(chi2),
    }
}

pub(crate) fn density_of_count(arguments: &mut Arguments<'_>) -> Result<Answer, Error> {
    let depth = arguments.number()?;
    let count = arguments.number()?;
    let density = density::density_of_count(depth, count)?;
    Answer::new(arguments.alloc).with(density)
}

pub(crate) fn density_of_pattern(arguments: &mut Arguments<'_>) -> Result<Answer, Error> {
    let pattern = arguments.number()?;
    Answer::option(arguments.alloc, density::density_of_pattern(pattern))
}

pub(crate) fn pattern_of_density(arguments: &mut Arguments<'_>) -> Result<Answer, Error> {
    let density = arguments.number()?;
    Answer::option(arguments.alloc, density::pattern_of_density(density))
}
