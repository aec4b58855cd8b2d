// Section 4: building, under the protected parents of note 7 of document 02.
use crate::answer::Answer;
use crate::arguments::Arguments;
use crate::error::Error;
use crate::number::Number;
use zuniq::ZUniqHashT;

// D, M and T, the protected parents, the number held, the two buffers, and the batch.
#[derive(Drop)]
struct Addition<Z, V> {
    depth: u8,
    depth_threshold: u8,
    chi2_threshold: f64,
    protected: Vec<Z>,
    held: usize,
    zuniqs: Vec<Z>,
    values: Vec<V>,
    hashes: Vec<Z>,
    batch: Vec<V>,
}

impl<Z: Number, V: Number> Addition<Z, V> {
    fn read(arguments: &mut Arguments<'_>) -> Result<Self, Error> {
        Ok(Self {
            depth: arguments.number()?,
            depth_threshold: arguments.number()?,
            chi2_threshold: arguments.number()?,
            protected: arguments.list()?,
            held: arguments.number()?,
            zuniqs: arguments.list()?,
            values: arguments.list()?,
            hashes: arguments.list()?,
            batch: arguments.list()?,
        })
    }
}

pub(crate) fn add_counts<Z: ZUniqHashT + Number>(
    arguments: &mut Arguments<'_>,
) -> Result<Answer, Error> {
    let mut call = Addition::<Z, u32>::read(arguments)?;
    let added = build_counts::add_counts(
        call.depth,
        call.depth_threshold,
        call.chi2_threshold,
        &call.protected,
        call.held,
        &mut call.zuniqs,
        &mut call.values,
        &call.hashes,
        &call.batch,
    )?;
    let answer = Answer::new(arguments.alloc)
        .with(added.entries)?
        .with(added.total)?;
    answer.with_list(&call.zuniqs)?.with_list(&call.values)
}

pub(crate) fn add_densities(arguments: &mut Arguments<'_>) -> Result<Answer, Error> {
    let mut call = Addition::<u64, f64>::read(arguments)?;
    let entries = build_densities::add_densities(
        call.depth,
        call.depth_threshold,
        call.chi2_threshold,
        &call.protected,
        call.held,
        &mut call.zuniqs,
        &mut call.values,
        &call.hashes,
        &call.batch,
    )?;
    let answer = Answer::new(arguments.alloc).with(entries)?;
    answer.with_list(&call.zuniqs)?.with_list(&call.values)
}
