// Section 5: pooling, in one call or asked before done (note 8 of document 02), and the product.
use crate::answer::Answer;
use crate::arguments::Arguments;
use crate::error::Error;
use crate::number::Number;
use build::counts::Added;
use combine::counts::Figures;

// A map, with its depth.
#[derive(Drop)]
struct Map<V> {
    depth: u8,
    zuniqs: Vec<u64>,
    values: Vec<V>,
}

impl<V: Number> Map<V> {
    fn read(arguments: &mut Arguments<'_>) -> Result<Self, Error> {
        Ok(Self {
            depth: arguments.number()?,
            zuniqs: arguments.list()?,
            values: arguments.list()?,
        })
    }
}

// What pool, ask and commit begin with: two maps, M and T, and the protected parents.
#[derive(Drop)]
struct Pooling {
    left: Map<u32>,
    right: Map<u32>,
    depth_threshold: u8,
    chi2_threshold: f64,
    protected: Vec<u64>,
}

impl Pooling {
    fn read(arguments: &mut Arguments<'_>) -> Result<Self, Error> {
        Ok(Self {
            left: Map::read(arguments)?,
            right: Map::read(arguments)?,
            depth_threshold: arguments.number()?,
            chi2_threshold: arguments.number()?,
            protected: arguments.list()?,
        })
    }
}

pub(crate) fn pool(arguments: &mut Arguments<'_>) -> Result<Answer, Error> {
    let call = Pooling::read(arguments)?;
    let mut zuniqs = arguments.list()?;
    let mut counts = arguments.list()?;
    let added = pool::pool(
        call.left.depth,
        &call.left.zuniqs,
        &call.left.values,
        call.right.depth,
        &call.right.zuniqs,
        &call.right.values,
        call.depth_threshold,
        call.chi2_threshold,
        &call.protected,
        &mut zuniqs,
        &mut counts,
    )?;
    pooled(Answer::new(arguments.alloc), added, &zuniqs, &counts)
}

pub(crate) fn ask(arguments: &mut Arguments<'_>) -> Result<Answer, Error> {
    let call = Pooling::read(arguments)?;
    let figures = ask::ask(
        call.left.depth,
        &call.left.zuniqs,
        &call.left.values,
        call.right.depth,
        &call.right.zuniqs,
        &call.right.values,
        call.depth_threshold,
        call.chi2_threshold,
        &call.protected,
    )?;
    let answer = Answer::new(arguments.alloc).with(figures.cells)?;
    answer.with(figures.entries)?.with(figures.total)
}

pub(crate) fn commit(arguments: &mut Arguments<'_>) -> Result<Answer, Error> {
    let call = Pooling::read(arguments)?;
    let figures = Figures {
        cells: arguments.number()?,
        entries: arguments.number()?,
        total: arguments.number()?,
    };
    let mut zuniqs = arguments.list()?;
    let mut counts = arguments.list()?;
    let added = ask::commit(
        call.left.depth,
        &call.left.zuniqs,
        &call.left.values,
        call.right.depth,
        &call.right.zuniqs,
        &call.right.values,
        call.depth_threshold,
        call.chi2_threshold,
        &call.protected,
        figures,
        &mut zuniqs,
        &mut counts,
    )?;
    pooled(Answer::new(arguments.alloc), added, &zuniqs, &counts)
}

// The entries and the total of a pool, with both buffers as it left them.
fn pooled(answer: Answer, added: Added, zuniqs: &[u64], counts: &[u32]) -> Result<Answer, Error> {
    let answer = answer.with(added.entries)?.with(added.total)?;
    answer.with_list(zuniqs)?.with_list(counts)
}

pub(crate) fn product(arguments: &mut Arguments<'_>) -> Result<Answer, Error> {
    let left = Map::read(arguments)?;
    let right = Map::read(arguments)?;
    let depth_threshold = arguments.number()?;
    let chi2_threshold = arguments.number()?;
    let k = arguments.number()?;
    let protected = arguments.list()?;
    let mut zuniqs = arguments.list()?;
    let mut densities = arguments.list()?;
    let entries = product::product(
        left.depth,
        &left.zuniqs,
        &left.values,
        right.depth,
        &right.zuniqs,
        &right.values,
        depth_threshold,
        chi2_threshold,
        k,
        &protected,
        &mut zuniqs,
        &mut densities,
    )?;
    let answer = Answer::new(arguments.alloc).with(entries)?;
    answer.with_list(&zuniqs)?.with_list(&densities)
}
