// Section 7: rows, of counts, of densities and of narrow maps, read and written; and rows laid out by byte
// column, note 3 of document 02, and the way back. Each call fills the buffers that it is lent.
use crate::answer::Answer;
use crate::arguments::Arguments;
use crate::error::Error;
use crate::number::Number;
use refusal::Refusal;
use rows::little_endian::LittleEndian;

pub(crate) fn read_rows<Z, V>(arguments: &mut Arguments<'_>) -> Result<Answer, Error>
where
    Z: Number + LittleEndian,
    V: Number + LittleEndian,
{
    let bytes = arguments.list::<u8>()?;
    let mut zuniqs = arguments.list::<Z>()?;
    let mut values = arguments.list::<V>()?;
    let rows = rows::read_rows(&bytes, &mut zuniqs, &mut values)?;
    let answer = Answer::new(arguments.alloc).with(rows)?;
    answer.with_list(&zuniqs)?.with_list(&values)
}

pub(crate) fn write_rows<Z, V>(arguments: &mut Arguments<'_>) -> Result<Answer, Error>
where
    Z: Number + LittleEndian,
    V: Number + LittleEndian,
{
    let zuniqs = arguments.list::<Z>()?;
    let values = arguments.list::<V>()?;
    let mut bytes = arguments.list::<u8>()?;
    let rows = rows::write_rows(&zuniqs, &values, &mut bytes)?;
    Answer::new(arguments.alloc).with(rows)?.with_list(&bytes)
}

// Lays rows out by column, or columns by row.
pub(crate) fn lay_out<F>(arguments: &mut Arguments<'_>, lay: F) -> Result<Answer, Error>
where
    F: FnOnce(usize, &[u8], &mut [u8]) -> Result<usize, Refusal>,
    requires { F.IsAlwaysCallable lay }
{
    let row_size = arguments.number()?;
    let from = arguments.list::<u8>()?;
    let mut to = arguments.list::<u8>()?;
    let rows = lay(row_size, &from, &mut to)?;
    Answer::new(arguments.alloc).with(rows)?.with_list(&to)
}
