// Makes the library's calls that lines of text ask for: the scope's cases, printed with their answers,
// and a sample of the oracle's answers, which ours are compared with. It reads the lines from standard
// input and prints at the end how many answers are the same, for each kind of call and in all, and the
// number of the first line that is different or unreadable.
//
// A line is a call: its name and decimal numbers, parted by one space. `call` sets out the numbers of
// each kind. A number with a point and one digit, as 3.5, is an f64 and stands for its pattern.
//
// - A line that is empty or begins with # is printed as it is.
// - A line that begins with a question mark and a space asks for a call by its arguments. It is printed
//   with the answer: the values, `none`, what the merger or the check said, or `refused,number,place`. An
//   f64 in tenths is printed so, any other as its pattern.
//
//     ? chi2_count_merger 0 0 0 3.0 0 1 2 4 4  ->  chi2_count_merger 0 0 0 3.0 0 1 2 4 4 = kept 3.0
//
// - Any other has the numbers that the original Rust answered behind the arguments.
//
// Unreadable is a line with an unknown word or a foreign byte, with an argument too few or too large
// for its field, with more than 128 numbers or a list of more than 48, or without LF. An input of 327,680
// bytes or more is not replayed at all. Nor is one where a read fails, and where a write fails or memory
// runs out the program ends with that error.
#![tactic(auto)]

ghost use Rattle.std.specs.Prelude.{◌≡◌, ◌≤◌, take, vec_len, IfOk, IfSome};
ghost use Rattle.replay.specs.declared.TheConstants.{MAX_INPUT};

mod answer;
mod arguments;
mod building;
mod call;
mod cells;
mod combining;
mod error;
mod kind;
mod layouts;
mod line;
mod maps;
mod number;
mod reach;
mod tallying;

use answer::Answer;
use arguments::Arguments;
use call::call;
use error::Error;
use kind::Kind;
use line::Line;
use std::alloc::Global;
use std::io;
use std::io::Read;
use tallying::Tally;

// The input has some 277,000 bytes.
const MAX_INPUT: usize = 327_680;

fn main(rt: HostRuntime) -> io::Result<()> {
    let text = read_input(rt.alloc(), rt.stdin())?;
    // What fills the limit may be no more than the start of the input.
    if text.len() == MAX_INPUT {
        return rt.println("the input is too long");
    }
    let tally = replay(&rt, &text)?;
    print!(rt; "{tally}")
}

// Reads until the input or the limit ends.
fn read_input<R: Read + Drop>(alloc: Global, reader: R) -> io::Result<Vec<u8>>
    ensures front { IfOk result (λ text. IfSome (R.remaining reader) (λ xs. text.items ≡ take MAX_INPUT xs)) }
    ensures bound { IfOk result (λ text. vec_len text ≤ MAX_INPUT) }
{
    let mut text = Vec::with_capacity(alloc, MAX_INPUT)?;
    reader.take(MAX_INPUT as u64).read_to_end(&mut text)?;
    // Of a reader that does not tell what it has left, std does not say that `take` holds the limit.
    text.truncate(MAX_INPUT);
    Ok(text)
}

// The tally of all lines.
fn replay(rt: &(impl Print + AllocGlobal), text: &[u8]) -> io::Result<Tally> {
    let mut tally = Tally::new(rt.alloc());
    let lines = text.split_inclusive(|byte| *byte == b'\n');
    for (line, number) in lines.zip(1..=u64::MAX) {
        // A line that no LF ends may have lost digits, and is unreadable whatever it holds.
        match line.strip_suffix(b"\n") {
            Some(line) => replay_line(rt, &mut tally, number, line)?,
            None => tally.add_unreadable(number),
        }
    }
    Ok(tally)
}

fn replay_line(
    rt: &(impl Print + AllocGlobal),
    tally: &mut Tally,
    number: u64,
    line: &[u8],
) -> io::Result<()> {
    match line {
        [] | [b'#', ..] | [b'?'] => {
            rt.write_all(line)?;
            rt.write_all(b"\n")
        }
        [b'?', _, asked @ ..] => print_asked(rt, asked),
        _ => add_stored(rt.alloc(), tally, number, line),
    }
}

// A call that is asked for by its arguments alone, and its answer.
fn print_asked(rt: &(impl Print + AllocGlobal), text: &[u8]) -> io::Result<()> {
    rt.write_all(text)?;
    match answer_to(rt.alloc(), text) {
        Ok(answer) => println!(rt; " = {answer}"),
        Err(Error::OutOfMemory(error)) => Err(error.into()),
        Err(error) => println!(rt; " = {error}"),
    }
}

fn answer_to(alloc: Global, text: &[u8]) -> Result<Answer, Error> {
    let line = Line::read(alloc, text)?;
    let mut arguments = Arguments::new(alloc, &line.numbers);
    match call(line.kind, &mut arguments) {
        Ok(_) | Err(Error::Refused(_)) if !arguments.rest.is_empty() => Err(Error::Unreadable),
        answer => answer,
    }
}

// Adds a line that has a stored answer to the tally.
fn add_stored(alloc: Global, tally: &mut Tally, number: u64, text: &[u8]) -> io::Result<()> {
    match compare(alloc, text) {
        Ok((kind, is_same)) => tally.add(number, kind, is_same)?,
        Err(Error::OutOfMemory(error)) => return Err(error.into()),
        Err(_) => tally.add_unreadable(number),
    }
    Ok(())
}

// The call of a line, and whether it answers the numbers that stand behind its arguments, and no
// others. A refusal is a difference, whatever is stored: the original refuses nothing.
fn compare(alloc: Global, text: &[u8]) -> Result<(Kind, bool), Error> {
    let line = Line::read(alloc, text)?;
    let mut arguments = Arguments::new(alloc, &line.numbers);
    match call(line.kind, &mut arguments) {
        Ok(answer) => Ok((line.kind, answer.is_stored(arguments.rest))),
        Err(Error::Refused(_)) => Ok((line.kind, false)),
        Err(error) => Err(error),
    }
}
