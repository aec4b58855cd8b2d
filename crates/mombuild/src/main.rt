// Builds a map of counts from a text and prints it: section 7 of the scope.
//
// Standard input holds a line `D,M,T`, with T in thousandths, and then at most 2,048 lines
// `hash,count`. Each entry of the map is printed as `depth,hash,count`, and then `end,entries,total`;
// or only `refused,number,place`, with number 0 and the line, counted from 1, where the text is
// unreadable. All text is read before anything is checked.
//
//     2,1,3500
//     0,1
//     1,2          1,0,11
//     2,4    ->    2,5,0
//     3,4          end,2,11
//     5,0
//
// A read that fails is told as an unreadable line, that in which it broke off, and never taken for the
// end of the text. A write that fails ends the program with that error.
//
// The work is done by `print_input`, on the program's buffers; `main` only reads, calls it and writes.
// The buffers are arrays, since a program that asks for memory can be refused it.
#![tactic(auto)]

ghost use Rattle.std.specs.Prelude.{◌≡◌, ◌≤◌, length, IfSome};
ghost use Rattle.io.specs.Counts.{IsPrefixLen};
ghost use Rattle.text.specs.Text.{Written};
ghost use Rattle.mombuild.specs.Mombuild.{mombuild as mombuild_of, broken_off, map_text, thousandths, answer_text, bytes_of, step_of, HoldsInput, PrintedFor};
ghost use Rattle.mombuild.specs.Steps.{TextIs};

use build::counts::Added;
use build_counts::add_counts;
use map_text::print::{MAX_OUTPUT, print_map, print_refused};
use map_text::read::{MAX_CELLS, Settings, UnreadableLine, read_cells, read_settings};
use refusal::Refusal;
use std::io;
use std::io::Read;
use std::ops::ControlFlow;
use text::{LF, split_once};

// The number that is printed for an unreadable text.
const UNREADABLE: u64 = 0;

// One byte more than the longest readable text, a line of 63 bytes and 2,048 of 42. Of a longer
// text the first unreadable line is in this many bytes, so that no more has to be read.
const MAX_INPUT: usize = 63 + 42 * MAX_CELLS + 1;

// What could be read of the input: it ends behind so many bytes, or goes on where they fill the
// buffer; or a read failed behind so many.
type Input = Result<usize, FailedRead>;

#[derive(Clone, Copy)]
struct FailedRead {
    behind: usize,
}

// The numbers of a text, its cells standing in two buffers.
#[derive(Clone, Copy)]
struct ReadableText {
    settings: Settings,
    cells: usize,
}

fn main(rt: HostRuntime) -> io::Result<()> {
    let mut buffer = [0u8; MAX_INPUT];
    let input = read_input(&mut rt.stdin(), &mut buffer);
    let mut output = [0u8; MAX_OUTPUT];
    let end = print_input(&buffer, input, &mut output);
    rt.write_all(&output[..end])
}

// Reads until the buffer is full, the input ends or a read fails. (std's `read_to_end` asks for
// memory, and says nothing of the bytes before a read that fails.)
fn read_input<R: Read>(reader: &mut R, buffer: &mut [u8]) -> Input
    ensures within { bytes_of result ≤ length buffer.new }
    ensures first_bytes { IfSome (R.remaining reader.old) (HoldsInput result buffer.new) }
{
    let mut n = 0;
    while n < buffer.len() {
        let answer = reader.read(&mut buffer[n..]);
        match step_of(answer, n) {
            ControlFlow::Break(input) => return input,
            ControlFlow::Continue(bytes) => n += bytes,
        }
    }
    Ok(n)
}

// What a read behind n bytes comes to: so many bytes more, or the end of reading.
fn step_of(answer: io::Result<usize>, n: usize) -> ControlFlow<Result<usize, FailedRead>, usize>
    ensures { result ≡ step_of answer n }
{
    match answer {
        Err(_) => ControlFlow::Break(Err(FailedRead { behind: n })),
        Ok(0) => ControlFlow::Break(Ok(n)),
        Ok(bytes) => ControlFlow::Continue(bytes),
    }
}

// Writes what is printed for an input to the front of a buffer; answers its length.
fn print_input(buffer: &[u8; MAX_INPUT], input: Input, output: &mut [u8; MAX_OUTPUT]) -> usize
    requires { bytes_of input ≤ length buffer.now }
    ensures printed_for { PrintedFor input buffer.now output.old output.new result }
    ensures prefix_len { IsPrefixLen result output.new }
{
    match input {
        Ok(n) => mombuild(&buffer[..n], output),
        Err(failed) => print_broken_off(&buffer[..failed.behind], output),
    }
}

// What is printed for a whole text.
fn mombuild(text: &[u8], output: &mut [u8; MAX_OUTPUT]) -> usize
    ensures { Written output.old 0 (mombuild_of text.now) output.new result }
{
    let mut hashes = [0u64; MAX_CELLS];
    let mut counts = [0u32; MAX_CELLS];
    match read_text(text, &mut hashes, &mut counts) {
        Err(unreadable) => print_refused(output, UNREADABLE, unreadable.line as u64),
        Ok(read) => print_built(
            output,
            read.settings,
            &hashes[..read.cells],
            &counts[..read.cells],
        ),
    }
}

// What is printed for a text behind which a read failed.
fn print_broken_off(text: &[u8], output: &mut [u8; MAX_OUTPUT]) -> usize
    ensures { Written output.old 0 (broken_off text.now) output.new result }
{
    let mut hashes = [0u64; MAX_CELLS];
    let mut counts = [0u32; MAX_CELLS];
    match read_text(text, &mut hashes, &mut counts) {
        Err(unreadable) => print_refused(output, UNREADABLE, unreadable.line as u64),
        // The line behind the settings and the cells.
        Ok(read) => print_refused(output, UNREADABLE, read.cells as u64 + 2),
    }
}

// Reads all lines of a text.
fn read_text(
    text: &[u8],
    hashes: &mut [u64; MAX_CELLS],
    counts: &mut [u32; MAX_CELLS],
) -> Result<ReadableText, UnreadableLine>
    ensures { TextIs text.now result hashes.new counts.new }
{
    let first = UnreadableLine { line: 1 };
    let (line, rest) = split_once(text, LF).ok_or(first)?;
    let settings = read_settings(line).ok_or(first)?;
    let cells = read_cells(rest, hashes, counts)?;
    Ok(ReadableText { settings, cells })
}

// Builds the map and writes it, or why it is refused.
fn print_built(
    output: &mut [u8; MAX_OUTPUT],
    settings: Settings,
    hashes: &[u64],
    counts: &[u32],
) -> usize
    ensures { Written output.old 0 (map_text settings.depth settings.depth_threshold (thousandths settings.thousandths) hashes.now counts.now) output.new result }
{
    let mut map_zuniqs = [0u64; MAX_CELLS];
    let mut map_counts = [0u32; MAX_CELLS];
    // A text names no protected parents, so the list of them is empty.
    let added = add_counts(
        settings.depth,
        settings.depth_threshold,
        f64::from(settings.thousandths) / 1000.0,
        &[],
        0,
        &mut map_zuniqs,
        &mut map_counts,
        hashes,
        counts,
    );
    print_answer(output, added, &map_zuniqs, &map_counts)
}

// Writes what an add call answered, with the map that it left.
fn print_answer(
    output: &mut [u8; MAX_OUTPUT],
    added: Result<Added, Refusal>,
    zuniqs: &[u64; MAX_CELLS],
    counts: &[u32; MAX_CELLS],
) -> usize
    ensures { Written output.old 0 (answer_text added zuniqs.now counts.now) output.new result }
{
    match added {
        Err(refusal) => print_refused(output, u64::from(refusal.number()), refusal.place() as u64),
        Ok(map) => print_map(output, zuniqs, counts, map.entries, u64::from(map.total)),
    }
}
