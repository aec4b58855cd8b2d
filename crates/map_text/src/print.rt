// Printing: a line for each entry and a last one, or only a refusal. Each public call writes to the
// front of a lent buffer that holds any of it, and answers the place behind: a slice of it would not
// say, as `Written` does, that all else in the buffer is as it was.
ghost use Rattle.std.specs.Prelude.{◌≡◌, ◌++◌, ◌+◌, ◌*◌, ◌≤◌, length, take};
ghost use Rattle.zuniq.specs.Codec.{decode};
ghost use Rattle.text.specs.Text.{Written, Appends};
ghost use Rattle.map_text.specs.Lines.{pair_text, entry_text, zuniq_text, entries_text, end_text, refused_text};

use crate::read::MAX_CELLS;
use text::Output;
use zuniq::{Decoded, ZUniqHashT};

// The longest text printed: as many entries as there are cells and the last line, of at most 63
// bytes each.
pub const MAX_OUTPUT: usize = 63 * (MAX_CELLS + 1);

// refused,number,place
pub fn print_refused(output: &mut [u8; MAX_OUTPUT], number: u64, place: u64) -> usize
    ensures { Written output.old 0 (refused_text «number» «place») output.new result }
{
    let mut output = Output {
        buffer: output,
        end: 0,
    };
    output.put(b"refused,");
    print_pair(&mut output, number, place);
    output.end
}

// The first `entries` of two buffers as entries of a map, and then end,entries,total
pub fn print_map(
    output: &mut [u8; MAX_OUTPUT],
    zuniqs: &[u64; MAX_CELLS],
    counts: &[u32; MAX_CELLS],
    entries: usize,
    total: u64,
) -> usize
    ensures { Written output.old 0 (entries_text (take «entries» zuniqs.now) (take «entries» counts.now) ++ end_text «entries» «total») output.new result }
{
    let mut output = Output {
        buffer: output,
        end: 0,
    };
    let held = entries.min(MAX_CELLS);
    print_entries(&mut output, &zuniqs[..held], &counts[..held]);
    print_end(&mut output, entries as u64, total);
    output.end
}

// end,entries,total
fn print_end(output: &mut Output<'_>, entries: u64, total: u64)
    requires { output.old.end + 63 ≤ length output.old.buffer.now }
    ensures same_buffer { output.new.buffer.ghost_name ≡ output.old.buffer.ghost_name }
    ensures appends { Appends output.old (end_text «entries» «total») output.new }
{
    output.put(b"end,");
    print_pair(output, entries, total);
}

// depth,hash,count
fn print_entry(output: &mut Output<'_>, depth: u8, hash: u64, count: u32)
    requires { output.old.end + 63 ≤ length output.old.buffer.now }
    ensures same_buffer { output.new.buffer.ghost_name ≡ output.old.buffer.ghost_name }
    ensures appends { Appends output.old (entry_text depth hash count) output.new }
{
    output.put_number(u64::from(depth));
    output.put(b",");
    print_pair(output, hash, u64::from(count));
}

// Two numbers at the end of a line.
fn print_pair(output: &mut Output<'_>, left: u64, right: u64)
    requires { output.old.end + 42 ≤ length output.old.buffer.now }
    ensures same_buffer { output.new.buffer.ghost_name ≡ output.old.buffer.ghost_name }
    ensures appends { Appends output.old (pair_text left right) output.new }
{
    output.put_number(left);
    output.put(b",");
    output.put_number(right);
    output.put(b"\n");
}

// The entry that a zuniq and a count make.
fn print_zuniq(output: &mut Output<'_>, zuniq: u64, count: u32)
    requires { output.old.end + 63 ≤ length output.old.buffer.now }
    ensures same_buffer { output.new.buffer.ghost_name ≡ output.old.buffer.ghost_name }
    ensures appends { Appends output.old (zuniq_text (decode 29 zuniq) count) output.new }
{
    let Decoded::Cell(cell) = u64::from_zuniq(zuniq) else {
        return;
    };
    print_entry(output, cell.depth, cell.hash, count);
}

// The entries of a map.
fn print_entries(output: &mut Output<'_>, zuniqs: &[u64], counts: &[u32])
    requires { output.old.end + 63 * length zuniqs.now ≤ length output.old.buffer.now }
    ensures same_buffer { output.new.buffer.ghost_name ≡ output.old.buffer.ghost_name }
    ensures appends { Appends output.old (entries_text zuniqs.now counts.now) output.new }
{
    for (zuniq, count) in zuniqs.iter().zip(counts) {
        print_zuniq(output, *zuniq, *count);
    }
}
