// Four bytes of each row at once, as a word between the two layouts. The words of a block stand in an
// array, since from one loop that reads words and one that writes them the compiler makes loads and
// stores of many bytes, which it does not of a loop that moves byte after byte.
ghost use Rattle.std.specs.Prelude.{ℕ, ◌+◌, ◌*◌, ◌/◌, ◌%◌, ◌^◌, ◌≤◌, ◌<◌, length, get_or};
ghost use Rattle.columns.specs.Turning.{Part, Put, Words, byte_of};

use rows::little_endian::LittleEndian;

// The most rows of a block.
pub(crate) const BLOCK: usize = 64;

// The words of rows, of bytes that stand `column_step` apart.
pub(crate) fn read_words(
    source: &[u8],
    at: usize,
    row_step: usize,
    column_step: usize,
    words: &mut [u32],
)
    requires { (i c : ℕ) → i < length words.old → c < 4 → at + i * row_step + c * column_step < length source.now }
    ensures { Words (λ i c. at + i * row_step + c * column_step) source.now (length words.old) words.new }
{
    for i in 0..words.len() {
        let first = at + i * row_step;
        words[i] = u32::from_le_bytes([
            source[first],
            source[first + column_step],
            source[first + 2 * column_step],
            source[first + 3 * column_step],
        ]);
    }
}

// The bytes of each word, a column apart.
pub(crate) fn write_columns(words: &[u32], target: &mut [u8], to: usize, rows: usize)
    requires { (0 < length words.now) × ((i c : ℕ) → i < length words.now → c < 4 → to + i + c * rows < length target.old) }
    ensures { Put (λ i c. to + i + c * rows) (λ i c. byte_of (get_or words.now i 0) c) (Part 0 (length words.now) 0 4) target.old target.new }
{
    write_bytes(words, 0, target, to);
    write_bytes(words, 8, target, to + rows);
    write_bytes(words, 16, target, to + 2 * rows);
    write_bytes(words, 24, target, to + 3 * rows);
}

// One byte of each word, side by side.
fn write_bytes(words: &[u32], shift: u32, target: &mut [u8], to: usize)
    requires { (shift < 32) × (to + length words.now ≤ length target.old) }
    ensures { Put (λ i c. to + i) (λ i c. get_or words.now i 0 / 2 ^ shift % 256) (Part 0 (length words.now) 0 1) target.old target.new }
{
    for (i, word) in words.iter().enumerate() {
        target[to + i] = ((word >> shift) % 0x100) as u8;
    }
}

// The bytes of each word, a row apart.
pub(crate) fn write_words(words: &[u32], target: &mut [u8], to: usize, step: usize)
    requires { (i c : ℕ) → i < length words.now → c < 4 → to + i * step + c < length target.old }
    ensures { Put (λ i c. to + i * step + c) (λ i c. byte_of (get_or words.now i 0) c) (Part 0 (length words.now) 0 4) target.old target.new }
{
    for (i, word) in words.iter().enumerate() {
        word.write(target, to + i * step);
    }
}
