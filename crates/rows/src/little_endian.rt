// Numbers that stand in bytes, the lowest byte first.
ghost use Rattle.std.specs.Prelude.{◌≡◌, ◌+◌, ◌≤◌, ◌<◌, ℕ, List, map, length, take, drop};
ghost use Rattle.std.proofs.Common.{rules};
ghost use mathlib.Core.Path.{sym};
ghost use Rattle.std.proofs.lemmas.List.{map-id};
ghost use Rattle.rows.specs.LittleEndian.{to_le_bytes, from_le_bytes, put};

// A type of numbers: the zuniqs, counts and patterns of rows.
pub trait LittleEndian: Copy + Default {
    ghost SIZE: { ℕ };

    // The value as a natural number.
    ghost number: { Self → ℕ };

    ghost numbers: { List Self → List ℕ };

    // The bytes of a number.
    const SIZE: usize;

    // The number that stands at a place.
    fn read(bytes: &[u8], at: usize) -> Self
        requires { at + SIZE ≤ length bytes.now }
        ensures { number result ≡ from_le_bytes (take SIZE (drop at bytes.now)) };

    // Puts the number at a place; all other bytes stay.
    fn write(self, bytes: &mut [u8], at: usize)
        requires { at + SIZE ≤ length bytes.old }
        ensures { bytes.new ≡ put at (to_le_bytes SIZE (number self)) bytes.old };

    ghost some_bytes: { 0 < SIZE };

    ghost few_bytes: { SIZE ≤ 8 };

    ghost numbers_are: { (xs : List Self) → numbers xs ≡ map number xs };

    ghost default_is: { (x : Self) → Self.is_default x → number x ≡ 0 };
}

impl LittleEndian for u32 {
    ghost SIZE = { 4 };

    ghost number = { λ n. n };

    ghost numbers = { λ ns. ns };

    const SIZE: usize = 4;

    // Each byte by itself: compiled to one load, where a copy of the part takes some more instructions.
    fn read(bytes: &[u8], at: usize) -> u32 {
        let word = [bytes[at], bytes[at + 1], bytes[at + 2], bytes[at + 3]];
        u32::from_le_bytes(word)
    }

    fn write(self, bytes: &mut [u8], at: usize) {
        bytes[at..at + 4].copy_from_slice(&self.to_le_bytes());
    }

    ghost some_bytes = { Prim.search rules };

    ghost few_bytes = { Prim.search rules };

    ghost numbers_are = { λ ns. sym (map-id ns) };

    ghost default_is = { λ x e. e };
}

impl LittleEndian for u64 {
    ghost SIZE = { 8 };

    ghost number = { λ n. n };

    ghost numbers = { λ ns. ns };

    const SIZE: usize = 8;

    fn read(bytes: &[u8], at: usize) -> u64 {
        let word = [
            bytes[at],
            bytes[at + 1],
            bytes[at + 2],
            bytes[at + 3],
            bytes[at + 4],
            bytes[at + 5],
            bytes[at + 6],
            bytes[at + 7],
        ];
        u64::from_le_bytes(word)
    }

    fn write(self, bytes: &mut [u8], at: usize) {
        bytes[at..at + 8].copy_from_slice(&self.to_le_bytes());
    }

    ghost some_bytes = { Prim.search rules };

    ghost few_bytes = { Prim.search rules };

    ghost numbers_are = { λ ns. sym (map-id ns) };

    ghost default_is = { λ x e. e };
}
