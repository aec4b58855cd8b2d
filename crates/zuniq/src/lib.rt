// Cells and zuniqs: section 1 of the scope.
//
// A cell of the sky is a depth, 0 to 29, and a hash below N(depth) = 12 * 4^depth. Its zuniq is
// one number for both: from the top the 4 bits of the base cell, 2 bits for each depth, a sentinel
// bit and zeros. So the order of zuniqs is the order of the cells along the sky, and the number of
// trailing zeros gives the depth. A u64 holds the zuniqs of depths up to 29; a u32, for the dome
// controllers, those of depths up to 13 (note 2 of document 02).
//
// Refused: a depth over the largest (number 1), a hash that the depth does not have (7), and in the
// overlap test a value that is no zuniq (12, place 0 or 1).
#![tactic(auto)]

ghost use Rattle.std.specs.Prelude.{◌≡◌, ◌≤◌, ◌<◌, ◌*◌, ◌^◌, ltb, ℕ, List, map, Result, Ok, Err, refl};
ghost use mathlib.Core.Path.{sym};
ghost use Rattle.std.proofs.Common.{rules};
ghost use Rattle.std.proofs.lemmas.List.{map-id};
ghost use Rattle.zuniq.specs.Cells.{n_hash, overlap};
ghost use Rattle.zuniq.specs.Codec.{zuniq, IsZuniqOf, cell_number, encode, decode, overlap_test};
ghost use Rattle.refusal.specs.declared.Refusal.{Refusal};

use refusal::Refusal;

// Bits for the place of a child among its siblings.
pub const DIM: u8 = 2;
// Base cells, those of depth 0, and the bits for their hash.
pub const N_D0_CELLS: u8 = 12;

pub const N_D0_BITS: u8 = 4;

// A cell of the sky.
#[derive(Clone, Copy, Debug, PartialEq, Eq)]
pub struct Cell {
    pub depth: u8,
    pub hash: u64,
}

// What decoding a zuniq answers: the cell, or that there is none. An enum of our own and no Option: the
// scope has a decoded zuniq unpacked by `let .. else` as one.
#[derive(Clone, Copy, Debug, PartialEq, Eq)]
pub enum Decoded {
    Cell(Cell),
    Nothing,
}

// A type of zuniqs, named as in the source. A hash is handed in as a value of the same type, and answered as a
// u64, since a cell is one type for both.
pub trait ZUniqHashT: Copy {
    // The largest depth.
    ghost MAX_DEPTH: { ℕ };

    ghost MAX_SHIFT: { ℕ };

    ghost number: { Self → ℕ };

    ghost numbers: { List Self → List ℕ };

    ghost numbered: { Result Self Refusal → Result ℕ Refusal };

    const N_BYTES: u8;

    const N_BITS: u8;
    // Unused bits at the top, the sentinel bit not counted.
    const N_RESERVED_BITS: u8;
    // The largest depth, 29 or 13.
    const MAX_DEPTH: u8;
    // The trailing zeros of a base cell's zuniq, 58 or 26, the most that there are.
    const MAX_SHIFT: u8;

    // The value as a number.
    fn as_u64(self) -> u64
        ensures { result ≡ number self };

    // Whether the value is below another. A width may compare its own values: of two u32s that are widened first
    // the compiler makes two comparisons.
    fn is_below(self, other: Self) -> bool
        ensures { result ≡ ltb (number self) (number other) }
    {
        self.as_u64() < other.as_u64()
    }

    // The number as a value. Every zuniq is below this bound, twice the number of cells of the largest
    // depth.
    fn of_u64(n: u64) -> Self
        requires { n < 2 * n_hash MAX_DEPTH }
        ensures { number result ≡ n };

    ghost max_depth: { MAX_DEPTH ≤ 29 };

    ghost max_shift: { MAX_SHIFT ≡ 2 * MAX_DEPTH };

    ghost numbers_are: { (zs : List Self) → numbers zs ≡ map number zs };

    ghost numbered_ok: { (z : Self) → numbered (Ok z) ≡ Ok (number z) };

    ghost numbered_err: { (r : Refusal) → numbered (Err r) ≡ Err r };

    // The zuniq of a cell.
    #[tactic(auto, unfolding(crate::specs::Codec::encode))]
    final fn to_zuniq(depth: u8, hash: Self) -> Result<Self, Refusal>
        ensures { numbered result ≡ encode MAX_DEPTH depth (number hash) }
    {
        if depth > Self::MAX_DEPTH {
            return Err(Refusal::DepthOutOfRange);
        }
        if hash.as_u64() >= n_hash_unchecked(depth) {
            return Err(Refusal::HashOutOfRange(0));
        }
        Ok(Self::to_zuniq_unchecked(depth, hash.as_u64()))
    }

    // The sentinel bit goes behind the hash; zeros fill up to the largest depth.
    final fn to_zuniq_unchecked(depth: u8, hash: u64) -> Self
        requires { (depth ≤ MAX_DEPTH) × (hash < n_hash depth) }
        ensures { number result ≡ zuniq MAX_DEPTH depth hash }
    {
        Self::of_u64((2 * hash + 1) << (DIM * (Self::MAX_DEPTH - depth)))
    }

    // Of the values below the bound those are zuniqs whose trailing zeros are even and at most twice
    // the largest depth.
    final fn from_zuniq(zuniq: Self) -> Decoded
        ensures answer { result ≡ decode MAX_DEPTH (number «zuniq») }
        ensures cell { (c : Cell) → result ≡ Decoded.Cell c → IsZuniqOf MAX_DEPTH (number «zuniq») c.depth c.hash }
    {
        let number = zuniq.as_u64();
        let end = 2 * n_hash_unchecked(Self::MAX_DEPTH);
        if number >= end {
            return Decoded::Nothing;
        }
        let n_trailing_zero = u64::trailing_zeros(number);
        if n_trailing_zero > Self::MAX_SHIFT as u32 {
            return Decoded::Nothing;
        }
        if n_trailing_zero % 2 == 1 {
            return Decoded::Nothing;
        }
        Decoded::Cell(Cell {
            depth: (Self::MAX_DEPTH as u32 - n_trailing_zero / 2) as u8,
            hash: number >> (n_trailing_zero + 1),
        })
    }

    // Whether the cell of one zuniq lies in that of the other.
    #[tactic(auto, unfolding(crate::specs::Codec::overlap_test, crate::specs::Codec::overlap_of))]
    final fn are_overlapping(zuniq_l: Self, zuniq_r: Self) -> Result<bool, Refusal>
        ensures { result ≡ overlap_test MAX_DEPTH (number zuniq_l) (number zuniq_r) }
    {
        let Decoded::Cell(l) = Self::from_zuniq(zuniq_l) else {
            return Err(Refusal::InvalidQuery(0));
        };
        let Decoded::Cell(r) = Self::from_zuniq(zuniq_r) else {
            return Err(Refusal::InvalidQuery(1));
        };
        Ok(are_overlapping_cells(l.depth, l.hash, r.depth, r.hash))
    }
}

impl ZUniqHashT for u64 {
    ghost MAX_DEPTH = { 29 };

    ghost MAX_SHIFT = { 58 };

    ghost number = { λ z. z };

    ghost numbers = { λ zs. zs };

    ghost numbered = { λ r. r };

    const N_BYTES: u8 = 8;

    const N_BITS: u8 = 8 * Self::N_BYTES;

    const N_RESERVED_BITS: u8 = 2;

    const MAX_DEPTH: u8 = (Self::N_BITS - (Self::N_RESERVED_BITS + N_D0_BITS)) / DIM;

    const MAX_SHIFT: u8 = DIM * Self::MAX_DEPTH;

    fn as_u64(self) -> u64 {
        self
    }

    fn of_u64(n: u64) -> u64 {
        n
    }

    ghost max_depth = { Prim.search rules };

    ghost max_shift = { Prim.search rules };

    ghost numbers_are = { λ zs. sym (map-id zs) };

    ghost numbered_ok = { λ z. refl };

    ghost numbered_err = { λ r. refl };
}

impl ZUniqHashT for u32 {
    ghost MAX_DEPTH = { 13 };

    ghost MAX_SHIFT = { 26 };

    ghost number = { λ z. z };

    ghost numbers = { λ zs. zs };

    ghost numbered = { λ r. r };

    const N_BYTES: u8 = 4;

    const N_BITS: u8 = 8 * Self::N_BYTES;

    const N_RESERVED_BITS: u8 = 2;

    const MAX_DEPTH: u8 = (Self::N_BITS - (Self::N_RESERVED_BITS + N_D0_BITS)) / DIM;

    const MAX_SHIFT: u8 = DIM * Self::MAX_DEPTH;

    fn as_u64(self) -> u64 {
        self as u64
    }

    fn is_below(self, other: u32) -> bool {
        self < other
    }

    fn of_u64(n: u64) -> u32 {
        n as u32
    }

    ghost max_depth = { Prim.search rules };

    ghost max_shift = { Prim.search rules };

    ghost numbers_are = { λ zs. sym (map-id zs) };

    ghost numbered_ok = { λ z. refl };

    ghost numbered_err = { λ r. refl };
}

// The number of cells at a depth.
#[tactic(auto, unfolding(crate::specs::Codec::cell_number))]
pub fn n_hash(depth: u8) -> Result<u64, Refusal>
    ensures { result ≡ cell_number 29 depth }
{
    if depth > u64::MAX_DEPTH {
        return Err(Refusal::DepthOutOfRange);
    }
    Ok(n_hash_unchecked(depth))
}

// 12 base cells, and at each further depth four cells for one: a shift by two bits. Up to depth 29
// no bit is lost.
pub fn n_hash_unchecked(depth: u8) -> u64
    requires { depth ≤ 29 }
    ensures { result ≡ n_hash depth }
{
    (N_D0_CELLS as u64) << (DIM * depth)
}

// Whether one of two cells lies in the other: the deeper one's ancestor at the other's depth is that
// other.
fn are_overlapping_cells(depth_l: u8, hash_l: u64, depth_r: u8, hash_r: u64) -> bool
    requires { (depth_l ≤ 29) × (depth_r ≤ 29) }
    ensures { result ≡ overlap depth_l hash_l depth_r hash_r }
{
    if depth_l <= depth_r {
        return hash_l == hash_r >> (DIM * (depth_r - depth_l));
    }
    hash_r == hash_l >> (DIM * (depth_l - depth_r))
}
