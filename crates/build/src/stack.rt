// A map that stands in the first places of two lent buffers, one of zuniqs and one of values, and cells
// that are put on top of it. The zuniqs are of either width, and the values those of any merger. The buffers go
// on as two slices with a number of entries: the scope has them lent from their middle on.
ghost use Rattle.std.specs.Prelude.{◌≡◌, true, ◌&&◌, ◌+◌, ◌-◌, ◌*◌, ◌^◌, ◌≤◌, ◌<◌, ◌%◌, ltb, length, get_or, set};
ghost use mathlib.Core.List.{reverse_aux};
ghost use Rattle.zuniq.specs.Cells.{n_hash};
ghost use Rattle.zuniq.specs.Codec.{IsZuniqOf};
ghost use Rattle.build.specs.Map.{entry};
ghost use Rattle.build.specs.Promises.{total};
ghost use Rattle.build.specs.Buffers.{held, batch as batch_of};
ghost use Rattle.build.specs.Standing.{quad_at, siblings_from, Stands, Rising, siblings, Collapsed, Pushed, Added};

use super::free::put;
use merger::{Merge, Merger};
use zuniq::{DIM, ZUniqHashT};

// Appends the cells of a batch behind n entries. A turn takes four cells or one, so that no iterator gives
// them. Answers the number of entries.
pub fn push_all<M: Merger>(
    merger: &M,
    zuniqs: &mut [M::Zuniq],
    values: &mut [M::Value],
    mut n: usize,
    depth: u8,
    hashes: &[M::Zuniq],
    batch: &[M::Value],
) -> usize
    requires stands { Stands M.Zuniq.MAX_DEPTH n (M.Zuniq.numbers zuniqs.old) values.old × (depth ≤ M.Zuniq.MAX_DEPTH) × (length hashes.now ≡ length batch.now) × (n + length hashes.now ≤ length zuniqs.old) × (n + length hashes.now ≤ length values.old) }
    requires rising { Rising depth (M.Zuniq.numbers hashes.now) }
    requires batch_bound { total M.weight (held M.Zuniq.MAX_DEPTH n (M.Zuniq.numbers zuniqs.old) values.old) + total M.weight (batch_of depth (M.Zuniq.numbers hashes.now) batch.now) ≤ 4294967295 }
    ensures { Added (M.accept merger.now) M.Zuniq.MAX_DEPTH n (batch_of depth (M.Zuniq.numbers hashes.now) batch.now) (M.Zuniq.numbers zuniqs.old) values.old result (M.Zuniq.numbers zuniqs.new) values.new }
{
    let mut i = 0;
    while i < hashes.len() {
        let hash = hashes[i].as_u64();
        if are_next_siblings(depth, hashes, i) {
            n = push_siblings(
                merger,
                zuniqs,
                values,
                n,
                depth,
                hash,
                batch[i],
                batch[i + 1],
                batch[i + 2],
                batch[i + 3],
            );
            i += 4;
        } else {
            let zuniq = M::Zuniq::to_zuniq_unchecked(depth, hash);
            n = push(merger, zuniqs, values, n, depth, hash, zuniq, batch[i]);
            i += 1;
        }
    }
    n
}

// Appends four siblings, of which the first is given, behind n entries. What the merger accepts goes
// in as the parent at once: the four are not written, to be read again. Answers the number of entries.
fn push_siblings<M: Merger>(
    merger: &M,
    zuniqs: &mut [M::Zuniq],
    values: &mut [M::Value],
    n: usize,
    depth: u8,
    hash: u64,
    v0: M::Value,
    v1: M::Value,
    v2: M::Value,
    v3: M::Value,
) -> usize
    requires room { Stands M.Zuniq.MAX_DEPTH n (M.Zuniq.numbers zuniqs.old) values.old × (n + 4 ≤ length zuniqs.old) × (n + 4 ≤ length values.old) }
    requires quad { (0 < depth) × (depth ≤ M.Zuniq.MAX_DEPTH) × (hash + 3 < n_hash depth) × (hash % 4 ≡ 0) }
    requires fits { M.weight v0 + M.weight v1 + M.weight v2 + M.weight v3 + total M.weight (held M.Zuniq.MAX_DEPTH n (M.Zuniq.numbers zuniqs.old) values.old) ≤ 4294967295 }
    ensures { Added (M.accept merger.now) M.Zuniq.MAX_DEPTH n (siblings depth hash v0 v1 v2 v3) (M.Zuniq.numbers zuniqs.old) values.old result (M.Zuniq.numbers zuniqs.new) values.new }
{
    let parent_depth = depth - 1;
    let parent_hash = hash / 4;
    let Merge::Merged(value) = merger.merge(parent_depth, parent_hash, v0, v1, v2, v3) else {
        append_siblings(zuniqs, values, n, depth, hash, v0, v1, v2, v3);
        return n + 4;
    };
    let zuniq = M::Zuniq::to_zuniq_unchecked(parent_depth, parent_hash);
    append(zuniqs, values, n, zuniq, value);
    if parent_hash % 4 != 3 {
        return n + 1;
    }
    collapse(
        merger,
        zuniqs,
        values,
        n + 1,
        parent_depth,
        parent_hash,
        value,
    )
}

// Puts four siblings, of which the first is given, behind n entries.
fn append_siblings<Z: ZUniqHashT, V: Copy>(
    zuniqs: &mut [Z],
    values: &mut [V],
    n: usize,
    depth: u8,
    hash: u64,
    v0: V,
    v1: V,
    v2: V,
    v3: V,
)
    requires { Stands Z.MAX_DEPTH n (Z.numbers zuniqs.old) values.old × (n + 4 ≤ length zuniqs.old) × (n + 4 ≤ length values.old) × (depth ≤ Z.MAX_DEPTH) × (hash + 3 < n_hash depth) }
    ensures { Stands Z.MAX_DEPTH (n + 4) (Z.numbers zuniqs.new) values.new × (held Z.MAX_DEPTH (n + 4) (Z.numbers zuniqs.new) values.new ≡ reverse_aux (siblings depth hash v0 v1 v2 v3) (held Z.MAX_DEPTH n (Z.numbers zuniqs.old) values.old)) }
{
    let zuniq0 = Z::to_zuniq_unchecked(depth, hash);
    let zuniq1 = Z::to_zuniq_unchecked(depth, hash + 1);
    let zuniq2 = Z::to_zuniq_unchecked(depth, hash + 2);
    let zuniq3 = Z::to_zuniq_unchecked(depth, hash + 3);
    append(zuniqs, values, n, zuniq0, v0);
    append(zuniqs, values, n + 1, zuniq1, v1);
    append(zuniqs, values, n + 2, zuniq2, v2);
    append(zuniqs, values, n + 3, zuniq3, v3);
}

// Appends a cell, given with its zuniq, behind n entries, and merges what can be. Answers the number
// of entries.
pub fn push<M: Merger>(
    merger: &M,
    zuniqs: &mut [M::Zuniq],
    values: &mut [M::Value],
    n: usize,
    depth: u8,
    hash: u64,
    zuniq: M::Zuniq,
    value: M::Value,
) -> usize
    requires room { Stands M.Zuniq.MAX_DEPTH n (M.Zuniq.numbers zuniqs.old) values.old × (n < length zuniqs.old) × (n < length values.old) }
    requires cell { IsZuniqOf M.Zuniq.MAX_DEPTH (M.Zuniq.number «zuniq») depth hash }
    requires fits { M.weight value + total M.weight (held M.Zuniq.MAX_DEPTH n (M.Zuniq.numbers zuniqs.old) values.old) ≤ 4294967295 }
    ensures { Pushed (M.accept merger.now) M.Zuniq.MAX_DEPTH n (entry depth hash value) (M.Zuniq.numbers zuniqs.old) values.old result (M.Zuniq.numbers zuniqs.new) values.new }
{
    append(zuniqs, values, n, zuniq, value);
    // Most cells complete no four siblings: for them that is all.
    if !are_siblings(zuniqs, n + 1, depth, hash) {
        return n + 1;
    }
    collapse(merger, zuniqs, values, n + 1, depth, hash, value)
}

// Puts an entry behind n others, at the front of the free part of the buffers.
fn append<Z: ZUniqHashT, V: Copy>(zuniqs: &mut [Z], values: &mut [V], n: usize, zuniq: Z, value: V)
    requires { (n < length zuniqs.old) × (n < length values.old) }
    ensures { (Z.numbers zuniqs.new ≡ set (Z.numbers zuniqs.old) n (Z.number «zuniq»)) × (values.new ≡ set values.old n value) }
{
    put(&mut zuniqs[n..], zuniq);
    put(&mut values[n..], value);
}

// Merges the last four of n entries as long as they are siblings that the merger accepts. The last entry
// is the cell given, with its value, which is not read back from where it was just written; answers
// the number of entries left.
fn collapse<M: Merger>(
    merger: &M,
    zuniqs: &mut [M::Zuniq],
    values: &mut [M::Value],
    mut n: usize,
    mut depth: u8,
    mut hash: u64,
    mut value: M::Value,
) -> usize
    requires top { (0 < n) × IsZuniqOf M.Zuniq.MAX_DEPTH (get_or (M.Zuniq.numbers zuniqs.old) (n - 1) 0) depth hash × (get_or values.old (n - 1) value ≡ value) }
    requires fits { Stands M.Zuniq.MAX_DEPTH n (M.Zuniq.numbers zuniqs.old) values.old × (total M.weight (held M.Zuniq.MAX_DEPTH n (M.Zuniq.numbers zuniqs.old) values.old) ≤ 4294967295) }
    ensures { Collapsed (M.accept merger.now) M.Zuniq.MAX_DEPTH n (M.Zuniq.numbers zuniqs.old) values.old result (M.Zuniq.numbers zuniqs.new) values.new }
{
    // It ends where nothing is merged, which no range tells.
    while depth > 0 {
        if !are_siblings(zuniqs, n, depth, hash) {
            return n;
        }
        depth -= 1;
        hash /= 4;
        let first = n - 4;
        match merger.merge(
            depth,
            hash,
            values[first],
            values[n - 3],
            values[n - 2],
            value,
        ) {
            Merge::Kept(_) => return n,
            Merge::Merged(parent) => {
                zuniqs[first] = M::Zuniq::to_zuniq_unchecked(depth, hash);
                values[first] = parent;
                value = parent;
                n = first + 1;
            }
        }
    }
    n
}

// Whether the last four of n entries are children 0 to 3 of one parent, the last one being the cell
// given. Most cells are no fourth child: for them one test is all. Base cells have no parent: collapsing
// ends at depth 0.
pub fn are_siblings<Z: ZUniqHashT>(zuniqs: &[Z], n: usize, depth: u8, hash: u64) -> bool
    requires { (n ≤ length zuniqs.now) × IsZuniqOf Z.MAX_DEPTH (get_or (Z.numbers zuniqs.now) (n - 1) 0) depth hash }
    ensures { result ≡ quad_at Z.MAX_DEPTH n (Z.numbers zuniqs.now) depth hash }
{
    if hash % 4 != 3 {
        return false;
    }
    if n < 4 {
        return false;
    }
    let gap = sibling_gap::<Z>(depth);
    let last = zuniqs[n - 1].as_u64();
    if zuniqs[n - 2].as_u64() != last - gap {
        return false;
    }
    if zuniqs[n - 3].as_u64() != last - 2 * gap {
        return false;
    }
    zuniqs[n - 4].as_u64() == last - 3 * gap
}

// Whether the hashes of a depth, from a place on, are those of children 0 to 3 of one parent. Hashes that
// rise have the fourth of them three places further on only if all four stand there: one comparison tells.
// Base cells have no parent, though their hashes 0 to 3, 4 to 7 and 8 to 11 pass that test.
pub fn are_next_siblings<Z: ZUniqHashT>(depth: u8, hashes: &[Z], i: usize) -> bool
    ensures within { result ≡ true → i + 4 ≤ length hashes.now }
    ensures is { result ≡ (ltb 0 depth && siblings_from (Z.numbers hashes.now) i) }
{
    if depth == 0 {
        return false;
    }
    let len = hashes.len();
    if i > len {
        return false;
    }
    if len - i < 4 {
        return false;
    }
    let parent = hashes[i].as_u64() / 4;
    hashes[i + 3].as_u64() == 4 * parent + 3
}

// How far apart the zuniqs of a cell and of the next of its depth are.
fn sibling_gap<Z: ZUniqHashT>(depth: u8) -> u64
    requires { depth ≤ Z.MAX_DEPTH }
    ensures { result ≡ 2 * 4 ^ (Z.MAX_DEPTH - depth) }
{
    2 << (DIM * (Z::MAX_DEPTH - depth))
}
