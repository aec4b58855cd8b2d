// The overlay of two maps, walked by their heads: what a rule keeps of it goes to a sink, cell by cell.
//
// Each side is a head, the pending cells of those that were split, and the entries of its map that are
// still to come. Of two heads the one before the other is seen alone, and the same cell is seen by both;
// where one lies strictly inside the other, the outer one is split, its first child is the head, and the
// other three wait.
//
// The small functions are always inlined, so that no cell goes through memory on its way to another.
ghost use Rattle.std.specs.Prelude.{◌≡◌, Option, Result, List, [], ◌∷◌, ℕ, ◌+◌, ◌-◌, ◌≤◌, ◌<◌, length};
ghost use Rattle.std.proofs.Math.Option.{some};
ghost use Rattle.refusal.specs.declared.Refusal.{Refusal};
ghost use Rattle.build.specs.Map.{Entry};
ghost use Rattle.build.specs.Promises.{Has};
ghost use Rattle.combine.specs.Overlay.{Seen, Split, overlay};
ghost use Rattle.combine.specs.Rules.{Rule as Keeps, kept_of, kept};
ghost use Rattle.combine.specs.Heads.{takes_left, takes_right, side_start, Opened, Shallow, shown_as, Turned, Good, ChildOf, EntryAt, Advanced};
ghost use Rattle.combine.specs.Slices.{entries_of};
ghost use Rattle.combine.specs.Cells.{as_entry, zuniq_in, head_of, side_of, saw_of, act_of};
ghost use Rattle.combine.specs.Sinks.{cells_of, Carries, CanTake, CanShow, Takes, Walked};

use crate::cells::{Dhzv, LhsRhsBoth, Side, Turn};
use crate::map::Map;
use refusal::Refusal;
use zuniq::{DIM, Decoded, ZUniqHashT};

// A rule by which two maps are combined.
pub trait Rule: Copy {
    type Value: Copy;

    // The value that a child has of its parent's.
    ghost split: { Self → Split Self.Value };

    // The value that an overlay cell is kept with, if it is kept.
    ghost keeps: { Self → Keeps Self.Value };

    // What an overlay cell has to be, to be shown to the rule.
    ghost sees: { Self → Entry (Seen Self.Value) → Type 0 };

    // The value of child i of a cell.
    fn part(self, depth: u64, hash: u64, value: Self::Value, i: u32) -> Self::Value
        requires { i < 4 }
        ensures { result ≡ split self depth hash value i };

    // The overlay cell with the value that it is kept with, if it is kept.
    fn keep(self, seen: LhsRhsBoth<Self::Value>) -> Option<Dhzv<Self::Value>>
        requires { sees self (shown_as as_entry (saw_of seen)) }
        ensures { (cells_of result ≡ kept_of (keeps self) (shown_as as_entry (saw_of seen))) × Carries (saw_of seen) result };
}

// What is done with cells, one after the other: it comes to figures, and to what is left in two buffers.
pub trait Sink<V>: Copy {
    type Figures: Copy;

    ghost fits: { Self → List ℕ → List V → List (Entry V) → Type 0 };

    ghost took: { Self → List ℕ → List V → List (Entry V) → Self.Figures → List ℕ → List V → Type 0 };

    ghost failed: { Self → List ℕ → List V → List (Entry V) → Refusal → List ℕ → List V → Type 0 };

    // The figures of no cells.
    fn start(self) -> Self::Figures
        ensures { (zs : List ℕ) (vs : List V) → took self zs vs [] result zs vs };

    // Takes a cell behind those so far, or tells why it can't.
    fn take(
        self,
        figures: Self::Figures,
        cell: Dhzv<V>,
        zuniqs: &mut [u64],
        values: &mut [V],
    ) -> Result<Self::Figures, Refusal>
        requires { CanTake (fits self) (took self) figures (zuniq_in cell) (as_entry cell) zuniqs.old values.old }
        ensures { Takes (took self) (failed self) figures (as_entry cell ∷ []) zuniqs.old values.old result zuniqs.new values.new };
}

// Walks the overlay of two valid maps, and has the sink take what the rule keeps of it. Stops at a cell
// that can't be taken. The pending cells of the two sides stand in `lefts` and `rights`: at most three
// for each depth from 0 to 28. The caller lends them: of an array of a type parameter the check does not know
// that its size is in bounds.
pub fn walk<R: Rule, S: Sink<R::Value>>(
    rule: R,
    sink: S,
    left_map: &Map<R::Value>,
    right_map: &Map<R::Value>,
    lefts: &mut [Dhzv<R::Value>],
    rights: &mut [Dhzv<R::Value>],
    zuniqs: &mut [u64],
    values: &mut [R::Value],
) -> Result<S::Figures, Refusal>
    requires places { (length lefts.old ≡ 87) × (length rights.old ≡ 87) }
    requires seen { (e : Entry (Seen R.Value)) → Has (overlay (R.split rule) 29 (entries_of left_map.now.zuniqs.now left_map.now.values.now) (entries_of right_map.now.zuniqs.now right_map.now.values.now)) e → R.sees rule e }
    requires fit { S.fits sink zuniqs.old values.old (kept (R.keeps rule) (overlay (R.split rule) 29 (entries_of left_map.now.zuniqs.now left_map.now.values.now) (entries_of right_map.now.zuniqs.now right_map.now.values.now))) }
    ensures { Walked (S.took sink) (S.failed sink) zuniqs.old values.old (kept (R.keeps rule) (overlay (R.split rule) 29 (entries_of left_map.now.zuniqs.now left_map.now.values.now) (entries_of right_map.now.zuniqs.now right_map.now.values.now))) result zuniqs.new values.new }
{
    let mut left: Side<R::Value> = start();
    let mut right: Side<R::Value> = start();
    let mut figures = sink.start();
    loop {
        left = next(left, lefts[top(left)], left_map);
        right = next(right, rights[top(right)], right_map);
        match turn_of(left, right) {
            Turn::Stop => return Ok(figures),
            Turn::Show(seen) => {
                figures = show(rule, sink, figures, seen, zuniqs, values)?;
                left.taken = takes_left(seen);
                right.taken = takes_right(seen);
            }
            Turn::OpenLeft(outer) => left = open(rule, outer, left, lefts),
            Turn::OpenRight(outer) => right = open(rule, outer, right, rights),
        }
    }
}

// Shows a cell to the rule, and has the sink take what that keeps.
#[inline(always)]
fn show<R: Rule, S: Sink<R::Value>>(
    rule: R,
    sink: S,
    figures: S::Figures,
    seen: LhsRhsBoth<R::Value>,
    zuniqs: &mut [u64],
    values: &mut [R::Value],
) -> Result<S::Figures, Refusal>
    requires sees { R.sees rule (shown_as as_entry (saw_of seen)) }
    requires can { CanShow (S.fits sink) (S.took sink) (R.keeps rule) figures (saw_of seen) zuniqs.old values.old }
    ensures { Takes (S.took sink) (S.failed sink) figures (kept_of (R.keeps rule) (shown_as as_entry (saw_of seen))) zuniqs.old values.old result zuniqs.new values.new }
{
    match rule.keep(seen) {
        Some(cell) => sink.take(figures, cell, zuniqs, values),
        None => Ok(figures),
    }
}

// Whether the left head is used up when a cell is shown.
#[inline(always)]
fn takes_left<V: Copy>(seen: LhsRhsBoth<V>) -> bool
    ensures { result ≡ takes_left (saw_of seen) }
{
    match seen {
        LhsRhsBoth::Right(_) => false,
        _ => true,
    }
}

#[inline(always)]
fn takes_right<V: Copy>(seen: LhsRhsBoth<V>) -> bool
    ensures { result ≡ takes_right (saw_of seen) }
{
    match seen {
        LhsRhsBoth::Left(_) => false,
        _ => true,
    }
}

// A side before its first entry.
#[inline(always)]
fn start<V: Copy>() -> Side<V>
    ensures { side_of result ≡ side_start }
{
    Side {
        head: None,
        pending: 0,
        place: 0,
        taken: true,
    }
}

// The place of the pending cell that comes first, if there is one.
#[inline(always)]
fn top<V: Copy>(side: Side<V>) -> usize
    ensures { result ≡ side.pending - 1 }
{
    if side.pending > 0 {
        side.pending - 1
    } else {
        0
    }
}

// The side with a head: the one that it has, or the last pending cell, or the next entry of its map.
#[inline(always)]
fn next<V: Copy>(side: Side<V>, top: Dhzv<V>, map: &Map<V>) -> Side<V>
    ensures { Advanced as_entry zuniq_in map.now.zuniqs.now map.now.values.now top (side_of side) (side_of result) }
{
    if !side.taken {
        return side;
    }
    let place = side.place;
    if side.pending > 0 {
        return Side {
            head: Some(top),
            pending: side.pending - 1,
            place,
            taken: false,
        };
    }
    match head_at(map, place) {
        None => Side {
            head: None,
            pending: 0,
            place,
            taken: false,
        },
        Some(cell) => Side {
            head: Some(cell),
            pending: 0,
            place: place + 1,
            taken: false,
        },
    }
}

// The entry at a place, if there is one.
#[inline(always)]
fn head_at<V: Copy>(map: &Map<V>, i: usize) -> Option<Dhzv<V>>
    ensures { EntryAt as_entry zuniq_in map.now.zuniqs.now map.now.values.now i (head_of result) }
{
    if i >= map.zuniqs.len() {
        return None;
    }
    let zuniq = map.zuniqs[i];
    let Decoded::Cell(cell) = u64::from_zuniq(zuniq) else {
        // A valid map has no such zuniq.
        unreachable!()
    };
    Some(Dhzv {
        depth: cell.depth as u64,
        hash: cell.hash,
        zuniq,
        value: map.values[i],
    })
}

// What the heads of two sides lead to.
#[inline(always)]
fn turn_of<V: Copy>(left: Side<V>, right: Side<V>) -> Turn<V>
    requires { Shallow as_entry (side_of left).head × Shallow as_entry (side_of right).head }
    ensures { Turned as_entry 29 (side_of left).head (side_of right).head (act_of result) }
{
    let l = left.head;
    let r = right.head;
    match l {
        None => match r {
            None => Turn::Stop,
            Some(b) => Turn::Show(LhsRhsBoth::Right(b)),
        },
        Some(a) => match r {
            None => Turn::Show(LhsRhsBoth::Left(a)),
            Some(b) => meet(a, b),
        },
    }
}

// The deeper one's ancestor at the other's depth is before that other, after it, or the same.
#[inline(always)]
fn meet<V: Copy>(a: Dhzv<V>, b: Dhzv<V>) -> Turn<V>
    requires { (a.depth ≤ 29) × (b.depth ≤ 29) }
    ensures { Turned as_entry 29 (some a) (some b) (act_of result) }
{
    if a.depth <= b.depth {
        let ancestor = b.hash >> (DIM as u64 * (b.depth - a.depth));
        if a.hash < ancestor {
            return Turn::Show(LhsRhsBoth::Left(a));
        }
        if ancestor < a.hash {
            return Turn::Show(LhsRhsBoth::Right(b));
        }
        if a.depth < b.depth {
            return Turn::OpenLeft(a);
        }
        return Turn::Show(LhsRhsBoth::Both(a, b));
    }
    let ancestor = a.hash >> (DIM as u64 * (a.depth - b.depth));
    if ancestor < b.hash {
        return Turn::Show(LhsRhsBoth::Left(a));
    }
    if b.hash < ancestor {
        return Turn::Show(LhsRhsBoth::Right(b));
    }
    Turn::OpenRight(b)
}

// The side whose head has been split: its first child is the head, and the other three are pending.
#[inline(always)]
fn open<R: Rule>(
    rule: R,
    outer: Dhzv<R::Value>,
    side: Side<R::Value>,
    pending: &mut [Dhzv<R::Value>],
) -> Side<R::Value>
    requires outer { Good as_entry zuniq_in outer × (outer.depth < 29) }
    requires room { side.pending + 3 ≤ length pending.old }
    ensures { Opened as_entry zuniq_in (R.split rule) outer (side_of side) pending.old (side_of result) pending.new }
{
    let free = side.pending;
    pending[free] = child(rule, outer, 3);
    pending[free + 1] = child(rule, outer, 2);
    pending[free + 2] = child(rule, outer, 1);
    Side {
        head: Some(child(rule, outer, 0)),
        pending: free + 3,
        place: side.place,
        taken: false,
    }
}

// Child i of a cell that is split.
#[inline(always)]
pub fn child<R: Rule>(rule: R, parent: Dhzv<R::Value>, i: u32) -> Dhzv<R::Value>
    requires { Good as_entry zuniq_in parent × (parent.depth < 29) × (i < 4) }
    ensures { ChildOf as_entry zuniq_in (R.split rule) parent i result }
{
    let depth = parent.depth + 1;
    let hash = 4 * parent.hash + i as u64;
    Dhzv {
        depth,
        hash,
        zuniq: u64::to_zuniq_unchecked(depth as u8, hash),
        value: rule.part(parent.depth, parent.hash, parent.value, i),
    }
}
