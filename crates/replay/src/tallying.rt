// How the lines fared, counted by kind, and printed.
use crate::error::Error;
use crate::kind::Kind;
use std::alloc::{AllocError, Global};
use std::collections::BTreeMap;
use std::fmt;

#[derive(Drop)]
pub struct Tally {
    kinds: BTreeMap<Kind, Fared>,
    // For all kinds together: a line that is not readable may have lost its word.
    unreadable: u64,
    // The first line that is different or unreadable, counted from 1.
    first: Option<u64>,
}

#[derive(Clone, Copy, Default)]
struct Fared {
    same: u64,
    different: u64,
}

impl Tally {
    pub(crate) fn new(alloc: Global) -> Self {
        Self {
            kinds: BTreeMap::new(alloc),
            unreadable: 0,
            first: None,
        }
    }

    // Adds a line, given by its number.
    pub(crate) fn add(&mut self, line: u64, kind: Kind, is_same: bool) -> Result<(), AllocError> {
        let fared = self.kinds.entry(kind)?.or_default();
        if is_same {
            fared.same = fared.same.saturating_add(1);
        } else {
            fared.different = fared.different.saturating_add(1);
            self.first.get_or_insert(line);
        }
        Ok(())
    }

    pub(crate) fn add_unreadable(&mut self, line: u64) {
        self.unreadable = self.unreadable.saturating_add(1);
        self.first.get_or_insert(line);
    }
}

// A line for each kind that has lines, the first fault if there is one, and the last line for all kinds:
// 300 same, 0 different, 0 unreadable
impl fmt::Display for Tally {
    fn fmt<W: fmt::Write>(&self, f: &mut fmt::Formatter<W>) -> fmt::Result {
        let mut all = Fared::default();
        for (kind, fared) in self.kinds.iter() {
            writeln!(f, "{kind} {fared}")?;
            all = all.plus(*fared);
        }
        if let Some(first) = self.first {
            writeln!(f, "first at line {first}")?;
        }
        let unreadable = self.unreadable;
        writeln!(f, "{all}, {unreadable} unreadable")
    }
}

// An input has fewer than 327,680 lines, so no count gets to the largest u64.
impl Fared {
    fn plus(self, other: Self) -> Self {
        Self {
            same: self.same.saturating_add(other.same),
            different: self.different.saturating_add(other.different),
        }
    }
}

impl fmt::Display for Fared {
    fn fmt<W: fmt::Write>(&self, f: &mut fmt::Formatter<W>) -> fmt::Result {
        let same = self.same;
        let different = self.different;
        write!(f, "{same} same, {different} different")
    }
}
