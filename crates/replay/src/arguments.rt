// The arguments of a call, taken one by one from the front of a line's numbers.
ghost use Rattle.std.specs.Prelude.{◌≡◌, ◌+◌, ◌≤◌, length, vec_len, OnOk, IfOk};
ghost use Rattle.replay.specs.declared.arguments.TheConstants.{MOST_ITEMS};

use crate::error::Error;
use crate::number::Number;
use std::alloc::Global;

// The most items of a list: 4 count rows, 3 density rows.
const MOST_ITEMS: usize = 48;

#[derive(Drop)]
pub struct Arguments<'a> {
    pub alloc: Global,
    // The numbers that are not taken yet.
    pub rest: &'a [u64],
}

impl<'a> Arguments<'a> {
    pub(crate) fn new(alloc: Global, numbers: &'a [u64]) -> Self {
        Self {
            alloc,
            rest: numbers,
        }
    }

    pub fn number<T: Number>(&mut self) -> Result<T, Error>
        ensures { OnOk result (length self.new.rest.now + 1 ≡ length self.old.rest.now) }
    {
        let (first, rest) = self.rest.split_first().ok_or(Error::Unreadable)?;
        self.rest = rest;
        T::read(*first).ok_or(Error::Unreadable)
    }

    // A list is its length and its items.
    pub fn list<T: Number>(&mut self) -> Result<Vec<T>, Error>
        ensures { IfOk result (λ list. vec_len list ≤ MOST_ITEMS) }
    {
        let len = self.number::<usize>()?;
        if len > MOST_ITEMS {
            return Err(Error::Unreadable);
        }
        let (items, rest) = self.rest.split_at_checked(len).ok_or(Error::Unreadable)?;
        self.rest = rest;
        items
            .iter()
            .map(|item| T::read(*item).ok_or(Error::Unreadable))
            .try_collect(self.alloc)
    }
}
