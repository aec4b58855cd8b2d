// What a call answered.
use crate::error::Error;
use crate::number::{Number, Value};
use std::alloc::Global;
use std::fmt;

#[derive(Drop)]
pub struct Answer {
    // The word that is printed in place of the first value, which is the case's number.
    case: Option<&'static str>,
    values: Vec<Value>,
}

impl Answer {
    // An answer with no values yet.
    pub(crate) fn new(alloc: Global) -> Self {
        Self {
            case: None,
            values: Vec::new(alloc),
        }
    }

    // That there is none.
    pub(crate) fn none(alloc: Global) -> Self {
        Self {
            case: Some("none"),
            values: Vec::new(alloc),
        }
    }

    // A case: its word where it is printed, its number where it is stored.
    pub(crate) fn case(alloc: Global, word: &'static str, number: u64) -> Result<Self, Error> {
        let answer = Self {
            case: Some(word),
            values: Vec::new(alloc),
        };
        answer.with(number)
    }

    // What there is, or that there is none.
    pub(crate) fn option<T: Number>(alloc: Global, value: Option<T>) -> Result<Self, Error> {
        match value {
            Some(value) => Self::new(alloc).with(value),
            None => Ok(Self::none(alloc)),
        }
    }

    // The answer with one value more.
    pub(crate) fn with<T: Number>(mut self, value: T) -> Result<Self, Error> {
        self.values.push(value.value())?;
        Ok(self)
    }

    // The answer with one list more: its length and its items.
    pub(crate) fn with_list<T: Number>(self, items: &[T]) -> Result<Self, Error> {
        let mut answer = self.with(items.len())?;
        for item in items {
            answer = answer.with(*item)?;
        }
        Ok(answer)
    }

    // Whether a line has stored these values, and no others.
    pub(crate) fn is_stored(&self, numbers: &[u64]) -> bool {
        self.values
            .iter()
            .map(|value| value.number())
            .eq(numbers.iter().copied())
    }
}

impl fmt::Display for Answer {
    fn fmt<W: fmt::Write>(&self, f: &mut fmt::Formatter<W>) -> fmt::Result {
        let mut values = self.values.iter();
        let first = values.next();
        match (self.case, first) {
            (Some(case), _) => f.write_str(case)?,
            (None, Some(first)) => write!(f, "{first}")?,
            (None, None) => {}
        }
        for value in values {
            write!(f, " {value}")?;
        }
        Ok(())
    }
}
