// The answers of lookup.

// The entries that overlap a query: the place of the first and their number, 0 and 0 for none.
#[derive(Clone, Copy, Debug, PartialEq, Eq)]
pub struct Run {
    pub first: usize,
    pub len: usize,
}

// The same entries themselves, that very part of the lent zuniqs, with the place of the first.
#[derive(Clone, Copy, Debug)]
pub struct Overlapped<'a, Z> {
    pub part: &'a [Z],
    pub first: usize,
}
