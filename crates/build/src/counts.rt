// What adding counts answers: the number of entries and the sum of all counts.
#[derive(Clone, Copy, Debug, PartialEq, Eq)]
pub struct Added {
    pub entries: usize,
    pub total: u32,
}
