// What a walk of two maps shows: cells with their zuniqs and values, and who sees them.

// A cell with its zuniq and its value. The depth is as wide as its neighbours: a u8 would be moved with its
// padding, by two moves that overlap, and the walk would take three times as long.
#[derive(Clone, Copy)]
pub struct Dhzv<V> {
    pub depth: u64,
    pub hash: u64,
    pub zuniq: u64,
    pub value: V,
}

// An overlay cell as the rule sees it: an enum over structs of cell and value, as the scope has it.
#[derive(Clone, Copy)]
pub enum LhsRhsBoth<V> {
    Left(Dhzv<V>),
    Right(Dhzv<V>),
    Both(Dhzv<V>, Dhzv<V>),
}

// A side of the walk, apart from the pending cells.
#[derive(Clone, Copy)]
pub struct Side<V> {
    // The next cell, if there is one.
    pub head: Option<Dhzv<V>>,
    // How many cells are pending.
    pub pending: usize,
    // Where the next entry of the map is.
    pub place: usize,
    // The head has been used up.
    pub taken: bool,
}

// What a turn of the walk does.
#[derive(Clone, Copy)]
pub enum Turn<V> {
    Show(LhsRhsBoth<V>),
    OpenLeft(Dhzv<V>),
    OpenRight(Dhzv<V>),
    Stop,
}
