// The text of `mombuild`: its lines are read into two buffers, and a map or a refusal is printed.
#![tactic(auto)]

pub mod print;
pub mod read;
