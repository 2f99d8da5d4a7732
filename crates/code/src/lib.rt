// What a good tile is, and the paper's theorems about it, stand in specs/. There is no code here: only the types that
// definitions and calls share.
#![tactic(auto)]

pub mod lattice;

// SPEC 3.4: a line of a tile, which is a row or a column, by its number from 0.
#[derive(Clone, Copy, PartialEq, Eq)]
pub enum Line {
    Row(usize),
    Column(usize),
}

// SPEC 2.5: the kind of a tile. A new one has an allowed slope, an old one any from 2 to p-2.
#[derive(Clone, Copy, PartialEq, Eq)]
pub enum Kind {
    New,
    Old,
}
