#![tactic(auto)]

// A row of a stock table: a ratio, and how many there are of it.
#[derive(Clone, Copy)]
pub struct Row {
    pub numerator: u32,
    pub denominator: u32,
    pub quantity: u32,
}

impl Row {
    // The bytes of a row.
    pub const SIZE: usize = 12;
}

// What a change leaves: how many rows are used now, the index of the ratio's row, or of where it stood, and its quantity.
#[derive(Clone, Copy)]
pub struct Stocked {
    pub used: usize,
    pub index: usize,
    pub quantity: u32,
}
