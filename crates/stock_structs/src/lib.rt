// What the calls of the stock table answer, as structs for C, which has no Result and no Option: each begins with the
// refusal's number, and where that isn't 0, all else is.
#![tactic(auto)]

mod answers;

// Where a call refuses, used is 0 too: the caller's own count stands.
#[repr(C)]
#[derive(Clone, Copy, Default)]
pub struct Stocked {
    pub refusal: u32,
    pub quantity: u32,
    pub used: usize,
    pub row: usize,
}

#[repr(C)]
#[derive(Clone, Copy, Default)]
pub struct Found {
    pub refusal: u32,
    pub quantity: u32,
    pub row: usize,
}

// found: whether there is a row at or above the ratio.
#[repr(C)]
#[derive(Clone, Copy, Default)]
pub struct Listed {
    pub refusal: u32,
    pub numerator: u32,
    pub denominator: u32,
    pub quantity: u32,
    pub row: usize,
    pub found: bool,
}
