#![tactic(auto)]

// A key's 96 bits in two machine words: its first 64 characters in `high`, top bit first, and the next 32 in `low`. So
// blocks stand in the order of their bits.
#[derive(Clone, Copy, PartialEq, Eq, PartialOrd, Ord)]
pub struct Block {
    pub high: u64,
    pub low: u32,
}
