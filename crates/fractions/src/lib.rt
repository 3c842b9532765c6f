#![tactic(auto)]

// A ratio of two numbers of 32 bits.
#[derive(Clone, Copy)]
pub struct Fraction {
    pub numerator: u32,
    pub denominator: u32,
}
