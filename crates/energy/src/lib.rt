//! What a field spends and a stream says, and the two numbers.
#![tactic(auto)]

mod ends;
pub mod numbers;
mod outline;
mod sums;
mod values;
