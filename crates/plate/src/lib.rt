//! Plates as lent numbers.
#![tactic(auto)]

pub mod parts;
mod reads;
pub mod view;
