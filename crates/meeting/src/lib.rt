//! How two triangles meet, and which of its corners and edges a triangle has.
#![tactic(auto)]

// Two triangles are two arguments throughout, as the two sides of a comparison are: a pair would only be taken apart again.

mod across;
mod apart;
mod clear;
pub mod pairs;
pub mod parts;
