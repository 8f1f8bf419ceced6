//! One triangle: its area, the gradient of values over it, and what they spend and drag there.
#![tactic(auto)]

mod geometry;
mod gradient;
pub mod kinds;
mod measures;
pub mod terms;

pub use geometry::{difference, direction, directions, way};
