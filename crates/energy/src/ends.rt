//! Numbers at the two ends of an edge.
ghost use Rattle.energy.specs.Ends.{near_ends};

use rules::MAX_VALUE;
use rules::limits::{Limited, near};

// Not one type with `rules::Edge` over what stands at an end: an edge has a direction and a back, and the definitions name it as an edge.

/// A number at each end of an edge.
#[derive(Clone, Copy)]
pub struct Ends {
    pub from: i64,
    pub to: i64,
}

impl Limited for Ends {
    ghost within = { near_ends };

    fn is_within(&self) -> bool {
        near(MAX_VALUE, self.from) && near(MAX_VALUE, self.to)
    }
}
