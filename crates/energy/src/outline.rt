//! The work of a stream along the outline.
ghost use Rattle.std.specs.Prelude.{◌≡◌, ◌^◌, ◌≤◌, ◌+ℤ◌, ◌-ℤ◌, ◌*ℤ◌, unsigned_abs};
ghost use Rattle.exact.specs.Lists.{every};
ghost use Rattle.rules.specs.Bounds.{work_along, work as work_of};
ghost use Rattle.rules.specs.Limits.{in_reach_along};
ghost use Rattle.rules.specs.Numbers.{outline_of};
ghost use Rattle.exact.specs.Given.{Given};

use crate::ends::Ends;
use crate::values::{OnPlate, Values};
use exact::product;
use rules::OutlineEdge;
use rules::limits::Within;

/// The work along a held edge: the sum of its temperatures times the stream's difference.
fn held_work(held: &Within<Ends>, stream: &Within<Ends>) -> i64
    ensures is { result ≡ (held.now.value.from +ℤ held.now.value.to) *ℤ (stream.now.value.to -ℤ stream.now.value.from) }
    ensures size { unsigned_abs result ≤ 2 ^ 42 }
{
    let (held, stream) = (held.value, stream.value);
    product(held.from + held.to, stream.to - stream.from)
}

/// The work along one outline edge, or `None` where it is out of reach.
#[tactic(auto, unfolding(rules::specs::Limits::in_reach_along, rules::specs::Bounds::work_along))]
fn work_along<V: Values>(b: &OutlineEdge, s: &V) -> Option<i64>
    ensures { Given result (in_reach_along (V.value s.now) b.now) (work_along (V.value s.now) b.now) (λ z. unsigned_abs z ≤ 2 ^ 42) }
{
    match b {
        OutlineEdge::Closed { edge: _ } => Some(0),
        OutlineEdge::Held { edge, from, to } => {
            let held = Within::new(Ends {
                from: *from,
                to: *to,
            })?;
            let stream = Within::new(Ends {
                from: s.at(&edge.from),
                to: s.at(&edge.to),
            })?;
            Some(held_work(&held, &stream))
        }
    }
}

impl<'a, V: Values> OnPlate<'a, V> {
    // Not one loop with `total`: these terms have a sign and no cap, and what bounds the sum is how many there are.

    /// The work along the whole outline, or `None` where an edge is out of reach.
    pub fn work(&self) -> Option<i64>
        ensures { let s = V.value self.now.values in let bs = outline_of self.now.plate.numbers.now in Given result (every (in_reach_along s) bs) (work_of s bs) (λ z. unsigned_abs z ≤ 2 ^ 58) }
    {
        let mut sum = 0;
        for b in self.plate.parts::<OutlineEdge>() {
            sum += work_along(&b, &self.values)?;
        }
        Some(sum)
    }
}
