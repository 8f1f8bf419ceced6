//! A triangle's rounded quotient, of either kind.
ghost use Rattle.std.specs.Prelude.{◌≡◌, ◌<◌, if◌then◌else◌, None};
ghost use Rattle.exact.specs.Capped.{capped};
ghost use Rattle.rules.specs.Limits.{in_reach};
ghost use Rattle.triangle.specs.Terms.{quotient_of, term_of};

use crate::geometry::proper_area;
use crate::gradient::{squared_length, turned_gradient};
use crate::kinds::Kind;
use crate::measures::{Area, Square};
use exact::{below_cap, capped_product, ceil_div};
use rules::limits::Within;
use rules::{Corners, Triangle};

/// The quotient, from the conductivity, twice the area and the square of the gradient's length; `None` from 2^62 on.
fn quotient(kind: Kind, k: u64, area: Area, square: Square) -> Option<u64>
    requires k_above { 0 < k }
    requires k_below { k < 4096 }
    ensures { result ≡ capped (quotient_of kind k area.twice square.value) }
{
    match kind {
        Kind::Spent => capped_product(k, ceil_div(square.value, 2 * area.twice)),
        Kind::Dragged => below_cap(ceil_div(square.value, 2 * area.twice * k)),
    }
}

/// The quotient of a triangle and the values at its corners, or `None` where they are out of reach or it is too large.
#[tactic(auto, unfolding(rules::specs::Limits::in_reach, rules::specs::Limits::modest, rules::specs::Bounds::upper_in, rules::specs::Bounds::up_drag_in))]
pub fn rounded(kind: Kind, t: &Triangle, u: &Corners) -> Option<u64>
    ensures { result ≡ (if in_reach t.now u.now then capped (term_of kind t.now u.now) else None) }
{
    let t = Within::new(*t)?;
    let u = Within::new(*u)?;
    let area = proper_area(&t)?;
    let square = squared_length(&turned_gradient(&t, &u))?;
    quotient(kind, t.value.k, area, square)
}
