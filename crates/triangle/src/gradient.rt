//! The turned gradient of values over a triangle, and the square of its length.
ghost use Rattle.std.specs.Prelude.{◌≡◌, true, false, ◌+ℤ◌, ◌*ℤ◌, MatchOption};
ghost use Rattle.rules.specs.Limits.{gentle};
ghost use Rattle.rules.specs.Triangles.{turned, norm as norm_of};
ghost use Rattle.triangle.specs.Short.{Short};

use crate::geometry::directions;
use crate::measures::Square;
use exact::product;
use rules::limits::Within;
use rules::{Corners, GRADIENT_END, Triangle, Vector};

// Three products by hand: a chain's `sum` of signed numbers has no bound that the proof could use.

/// One coordinate of the turned gradient: each value times that of the edge opposite its corner.
fn weighed(u: &Within<Corners>, opposite: &Corners) -> i64
    requires { Short opposite.now }
    ensures { result ≡ (u.now.value.a *ℤ opposite.now.a) +ℤ ((u.now.value.b *ℤ opposite.now.b) +ℤ (u.now.value.c *ℤ opposite.now.c)) }
{
    let u = u.value;
    product(u.a, opposite.a) + (product(u.b, opposite.b) + product(u.c, opposite.c))
}

/// The gradient of the values over the triangle, turned by a right angle and times twice the area.
pub fn turned_gradient(t: &Within<Triangle>, u: &Within<Corners>) -> Vector
    ensures { result ≡ turned t.now.value u.now.value }
{
    let [ab, bc, ca] = directions(t);
    let (ab, bc, ca) = (ab.value, bc.value, ca.value);
    // By hand: each corner's value goes with the edge opposite, which in a row would be a turn by one and no plainer.
    let x = Corners {
        a: bc.x,
        b: ca.x,
        c: ab.x,
    };
    let y = Corners {
        a: bc.y,
        b: ca.y,
        c: ab.y,
    };
    Vector {
        x: weighed(u, &x),
        y: weighed(u, &y),
    }
}

/// The square of a vector's length, or `None` where it is too steep.
#[tactic(auto, unfolding(rules::specs::Triangles::norm))]
pub fn squared_length(v: &Vector) -> Option<Square>
    ensures { MatchOption result (gentle v.now ≡ false) (λ square. (gentle v.now ≡ true) × (square.value ≡ norm_of v.now)) }
{
    let (x, y) = (v.x.unsigned_abs(), v.y.unsigned_abs());
    if x < GRADIENT_END && y < GRADIENT_END {
        Some(Square {
            value: x * x + y * y,
        })
    } else {
        None
    }
}
