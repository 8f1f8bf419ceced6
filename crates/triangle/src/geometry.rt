//! Differences of points, and the area of a triangle.
ghost use Rattle.std.specs.Prelude.{◌≡◌, ◌^◌, ◌<◌, ◌≤◌, true, false, map, ◌-ℤ◌, unsigned_abs, MatchOption};
ghost use Rattle.rules.specs.Edges.{vector, edges_in, direction as direction_of};
ghost use Rattle.rules.specs.Limits.{near_point};
ghost use Rattle.rules.specs.Triangles.{area2, proper};

use crate::measures::Area;
use exact::product;
use rules::limits::Within;
use rules::{Edge, Point, Triangle, Vector};

/// The way from one point to another.
pub fn difference(from: &Point, to: &Point) -> Vector
    requires near_from { near_point from.now ≡ true }
    requires near_to { near_point to.now ≡ true }
    ensures x { result.x ≡ to.now.x -ℤ from.now.x }
    ensures y { result.y ≡ to.now.y -ℤ from.now.y }
    ensures short { (unsigned_abs result.x ≤ 2 ^ 16) × (unsigned_abs result.y ≤ 2 ^ 16) }
{
    Vector {
        x: to.x - from.x,
        y: to.y - from.y,
    }
}

/// The same, of points whose type says that they are within the limits: the way is within those of a direction.
pub fn way(from: &Within<Point>, to: &Within<Point>) -> Within<Vector>
    ensures { result.value ≡ vector from.now.value to.now.value }
{
    Within::known(difference(&from.value, &to.value))
}

/// The way along an edge.
pub fn direction(e: &Within<Edge>) -> Within<Vector>
    ensures { result.value ≡ direction_of e.now.value }
{
    way(&e.start(), &e.end())
}

/// The ways along the edges of a triangle.
pub fn directions(t: &Within<Triangle>) -> [Within<Vector>; 3]
    ensures { map (λ d. d.value) result ≡ map direction_of (edges_in t.now.value) }
{
    t.edges().map(|e| direction(&e))
}

// The product of `across` in `meeting`, which takes a point where this has a way: one function would turn the point into a way each time.

/// Twice the area of a triangle, above 0 where its corners go against the clock.
fn twice_area(t: &Within<Triangle>) -> i64
    ensures value { result ≡ area2 t.now.value }
    ensures size { unsigned_abs result ≤ 2 ^ 33 }
{
    let [a, b, c] = t.corners();
    let (ab, ac) = (way(&a, &b).value, way(&a, &c).value);
    product(ab.x, ac.y) - product(ac.x, ab.y)
}

/// Twice the area of a triangle, or `None` where it is not proper.
pub fn proper_area(t: &Within<Triangle>) -> Option<Area>
    ensures { MatchOption result (proper t.now.value ≡ false) (λ area. (proper t.now.value ≡ true) × (area.twice ≡ unsigned_abs (area2 t.now.value)) × (0 < t.now.value.k)) }
{
    let area = twice_area(t);
    // Not `then`: its closure does not know the test, so the invariant of `Area` stays open.
    if area > 0 && t.value.k > 0 {
        Some(Area {
            twice: area.unsigned_abs(),
        })
    } else {
        None
    }
}
