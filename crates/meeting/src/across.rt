//! How far points lie across and along a direction.
ghost use Rattle.std.specs.Prelude.{◌≡◌, map};
ghost use Rattle.rules.specs.Edges.{corners_in, across as across_of, along as along_of};

use exact::product;
use rules::limits::Within;
use rules::{Point, Triangle, Vector};

/// How far a point lies to the left of the line through 0 in the direction `d`, times the length of `d`.
pub fn across(d: &Within<Vector>, r: &Within<Point>) -> i64
    ensures { result ≡ across_of d.now.value r.now.value }
{
    let (d, r) = (d.value, r.value);
    product(d.x, r.y) - product(d.y, r.x)
}

// Not one function with `across`: the two differ in their formula, not in a type or a constant.

/// How far a point lies along that line, times the length of `d`.
pub fn along(d: &Within<Vector>, r: &Within<Point>) -> i64
    ensures { result ≡ along_of d.now.value r.now.value }
{
    let (d, r) = (d.value, r.value);
    product(d.x, r.x) + product(d.y, r.y)
}

/// How far the corners of a triangle lie across a direction.
pub fn heights(d: &Within<Vector>, t: &Within<Triangle>) -> [i64; 3]
    ensures { result ≡ map (across_of d.now.value) (corners_in t.now.value) }
{
    t.corners().map(|r| across(d, &r))
}
