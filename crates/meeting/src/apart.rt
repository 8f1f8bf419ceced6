//! Whether a direction parts two triangles.
ghost use Rattle.std.specs.Prelude.{◌≡◌, true, ◌||◌, map, int_le};
ghost use Rattle.exact.specs.Lists.{every, any};
ghost use Rattle.rules.specs.Edges.{edges_in};
ghost use Rattle.rules.specs.Lawful.{one_side, parted as parted_by};
ghost use Rattle.meeting.specs.Heights.{below, axes};

use crate::across::heights;
use rules::limits::Within;
use rules::{Triangle, Vector};
use triangle::directions;

/// Whether no number of the one row is above one of the other.
fn below(u: &[i64], v: &[i64]) -> bool
    ensures { result ≡ below u.now v.now }
{
    u.iter().all(
        |y| -> bool
            ensures { result ≡ every (int_le y.now) v.entry.now }
        { v.iter().all(|z| y <= z) },
    )
}

/// Whether across the direction no corner of the one lies beyond a corner of the other.
fn one_side(s: &Within<Triangle>, t: &Within<Triangle>, d: &Within<Vector>) -> bool
    ensures { result ≡ one_side s.now.value t.now.value d.now.value }
{
    let (u, v) = (heights(d, s), heights(d, t));
    below(&u, &v) || below(&v, &u)
}

/// The two axes.
fn axes() -> [Within<Vector>; 2]
    ensures { map (λ d. d.value) result ≡ axes }
{
    [
        Within::known(Vector { x: 1, y: 0 }),
        Within::known(Vector { x: 0, y: 1 }),
    ]
}

/// Whether one of the directions parts the two.
fn one_parts(ds: &[Within<Vector>], s: &Within<Triangle>, t: &Within<Triangle>) -> bool
    ensures { result ≡ any (one_side s.now.value t.now.value) (map (λ d. d.value) ds.now) }
{
    ds.iter().any(|d| one_side(s, t, d))
}

/// Whether an axis or the direction of an edge of one of them parts the two: they have no inner point in common.
#[tactic(auto, unfolding(rules::specs::Lawful::parted))]
pub fn parted(s: &Within<Triangle>, t: &Within<Triangle>) -> bool
    ensures { result ≡ parted_by s.now.value t.now.value }
{
    one_parts(&axes(), s, t) || one_parts(&directions(s), s, t) || one_parts(&directions(t), s, t)
}
