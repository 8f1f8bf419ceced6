//! Whether corners lie on edges.
ghost use Rattle.std.specs.Prelude.{◌≡◌};
ghost use Rattle.rules.specs.Edges.{inside as inside_of};
ghost use Rattle.rules.specs.Lawful.{clear as clear_on};
ghost use Rattle.meeting.specs.Meeting.{clear_of};

use crate::across::{across, along};
use rules::limits::Within;
use rules::{Edge, Point, Triangle};
use triangle::direction;

/// Whether a point is on an edge and not at an end of it.
#[tactic(auto, unfolding(rules::specs::Edges::inside))]
fn inside(e: &Within<Edge>, r: &Within<Point>) -> bool
    ensures { result ≡ inside_of e.now.value r.now.value }
{
    let (d, from, to) = (direction(e), e.start(), e.end());
    if across(&d, r) != across(&d, &from) {
        return false;
    }
    let at = along(&d, r);
    along(&d, &from) < at && at < along(&d, &to)
}

/// Whether no corner of a triangle lies on an edge but at its end.
fn clear(e: &Within<Edge>, t: &Within<Triangle>) -> bool
    ensures { result ≡ clear_on e.now.value t.now.value }
{
    t.corners().iter().all(|r| !inside(e, r))
}

// Taken in where it is called: else each edge's level at its ends is computed before it is needed, and `compatible` copies its triangles.

/// Whether no corner of `t` lies on an edge of `s` but at its end.
#[inline(always)]
pub fn clear_of(s: &Within<Triangle>, t: &Within<Triangle>) -> bool
    ensures { result ≡ clear_of s.now.value t.now.value }
{
    s.edges().iter().all(|e| clear(e, t))
}
