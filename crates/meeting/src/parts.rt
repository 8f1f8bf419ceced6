//! Which of its corners and edges a triangle has.
ghost use Rattle.std.specs.Prelude.{◌≡◌, ◌<◌, true, false, find, MatchOption};
ghost use Rattle.rules.specs.Edges.{each_corner, corner, edge as edge_from, same_edge};
ghost use Rattle.rules.specs.Plates.{same_point};
ghost use Rattle.meeting.specs.Meeting.{has_corner, has_edge};
ghost use Rattle.meeting.specs.Rows.{which};

use rules::{Corner, Edge, Point, Triangle};

// Public, so it stays; its body is the derived `==`, which it ties to the definitions' word.

/// Whether two points are at one place.
pub fn same_point(p: &Point, q: &Point) -> bool
    ensures { result ≡ same_point p.now q.now }
{
    p == q
}

// The two below are not one function: one line each, where a trait for what stands at a corner would need its laws, and a closure its
// `post` in both contracts (tried: the answers stay open).

/// Which corner of a triangle a point is: the first, where two are at one place.
pub fn which_corner(p: &Point, t: &Triangle) -> Option<Corner>
    ensures first { result ≡ find (λ i. same_point p.now (corner t.now i)) each_corner }
    ensures is { MatchOption result (has_corner p.now t.now ≡ false) (λ i. (corner t.now i ≡ p.now) × (has_corner p.now t.now ≡ true)) }
{
    Corner::ALL.iter().copied().find(|i| *p == t.corner(*i))
}

/// Which edge of a triangle an edge is, by the corner where it begins: the first, where two are the same.
pub fn which_edge(e: &Edge, t: &Triangle) -> Option<Corner>
    ensures first { result ≡ find (λ i. same_edge e.now (edge_from t.now i)) each_corner }
    ensures is { MatchOption result (has_edge e.now t.now ≡ false) (λ i. (edge_from t.now i ≡ e.now) × (has_edge e.now t.now ≡ true)) }
{
    Corner::ALL.iter().copied().find(|i| *e == t.edge(*i))
}

// Not a `From`, which would stand in `rules`: `which`, in its contract, is a word of this crate.

/// Which of the three a corner is, counted from 0.
pub fn number(i: Corner) -> usize
    ensures below { result < 3 }
    ensures is { which result ≡ i }
{
    match i {
        Corner::A => 0,
        Corner::B => 1,
        Corner::C => 2,
    }
}

/// Which corner of a triangle a point is, counted from 0.
pub fn corner_number(p: &Point, t: &Triangle) -> Option<usize>
    ensures { MatchOption result (has_corner p.now t.now ≡ false) (λ i. (i < 3) × (corner t.now (which i) ≡ p.now) × (has_corner p.now t.now ≡ true)) }
{
    Some(number(which_corner(p, t)?))
}

/// Which edge of a triangle an edge is, counted from 0.
pub fn edge_number(e: &Edge, t: &Triangle) -> Option<usize>
    ensures { MatchOption result (has_edge e.now t.now ≡ false) (λ i. (i < 3) × (edge_from t.now (which i) ≡ e.now) × (has_edge e.now t.now ≡ true)) }
{
    Some(number(which_edge(e, t)?))
}
