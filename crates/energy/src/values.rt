//! Numbers at the points of a plate.
ghost use Rattle.std.specs.Prelude.{◌≡◌, ℤ};
ghost use Rattle.rules.specs.declared.Point.{Point};
ghost use Rattle.rules.specs.Plates.{place_of, values_at, corners_of};

use plate::view::View;
use rules::{Corners, Point, Triangle};

/// A number at each point.
pub trait Values {
    ghost value: { Self → Point → ℤ };

    fn at(&self, p: &Point) -> i64
        ensures { result ≡ value self.now p.now };

    /// The values at the corners of a triangle.
    final fn corners(&self, t: &Triangle) -> Corners
        ensures { result ≡ corners_of (value self.now) t.now }
    {
        let [a, b, c] = t.corners().map(|p| self.at(&p));
        Corners { a, b, c }
    }
}

// No `Option`: the definition of this name counts all of them where none is, and `values_at` reads the number at that place.

/// How many points come before the first that is `p`: all of them, where none is.
fn place_of(p: &Point, points: &[Point]) -> usize
    ensures { result ≡ place_of p.now points.now }
{
    points.iter().position(|q| p == q).unwrap_or(points.len())
}

/// Lent numbers in the order of the points; nought where there is none.
#[derive(Clone, Copy)]
pub struct Listed<'p, 'n> {
    // Two rows and not one of pairs, since callers lend them so.
    pub points: &'p [Point],
    pub numbers: &'n [i64],
}

impl<'p, 'n> Values for Listed<'p, 'n> {
    ghost value = { λ s. values_at s.points.now s.numbers.now };

    fn at(&self, p: &Point) -> i64 {
        // 0 where there is none, as `values_at` says, which the contract of `bounds` names.
        let i = place_of(p, self.points);
        self.numbers.get(i).copied().unwrap_or(0)
    }
}

/// Values on a plate.
#[derive(Clone, Copy)]
pub struct OnPlate<'a, V> {
    pub plate: View<'a>,
    pub values: V,
}
