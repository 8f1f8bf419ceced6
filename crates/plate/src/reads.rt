//! Whether numbers are a plate's, and points in them.
ghost use Rattle.std.specs.Prelude.{true, false, MatchOption, ◌≡◌, ◌+◌, ◌<◌, length};
ghost use Rattle.rules.specs.Limits.{counts};
ghost use Rattle.rules.specs.Numbers.{point_at, natural as natural_of};

use crate::view::View;
use rules::{MAX_COUNT, Point};

// 0, as the definition `natural` has it, and in the k of a triangle too: a triangle with such a k is not proper.

/// A count, or 0 where it is negative.
fn count(z: i64) -> usize
    ensures { result ≡ natural_of z }
{
    usize::try_from(z).unwrap_or(0)
}

impl<'a> View<'a> {
    // Beside `checked`, since both `fits` and `new` are public, and `new` cannot fail.

    /// Whether there are as many numbers as the two counts need, and the counts are within the limits.
    pub fn fits(numbers: &[i64]) -> bool
        ensures { result ≡ counts numbers.now }
    {
        let &[triangles, edges, ..] = numbers else {
            return false;
        };
        if triangles < 1 || triangles > MAX_COUNT || edges < 0 || edges > MAX_COUNT {
            return false;
        }
        numbers.len() == 2 + 7 * (count(triangles) + count(edges))
    }

    /// The view of numbers, or `None` where they do not fit.
    pub fn checked(numbers: &'a [i64]) -> Option<Self>
        ensures { MatchOption result (counts numbers.now ≡ false) (λ view. (view.numbers.now ≡ numbers.now) × (counts numbers.now ≡ true)) }
    {
        View::fits(numbers).then(|| View::new(numbers))
    }

    /// The view of numbers that fit.
    pub fn new(numbers: &'a [i64]) -> Self
        requires { counts numbers.now ≡ true }
        ensures { result.numbers.now ≡ numbers.now }
    {
        View {
            numbers,
            triangles: count(numbers[0]),
            edges: count(numbers[1]),
        }
    }

    /// The point whose coordinates stand there.
    #[tactic(auto, unfolding(rules::specs::Numbers::point_at))]
    pub(crate) fn point(&self, at: usize) -> Point
        requires { at + 1 < length self.now.numbers.now }
        ensures { result ≡ point_at self.now.numbers.now at }
    {
        Point {
            x: self.numbers[at],
            y: self.numbers[at + 1],
        }
    }
}
