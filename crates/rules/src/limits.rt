//! The limits, and what is known to be within them.
ghost use Rattle.std.specs.Prelude.{◌≡◌, Bool, true, false, ◌&&◌, MatchOption};
ghost use Rattle.exact.specs.Lists.{every};
ghost use Rattle.rules.specs.Limits.{near, near_point, near_edge, modest, near_corners, short};

use crate::{
    CONDUCTIVITY_END, Corners, Edge, MAX_COORDINATE, MAX_STEP, MAX_VALUE, Point, Triangle, Vector,
};

/// Whether a number is at most so far from 0.
pub fn near(limit: u64, z: i64) -> bool
    ensures { result ≡ near limit z }
{
    z.unsigned_abs() <= limit
}

/// What has limits.
pub trait Limited: Copy {
    ghost within: { Self → Bool };

    fn is_within(&self) -> bool
        ensures { result ≡ within self.now };
}

/// Whether all of some values are within their limits.
fn all_within<T: Limited>(values: &[T]) -> bool
    ensures { result ≡ every T.within values.now }
{
    values.iter().all(|x| x.is_within())
}

impl Limited for Point {
    ghost within = { near_point };

    fn is_within(&self) -> bool {
        near(MAX_COORDINATE, self.x) && near(MAX_COORDINATE, self.y)
    }
}

impl Limited for Edge {
    ghost within = { near_edge };

    fn is_within(&self) -> bool {
        all_within(&[self.from, self.to])
    }
}

impl Limited for Triangle {
    ghost within = { modest };

    #[tactic(auto, unfolding(crate::specs::Limits::modest))]
    fn is_within(&self) -> bool {
        all_within(&self.corners()) && self.k < CONDUCTIVITY_END
    }
}

impl Limited for Corners {
    ghost within = { near_corners };

    fn is_within(&self) -> bool {
        [self.a, self.b, self.c].iter().all(|z| near(MAX_VALUE, *z))
    }
}

/// As a direction: the way from a point within the limits to another, or shorter. (A gradient has a limit of its own, `gentle`.)
impl Limited for Vector {
    ghost within = { short };

    fn is_within(&self) -> bool {
        near(MAX_STEP, self.x) && near(MAX_STEP, self.y)
    }
}

/// A value that is within its limits.
#[derive(Drop)]
pub struct Within<T: Limited> {
    pub value: T,
    ghost within: { T.within value ≡ true },
}

impl<T: Limited> Within<T> {
    /// The value, or `None` where it is beyond its limits.
    pub fn new(value: T) -> Option<Within<T>>
        ensures { MatchOption result (T.within value ≡ false) (λ w. (w.value ≡ value) × (T.within value ≡ true)) }
    {
        value.is_within().then(|| Within::known(value))
    }

    /// The value, which is known to be within its limits.
    pub fn known(value: T) -> Within<T>
        requires { T.within value ≡ true }
        ensures { result.value ≡ value }
    {
        Within { value }
    }
}
