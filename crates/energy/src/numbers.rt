//! The two numbers.
ghost use Rattle.std.specs.Prelude.{◌≡◌, false, if◌then◌else◌, Some, None, MatchOption};
ghost use Rattle.rules.specs.Bounds.{upper as upper_of, lower as lower_of, upper_in_reach, lower_in_reach, both_in_reach, TwoNumbers};
ghost use Rattle.rules.specs.Numbers.{plate_of};
ghost use Rattle.rules.specs.Plates.{values_at};
ghost use Rattle.energy.specs.Printed.{bracket_text};

use crate::values::{Listed, OnPlate, Values};
use plate::view::View;
use rules::Point;
use std::fmt;
use triangle::kinds::Kind;

impl<'a, V: Values> OnPlate<'a, V> {
    /// The upper number of the values, or `None` where it is out of reach.
    fn upper(&self) -> Option<u64>
        ensures { let u = V.value self.now.values in let m = plate_of self.now.plate.numbers.now in result ≡ (if upper_in_reach u m then Some (upper_of u m.triangles) else None) }
    {
        self.total(Kind::Spent)
    }

    /// The lower number of the values, or `None` where it is out of reach.
    fn lower(&self) -> Option<i64>
        ensures { let s = V.value self.now.values in let m = plate_of self.now.plate.numbers.now in result ≡ (if lower_in_reach s m then Some (lower_of s m) else None) }
    {
        let work = self.work()?;
        let drag = self.total(Kind::Dragged)?;
        // `as`: a drag is below 2^62, and a `try_from` would add a refusal that never comes.
        Some(work - drag as i64)
    }
}

/// The lower and the upper number.
#[derive(Clone, Copy, PartialEq, Eq, Debug)]
pub struct Bracket {
    pub lower: i64,
    pub upper: u64,
}

impl fmt::Display for Bracket {
    ghost output = { λ b. Some (bracket_text b.lower b.upper) };

    fn fmt<W: fmt::Write>(&self, f: &mut fmt::Formatter<W>) -> fmt::Result {
        let Bracket { lower, upper } = self;
        write!(f, "lower {lower}\nupper {upper}")
    }
}

/// The two numbers of a plate, a field and a stream, each a row of numbers, or `None` where they are out of reach.
pub fn bounds(plate: &[i64], points: &[Point], field: &[i64], stream: &[i64]) -> Option<Bracket>
    ensures { MatchOption result (both_in_reach plate.now (values_at points.now field.now) (values_at points.now stream.now) ≡ false) (λ b. TwoNumbers plate.now (values_at points.now field.now) (values_at points.now stream.now) b.lower b.upper) }
{
    let plate = View::checked(plate)?;
    let on_plate = |numbers| OnPlate {
        plate,
        values: Listed { points, numbers },
    };
    let lower = on_plate(stream).lower()?;
    let upper = on_plate(field).upper()?;
    Some(Bracket { lower, upper })
}
