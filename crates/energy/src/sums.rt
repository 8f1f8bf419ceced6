//! Sums of rounded quotients over all triangles.
ghost use Rattle.std.specs.Prelude.{◌≡◌, if◌then◌else◌, None, sum_by};
ghost use Rattle.exact.specs.Capped.{capped};
ghost use Rattle.rules.specs.Bounds.{all_in_reach};
ghost use Rattle.rules.specs.Numbers.{triangles_of};
ghost use Rattle.rules.specs.Plates.{corners_of};
ghost use Rattle.triangle.specs.Terms.{term_of};

use crate::values::{OnPlate, Values};
use exact::capped_sum;
use rules::Triangle;
use triangle::kinds::Kind;
use triangle::terms::rounded;

impl<'a, V: Values> OnPlate<'a, V> {
    /// The sum of all triangles' quotients, or `None` where a triangle is out of reach or the sum is too large.
    pub fn total(&self, kind: Kind) -> Option<u64>
        ensures { let u = V.value self.now.values in let ts = triangles_of self.now.plate.numbers.now in result ≡ (if all_in_reach u ts then capped (sum_by (λ t. term_of kind t (corners_of u t)) ts) else None) }
    {
        let mut sum = 0;
        for t in self.plate.parts::<Triangle>() {
            sum = capped_sum(sum, rounded(kind, &t, &self.values.corners(&t))?)?;
        }
        Some(sum)
    }
}
