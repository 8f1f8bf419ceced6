//! What stands in a plate's numbers, one after another: triangles and outline edges.
ghost use Rattle.std.specs.Prelude.{◌≡◌, ℕ, ◌<◌, List, ℤ};
ghost use Rattle.std.specs.Iterator.{YieldsFirst, item_count};
ghost use Rattle.exact.specs.Lists.{listed_from};
ghost use Rattle.rules.specs.Numbers.{triangle_count, triangle_at, outline_count, outline_at};

use crate::view::View;
use rules::{Edge, OutlineEdge, Triangle};
use std::marker::PhantomData;
use std::ops::Range;

/// What a plate has several of.
pub trait Part: Sized {
    ghost count: { List ℤ → ℕ };

    ghost part_at: { List ℤ → ℕ → Self };

    /// How many.
    fn count(plate: &View) -> usize
        ensures { result ≡ count plate.now.numbers.now };

    /// Number `i`.
    fn part_at(plate: &View, i: usize) -> Self
        requires { i < count plate.now.numbers.now }
        ensures { result ≡ part_at plate.now.numbers.now i };
}

impl Part for Triangle {
    ghost count = { triangle_count };

    ghost part_at = { triangle_at };

    fn count(plate: &View) -> usize {
        plate.triangles
    }

    #[tactic(auto, unfolding(rules::specs::Numbers::triangle_at))]
    fn part_at(plate: &View, i: usize) -> Triangle {
        let at = 2 + 7 * i;
        Triangle {
            a: plate.point(at),
            b: plate.point(at + 2),
            c: plate.point(at + 4),
            k: u64::try_from(plate.numbers[at + 6]).unwrap_or(0),
        }
    }
}

impl Part for OutlineEdge {
    ghost count = { outline_count };

    ghost part_at = { outline_at };

    fn count(plate: &View) -> usize {
        plate.edges
    }

    #[tactic(auto, unfolding(rules::specs::Numbers::outline_at))]
    fn part_at(plate: &View, i: usize) -> OutlineEdge {
        let at = 2 + 7 * (plate.triangles + i);
        let edge = Edge {
            from: plate.point(at + 1),
            to: plate.point(at + 3),
        };
        // A kind is a number in the format of calls; here it becomes a variant.
        if plate.numbers[at] == 1 {
            OutlineEdge::Held {
                edge,
                from: plate.numbers[at + 5],
                to: plate.numbers[at + 6],
            }
        } else {
            OutlineEdge::Closed { edge }
        }
    }
}

/// The parts of a plate that are still to come.
#[derive(Drop)]
pub struct Parts<'a, P: Part> {
    pub plate: View<'a>,
    pub places: Range<usize>,
    pub what: PhantomData<P>,
    ghost whole: { places.end ≡ P.count plate.numbers.now },
}

impl<'a> View<'a> {
    /// Triangle `i`.
    pub fn triangle(&self, i: usize) -> Triangle
        requires { i < self.now.triangles }
        ensures { result ≡ triangle_at self.now.numbers.now i }
    {
        Triangle::part_at(self, i)
    }

    /// Outline edge `i`.
    pub fn outline(&self, i: usize) -> OutlineEdge
        requires { i < self.now.edges }
        ensures { result ≡ outline_at self.now.numbers.now i }
    {
        OutlineEdge::part_at(self, i)
    }

    /// All parts of a kind.
    pub fn parts<P: Part>(&self) -> Parts<'a, P>
        ensures plate { result.plate.numbers.now ≡ self.now.numbers.now }
        ensures all { result.places.start ≡ 0 }
    {
        Parts {
            plate: *self,
            places: 0..P::count(self),
            what: PhantomData,
        }
    }
}

impl<'a, P: Part> Iterator for Parts<'a, P> {
    type Item = P;

    ghost next_gives = { YieldsFirst (λ s. listed_from (P.part_at s.plate.numbers.now) (P.count s.plate.numbers.now) s.places.start) };

    ghost remaining = { item_count (λ s. listed_from (P.part_at s.plate.numbers.now) (P.count s.plate.numbers.now) s.places.start) };

    fn next(&mut self) -> Option<P> {
        let i = self.places.next()?;
        Some(P::part_at(&self.plate, i))
    }
}
