//! The corners and edges of a triangle, and the ends of an edge.
ghost use Rattle.std.specs.Prelude.{◌≡◌, map};
ghost use Rattle.rules.specs.Edges.{next, corner, edge, corners_in, edges_in};

use crate::limits::Within;
use crate::{Corner, Edge, Point, Triangle};

impl Corner {
    /// All three.
    pub const ALL: [Corner; 3] = [Corner::A, Corner::B, Corner::C];

    /// The one that follows.
    fn next(self) -> Corner
        ensures { result ≡ next self }
    {
        match self {
            Corner::A => Corner::B,
            Corner::B => Corner::C,
            Corner::C => Corner::A,
        }
    }
}

impl Triangle {
    /// One corner.
    pub fn corner(&self, i: Corner) -> Point
        ensures { result ≡ corner self.now i }
    {
        match i {
            Corner::A => self.a,
            Corner::B => self.b,
            Corner::C => self.c,
        }
    }

    /// The directed edge that begins at a corner.
    pub fn edge(&self, i: Corner) -> Edge
        ensures { result ≡ edge self.now i }
    {
        Edge {
            from: self.corner(i),
            to: self.corner(i.next()),
        }
    }

    /// The corners, against the clock.
    pub fn corners(&self) -> [Point; 3]
        ensures { result ≡ corners_in self.now }
    {
        Corner::ALL.map(|i| self.corner(i))
    }

    /// The directed edges, each from a corner to the next.
    pub fn edges(&self) -> [Edge; 3]
        ensures { result ≡ edges_in self.now }
    {
        Corner::ALL.map(|i| self.edge(i))
    }
}

impl Within<Edge> {
    /// Where it begins.
    pub fn start(&self) -> Within<Point>
        ensures { result.value ≡ self.now.value.from }
    {
        Within::known(self.value.from)
    }

    /// Where it ends.
    pub fn end(&self) -> Within<Point>
        ensures { result.value ≡ self.now.value.to }
    {
        Within::known(self.value.to)
    }
}

impl Within<Triangle> {
    // Not one function with those of `Triangle`, which cannot say that the parts are within the limits. A `map` of `known` was tried: its
    // closure does not know which part it is given.

    /// The corners, against the clock.
    #[tactic(auto, unfolding(crate::specs::Limits::modest))]
    pub fn corners(&self) -> [Within<Point>; 3]
        ensures { map (λ p. p.value) result ≡ corners_in self.now.value }
    {
        let [a, b, c] = self.value.corners();
        [Within::known(a), Within::known(b), Within::known(c)]
    }

    /// The directed edges, each from a corner to the next.
    #[tactic(auto, unfolding(crate::specs::Limits::modest))]
    pub fn edges(&self) -> [Within<Edge>; 3]
        ensures { map (λ e. e.value) result ≡ edges_in self.now.value }
    {
        let [ab, bc, ca] = self.value.edges();
        [Within::known(ab), Within::known(bc), Within::known(ca)]
    }
}
