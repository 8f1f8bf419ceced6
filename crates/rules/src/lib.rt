//! What the definitions speak of, and the limits.
#![tactic(auto)]

pub mod limits;
mod parts;

/// A plate has at most so many triangles, and at most so many outline edges.
pub const MAX_COUNT: i64 = 65536;

/// No coordinate is farther from 0.
pub const MAX_COORDINATE: u64 = 32768;

/// No way from one point to another is longer, in either coordinate.
pub const MAX_STEP: u64 = 1 << 16;

/// No value and no temperature is farther from 0.
pub const MAX_VALUE: u64 = 1 << 20;

/// Each conductivity is below this.
pub const CONDUCTIVITY_END: u64 = 4096;

/// Each coordinate of a turned gradient is below this, in size.
pub const GRADIENT_END: u64 = 1 << 30;

/// A point of the plane, with whole coordinates.
#[derive(Clone, Copy, PartialEq, Eq)]
pub struct Point {
    pub x: i64,
    pub y: i64,
}

/// A directed edge.
#[derive(Clone, Copy, PartialEq, Eq)]
pub struct Edge {
    pub from: Point,
    pub to: Point,
}

/// Which corner of a triangle, against the clock.
#[derive(Clone, Copy, PartialEq, Eq)]
pub enum Corner {
    A,
    B,
    C,
}

/// A triangle, its corners against the clock, and its conductivity k.
#[derive(Clone, Copy)]
pub struct Triangle {
    pub a: Point,
    pub b: Point,
    pub c: Point,
    pub k: u64,
}

// Not an edge with an `Option` of temperatures: the definitions and the theorems name the two kinds.

/// An edge of the outline, directed as its triangle has it: closed to heat, or held at a temperature at each end.
#[derive(Clone, Copy)]
pub enum OutlineEdge {
    Closed { edge: Edge },
    Held { edge: Edge, from: i64, to: i64 },
}

/// A number at each corner of a triangle.
#[derive(Clone, Copy)]
pub struct Corners {
    pub a: i64,
    pub b: i64,
    pub c: i64,
}

// Not the type of points, though the fields are the same: a way is no place, and other limits hold.

/// A vector of the plane.
#[derive(Clone, Copy)]
pub struct Vector {
    pub x: i64,
    pub y: i64,
}
