//! Prints the two numbers of a plate, a field and a stream that are built in.
#![tactic(auto)]

use energy::numbers::bounds;
use rules::Point;
use std::io;

// The unit square in two triangles, as its numbers.
const SQUARE: [i64; 44] = [
    // two triangles, four outline edges
    2, 4,
    // (0, 0) (1, 0) (1, 1) with k = 1
    0, 0, 1, 0, 1, 1, 1,
    // (0, 0) (1, 1) (0, 1) with k = 1
    0, 0, 1, 1, 0, 1, 1,
    // the right side, (1, 0) to (1, 1), held at 0
    1, 1, 0, 1, 1, 0, 0,
    // the left side, (0, 1) to (0, 0), held at 16
    1, 0, 1, 0, 0, 16, 16,
    // the lower side closed
    0, 0, 0, 1, 0, 0, 0,
    // the upper side closed
    0, 1, 1, 0, 1, 0, 0,
];

// Its points, in the order in which the triangles first name them.
const POINTS: [Point; 4] = [
    Point { x: 0, y: 0 },
    Point { x: 1, y: 0 },
    Point { x: 1, y: 1 },
    Point { x: 0, y: 1 },
];

const FIELD: [i64; 4] = [16, 0, 0, 16];

const STREAM: [i64; 4] = [0, 0, -16, -16];

fn main(rt: HostRuntime) -> io::Result<()> {
    match bounds(&SQUARE, &POINTS, &FIELD, &STREAM) {
        Some(bracket) => println!(rt; "{bracket}"),
        None => println!(rt; "out of reach"),
    }
}
