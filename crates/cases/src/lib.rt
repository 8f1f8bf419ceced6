//! Examples with known answers, run through the public functions.
#![tactic(auto)]

#[cfg(test)]
mod tests {
    use energy::numbers::{Bracket, bounds};
    use rules::Point;

    const POINTS: [Point; 4] = [
        Point { x: 0, y: 0 },
        Point { x: 1, y: 0 },
        Point { x: 1, y: 1 },
        Point { x: 0, y: 1 },
    ];

    // The unit square in two triangles with conductivities k and m, its left side held at g, its right side at 0.
    fn square(k: i64, m: i64, g: i64) -> [i64; 44] {
        [
            2, 4, 0, 0, 1, 0, 1, 1, k, 0, 0, 1, 1, 0, 1, m, 1, 1, 0, 1, 1, 0, 0, 1, 0, 1, 0, 0, g,
            g, 0, 0, 0, 1, 0, 0, 0, 0, 1, 1, 0, 1, 0, 0,
        ]
    }

    // What is answered for a square, a field of g at the left and 0 at the right, and a stream of s along the top.
    fn answer(k: i64, m: i64, g: i64, s: i64) -> Option<Bracket> {
        bounds(&square(k, m, g), &POINTS, &[g, 0, 0, g], &[0, 0, s, s])
    }

    // k, m, g, s, and what is answered: the lower and the upper number
    const SQUARES: [(i64, i64, i64, i64, Option<(i64, u64)>); 9] = [
        (1, 1, 16, -16, Some((256, 256))),
        (1, 1, 16, 0, Some((0, 256))),
        (1, 3, 16, -16, Some((341, 512))),
        (1, 3, 16, -24, Some((384, 512))),
        (1, 3, 16, -25, Some((382, 512))),
        (3, 3, 1, 0, Some((0, 6))),
        (0, 1, 16, -16, None),
        (4096, 1, 16, -16, None),
        (1, 1, 1048577, 0, None),
    ];

    #[test]
    fn squares(rt: HostRuntime) {
        for (k, m, g, s, answered) in SQUARES {
            let bracket = answered.map(|(lower, upper)| Bracket { lower, upper });
            assert_eq!(rt; answer(k, m, g, s), bracket);
        }
    }
}
