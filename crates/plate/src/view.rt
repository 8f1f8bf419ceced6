//! A plate as its lent numbers, of which there are as many as its two counts say.
ghost use Rattle.std.specs.Prelude.{◌≡◌, ◌+◌, ◌*◌, ◌≤◌, length};
ghost use Rattle.rules.specs.Numbers.{triangle_count, outline_count};

/// A plate that is read out of the numbers that it was lent as.
#[derive(Clone, Copy)]
pub struct View<'a> {
    // One row and two counts, since calls lend a plate so: they are its first two numbers, read once. Rows of seven (`as_chunks`) would be no
    // plainer: the definitions read by the place in the one row, and each read would have to be led back to it.
    pub numbers: &'a [i64],
    /// how many triangles
    pub triangles: usize,
    /// how many outline edges
    pub edges: usize,
    ghost sized: { length numbers.now ≡ 2 + 7 * (triangles + edges) },
    ghost few: { edges ≤ 65536 },
    ghost triangles_counted: { triangles ≡ triangle_count numbers.now },
    ghost edges_counted: { edges ≡ outline_count numbers.now },
}
