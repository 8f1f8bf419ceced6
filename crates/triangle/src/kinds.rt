//! The two kinds of quotients.

// An enum and no closure: the contracts of the quotient, of a triangle's and of their sum name what a kind means, where with a closure
// each would have to pass on what the closure requires and ensures.

/// Which quotient of a triangle is meant.
#[derive(Clone, Copy)]
pub enum Kind {
    /// what a field spends
    Spent,
    /// what a stream drags
    Dragged,
}
