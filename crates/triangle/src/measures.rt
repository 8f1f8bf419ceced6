//! What of a triangle and its values goes into its quotients.
ghost use Rattle.std.specs.Prelude.{◌^◌, ◌<◌, ◌≤◌};

/// Twice the area of a proper triangle within the limits.
#[derive(Clone, Copy)]
pub struct Area {
    pub twice: u64,
    ghost above: { 0 < twice },
    ghost below: { twice ≤ 2 ^ 33 },
}

/// The square of the length of a vector that is not too steep.
#[derive(Clone, Copy)]
pub struct Square {
    pub value: u64,
    ghost below: { value < 2 ^ 61 },
}
