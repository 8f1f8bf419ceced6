//! Exact arithmetic on machine numbers: quotients rounded up, numbers kept below a cap, signed products.
#![tactic(auto)]

ghost use Rattle.std.specs.Prelude.{◌≡◌, ℕ, ◌+◌, ◌*◌, ◌^◌, ◌<◌, ◌≤◌, ◌*ℤ◌, unsigned_abs};
ghost use Rattle.exact.specs.Capped.{capped};
ghost use Rattle.exact.specs.Rounding.{up};

/// The first number that is too large to be kept by the capped operations.
const CAP: u64 = 1 << 62;

/// The quotient `n / d` rounded up: the least `m` with `n <= m * d`.
pub fn ceil_div(n: u64, d: u64) -> u64
    requires { 0 < d }
    ensures value { result ≡ up n d }
    ensures least { (m : ℕ) → (n ≤ m * d → result ≤ m) × (result ≤ m → n ≤ m * d) }
{
    n.div_ceil(d)
}

/// The number itself, or `None` where it reaches `CAP`.
pub fn below_cap(n: u64) -> Option<u64>
    ensures { result ≡ capped n }
{
    if n < CAP { Some(n) } else { None }
}

// The next two are not one function of the operation: what they share is `below_cap`, and the rest is one word.

/// The product, or `None` where it reaches `CAP`.
pub fn capped_product(a: u64, b: u64) -> Option<u64>
    ensures { result ≡ capped (a * b) }
{
    below_cap(a.checked_mul(b)?)
}

/// The sum, or `None` where it reaches `CAP`.
pub fn capped_sum(a: u64, b: u64) -> Option<u64>
    ensures { result ≡ capped (a + b) }
{
    below_cap(a.checked_add(b)?)
}

/// The product of two signed factors, each below `2^31` in size.
pub fn product(a: i64, b: i64) -> i64
    requires left { unsigned_abs a < 2 ^ 31 }
    requires right { unsigned_abs b < 2 ^ 31 }
    ensures { result ≡ a *ℤ b }
{
    a * b
}
