// Whole numbers in f32, exactly: from bytes and cursors to floats and back, and what the tests of one float mean.
// NaN, the infinities and -0.0 are among the inputs of every function here.
#![tactic(auto)]

ghost use Rattle.std.specs.Prelude.{◌≡◌, min};
ghost use Rattle.std.specs.Float.{binary32};
ghost use Rattle.exact.specs.Whole.{diff};
ghost use Rattle.exact.specs.Tests.{is_bit, natural, small, coefficient, relu, count_of};

// A cursor, as the float of its cell: read as 65,535 if larger.
pub fn of_cursor(c: u32) -> f32
    ensures { result ≡ diff binary32 (min c 65535) 0 }
{
    c.min(65535) as f32
}

// max(0, x). A NaN counts as 0, and the answer is never -0.0.
#[tactic(auto, unfolding(crate::specs::Tests::relu))]
pub fn positive_part(x: f32) -> f32
    ensures { result ≡ relu x }
{
    if x > 0.0 { x } else { 0.0 }
}

// Whether x is 0 or 1.
pub fn is_bit(x: f32) -> bool
    ensures { result ≡ is_bit x }
{
    x == 0.0 || x == 1.0
}

// Whether x is a natural number. From 2^23 on a finite float has no fraction, and an infinity times 0.0 is NaN.
// Below that, adding 2^23 rounds x to a whole number. A negative x gives a sum below 2^23, or 2^23 itself, which does not give x back.
// With no remainder, which would be a call of the C library.
pub fn is_natural(x: f32) -> bool
    ensures { result ≡ natural x }
{
    if 8388608.0 <= x {
        return x * 0.0 == 0.0;
    }
    let y = x + 8388608.0;
    (8388608.0 <= y) & ((y <= 16777216.0) & (x == y - 8388608.0))
}

// Whether x is whole and at most 65,536 in size. Near 1.5 * 2^23 a float has no fraction, so adding that number rounds x to a whole one.
// With no branch: a tick asks this of every coefficient.
pub fn is_small(x: f32) -> bool
    ensures { result ≡ small x }
{
    let y = x + 12582912.0;
    (12517376.0 <= y) & ((y <= 12648448.0) & (x == y - 12582912.0))
}

// Whether x may be a coefficient: not zero, whole, and at most 65,536 in size.
pub fn is_coefficient(x: f32) -> bool
    ensures { result ≡ coefficient x }
{
    (x != 0.0) & is_small(x)
}

// The number of a next cursor, or 65,536 where x is not a natural number of at most 65,535.
// `x as u32` alone is not defined at -0.0, which x + 0.0 takes to 0.0.
pub fn count(x: f32) -> u32
    ensures { result ≡ count_of x }
{
    if is_small(x) & ((x >= 0.0) & (x <= 65535.0)) {
        return (x + 0.0) as u32;
    }
    65536
}
