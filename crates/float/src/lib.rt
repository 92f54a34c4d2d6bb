// Float helpers: Rust's functions on one or two f64, with the meaning that specs/Float.antt gives each, and
// the way between a float and its bits.
#![tactic(auto)]

ghost use Rattle.std.specs.Prelude.{◌≡◌, false};
ghost use Rattle.std.specs.Float.Ieee as Ieee;
ghost use Rattle.float.specs.Float.{abs, finite, min, max, clamp};

pub fn infinity() -> f64
    ensures { result ≡ Ieee.inf false }
{
    1.0 / 0.0
}

// The logic has one NaN. The built code has many, and this literal is the one with bits 7FF8000000000000.
pub fn nan() -> f64
    ensures { result ≡ Ieee.nan }
{
    0.0 / 0.0
}

// x itself, a NaN as the one of `nan`. The contract cannot tell two NaNs apart: a run of the built code looks at the bits.
#[tactic(auto, using(crate::proofs::Nans::one_nan))]
pub fn settled(x: f64) -> f64
    ensures { result ≡ x }
{
    if x.is_nan() { nan() } else { x }
}

// 0 - x is x with the other sign, and +0 for a zero of either sign. Where one operation or comparison takes the result,
// the built code has one instruction, and elsewhere seven, without a branch.
pub fn abs(x: f64) -> f64
    ensures { result ≡ abs x }
{
    if x > 0.0 { x } else { 0.0 - x }
}

pub fn is_finite(x: f64) -> bool
    ensures { result ≡ finite x }
{
    abs(x) < infinity()
}

// Numbers that are equal have the same bits, but for zeros of both signs. Joined by `|` those are the bits of -0, and by `&` those of +0. The
// built code branches to that only where the two are equal; which one it gives otherwise it selects without a branch. min and max stay two
// functions: they differ in one sign of each arm, `|` or `&` and `y < x` or `x < y`, which one with a const parameter would have to test for.
pub fn min(x: f64, y: f64) -> f64
    ensures { result ≡ min x y }
{
    if x == y {
        float_of(bits_of(x) | bits_of(y))
    } else {
        if x.is_nan() || y < x { y } else { x }
    }
}

pub fn max(x: f64, y: f64) -> f64
    ensures { result ≡ max x y }
{
    if x == y {
        float_of(bits_of(x) & bits_of(y))
    } else {
        if x.is_nan() || x < y { y } else { x }
    }
}

pub fn clamp(x: f64, low: f64, high: f64) -> f64
    ensures { result ≡ clamp x low high }
{
    let raised = if x < low { low } else { x };
    if high < raised { high } else { raised }
}

// The bits of a float; of a NaN, whatever its own, 7FF8000000000000.
#[tactic(auto, using(crate::proofs::Nans::one_nan, crate::proofs::Nans::bits_of_nan))]
pub fn bits_of(x: f64) -> u64
    ensures { result ≡ Ieee.to_bits Ieee.binary64 x }
{
    if x.is_nan() {
        0x7FF8_0000_0000_0000
    } else {
        x.to_bits()
    }
}

// The float with the bits n; one NaN for every pattern of a NaN.
pub fn float_of(n: u64) -> f64
    ensures { result ≡ Ieee.of_bits Ieee.binary64 n }
{
    let magnitude = n % 0x8000_0000_0000_0000;
    if magnitude > 0x7FF0_0000_0000_0000 {
        nan()
    } else {
        f64::from_bits(n)
    }
}
