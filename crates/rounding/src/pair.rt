// Two square roots side by side: their digits' turns wait for each other nowhere.
ghost use Rattle.std.specs.Prelude.{◌≡◌, ◌+◌, ◌*◌, ◌^◌, ◌<◌, ◌≤◌, true, not, T, from_bits, is_nan, to_bits};
ghost use Rattle.std.specs.Float.{binary64};
ghost use Rattle.rounding.specs.Root.{root};

use super::pack::Positive;
use super::root::{PartialRoot, Step, near_one, packed_root, radicand_of, root};

// The digits of two roots.
#[derive(Clone, Copy)]
pub struct Digits {
    pub a: u64,
    pub b: u64,
}

// Two roots.
#[repr(C)]
#[derive(Clone, Copy)]
pub struct Roots {
    pub a: f64,
    pub b: f64,
}

// As root_digits, of two numbers in one loop: neither turn waits for the other, and two loops one after the other take longer.
pub fn pair_digits(w: u64, v: u64) -> Digits
    requires { (w < 2 ^ 54) × (v < 2 ^ 54) }
    ensures a_bound { (result.a * result.a ≤ w * 2 ^ 54) × (w * 2 ^ 54 < (result.a + 1) * (result.a + 1)) }
    ensures b_bound { (result.b * result.b ≤ v * 2 ^ 54) × (v * 2 ^ 54 < (result.b + 1) * (result.b + 1)) }
{
    let mut first = PartialRoot::of(w);
    let mut second = PartialRoot::of(v);
    let mut step = Step::first();
    for _ in 0..53u32 {
        first = first.turn(step);
        second = second.turn(step);
        step = step.halved();
    }
    Digits {
        a: first.whole(),
        b: second.whole(),
    }
}

// The roots of two positive finite floats.
pub fn positive_pair(x: Positive, y: Positive) -> Roots
    ensures { (result.a ≡ root (from_bits binary64 x.bits)) × (result.b ≡ root (from_bits binary64 y.bits)) }
{
    let v = radicand_of(x);
    let w = radicand_of(y);
    let digits = pair_digits(v.w, w.w);
    let a = packed_root(v.half, digits.a);
    let b = packed_root(w.half, digits.b);
    Roots { a, b }
}

// Whether x is positive, finite and not near 1: then its root takes digits.
pub fn ordinary(x: f64) -> bool
    ensures { result ≡ true → T (not (is_nan x)) × (0 < to_bits binary64 x) × (to_bits binary64 x < 0x7ff0_0000_0000_0000) }
{
    if x > 0.0 {
        let b = x.to_bits();
        if b < 0x7ff0_0000_0000_0000 {
            return !near_one(b);
        }
    }
    false
}

// Both roots: side by side where both are ordinary, and else one after the other.
#[tactic(auto, using(crate::proofs::RootCases::by_tests))]
pub fn root_pair(x: f64, y: f64) -> Roots
    ensures { (result.a ≡ root x) × (result.b ≡ root y) }
{
    if ordinary(x) && ordinary(y) {
        let first = Positive { bits: x.to_bits() };
        let second = Positive { bits: y.to_bits() };
        return positive_pair(first, second);
    }
    Roots {
        a: root(x),
        b: root(y),
    }
}
