// The square root, digit by digit, by comparison, addition, subtraction, shifts and masks alone: no divide and no multiply.
ghost use Rattle.std.specs.Prelude.{◌≡◌, ◌+◌, ◌*◌, ◌/◌, ◌^◌, ◌<◌, ◌≤◌, true, from_bits};
ghost use Rattle.std.specs.Float.{binary64};
ghost use Rattle.rounding.specs.Root.{root};
ghost use Rattle.rounding.specs.Near.{Radical, Halved, Turned, Ended};

use super::pack::{Parts, Positive, parts_of};

// What `trial` changes by in a turn: it goes up where the digit is 1, and down where it is 0.
#[derive(Clone, Copy)]
pub struct Step {
    pub up: u64,
    pub down: u64,
}

impl Step {
    // That of the first turn.
    #[inline(always)]
    pub fn first() -> Step
        ensures { (result.up ≡ 3 * 2 ^ 52) × (result.down ≡ 2 ^ 52) }
    {
        Step {
            up: 0x30_0000_0000_0000,
            down: 0x10_0000_0000_0000,
        }
    }

    // That of the next turn.
    #[inline(always)]
    pub fn halved(self) -> Step
        ensures { (result.up ≡ self.up / 2) × (result.down ≡ self.down / 2) }
    {
        Step {
            up: self.up >> 1,
            down: self.down >> 1,
        }
    }
}

// A square root whose digits are being found, one binary digit a turn. With the digits found so far at the top of s,
// `trial` is s + 2 * down: the next digit is 1 where `rest`, what is left, is at least that.
#[derive(Clone, Copy)]
pub struct PartialRoot {
    pub rest: u64,
    pub trial: u64,
}

impl PartialRoot {
    // That of w * 2^54, before the first turn.
    #[inline(always)]
    pub fn of(w: u64) -> PartialRoot
        requires { w < 2 ^ 54 }
        ensures { (result.rest ≡ w * 2) × (result.trial ≡ 2 ^ 53) }
    {
        PartialRoot {
            rest: w << 1,
            trial: 0x20_0000_0000_0000,
        }
    }

    // A turn. Where the digit is 0, `left` has wrapped past zero. Two different tests say so, and the compiler keeps both
    // selections free of jumps.
    #[inline(always)]
    pub fn turn(self, step: Step) -> PartialRoot
        requires { (self.rest < 2 ^ 63) × (self.trial < 2 ^ 63) × (step.down ≤ self.trial) × (step.up < 2 ^ 63) }
        ensures { Turned self.rest self.trial step.up step.down result.rest result.trial }
    {
        let left = self.rest.wrapping_sub(self.trial);
        let above = self.trial + step.up;
        let below = self.trial - step.down;
        let trial = if self.trial <= self.rest {
            above
        } else {
            below
        };
        let rest = if left < 0x8000_0000_0000_0000 {
            left
        } else {
            self.rest
        };
        PartialRoot {
            rest: rest << 1,
            trial,
        }
    }

    // The whole part of the root, after the last turn.
    #[inline(always)]
    pub fn whole(self) -> u64
        requires { (0 < self.trial) × (self.trial < 2 ^ 63) }
        ensures { Ended self.rest self.trial result }
    {
        if self.trial <= self.rest {
            (self.trial + 1) >> 1
        } else {
            (self.trial - 1) >> 1
        }
    }
}

// The whole part of the square root of w * 2^54.
pub fn root_digits(w: u64) -> u64
    requires { w < 2 ^ 54 }
    ensures { (result * result ≤ w * 2 ^ 54) × (w * 2 ^ 54 < (result + 1) * (result + 1)) }
{
    let mut root = PartialRoot::of(w);
    let mut step = Step::first();
    for _ in 0..53u32 {
        root = root.turn(step);
        step = step.halved();
    }
    root.whole()
}

// What the digits of a root are taken of, and half of its exponent: the float is w * 2^(2 * half) / 2^1126.
#[derive(Clone, Copy)]
pub struct Radicand {
    pub w: u64,
    pub half: u64,
}

pub fn radicand_of(x: Positive) -> Radicand
    ensures { Radical x.bits result.w result.half }
{
    let Parts { m, e } = parts_of(x);
    let odd = e & 1;
    let w = (m >> 10) << odd;
    let half = (e - odd) >> 1;
    Radicand { w, half }
}

// The root with the digits q. It is neither subnormal nor infinite, and never half way between two floats: an odd q has an
// odd square, and q * q is not the even w * 2^54.
#[tactic(auto, using(crate::proofs::Packed::small_real))]
pub fn packed_root(half: u64, q: u64) -> f64
    requires { (half + 485 ≤ 2045) × (q < 2 ^ 54) }
    ensures { result ≡ from_bits binary64 ((half + 485) * 2 ^ 52 + (q + 1) / 2) }
{
    f64::from_bits(((half + 485) << 52) + ((q + 1) >> 1))
}

// The root of a positive finite float.
pub fn root_positive(x: Positive) -> f64
    ensures { result ≡ root (from_bits binary64 x.bits) }
{
    let r = radicand_of(x);
    let q = root_digits(r.w);
    packed_root(r.half, q)
}

// Whether the float with these bits is at most 2^26 floats away from 1: then the bits of its root lie half way to those of 1.
// The contract says what a yes means. After a no the root is found by its digits, which is right wherever it is said.
pub fn near_one(b: u64) -> bool
    ensures { result ≡ true → Halved b }
{
    0x3fef_ffff_fc00_0000 <= b && b <= 0x3ff0_0000_0400_0000
}

// √x, rounded once. A zero is its own root, and a number below zero has none: NaN.
#[tactic(auto, using(crate::proofs::RootCases::by_tests))]
pub fn root(x: f64) -> f64
    ensures { result ≡ root x }
{
    if x > 0.0 {
        let b = x.to_bits();
        if near_one(b) {
            return f64::from_bits((b + 0x3ff0_0000_0000_0000) >> 1);
        }
        if b < 0x7ff0_0000_0000_0000 {
            return root_positive(Positive { bits: b });
        }
        return x;
    }
    if x == 0.0 {
        return x;
    }
    float::nan()
}
