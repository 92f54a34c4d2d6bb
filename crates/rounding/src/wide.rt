// Numbers of two words.
ghost use Rattle.std.specs.Prelude.{◌≡◌, ◌+◌, ◌*◌, ◌^◌, ◌<◌, ◌≤◌};
ghost use Rattle.std.specs.Float.{binary64};
ghost use Rattle.std.specs.Float.Ieee.{round};
ghost use Rattle.rounding.specs.Near.{Sticky};

use super::pack::{jam, round_pack, shift_jam};
use std::marker::Model;

// The number hi * 2^64 + lo, which is what contracts see. No u128: on small boards its operations are calls of routines.
#[derive(Clone, Copy, PartialEq, Eq, PartialOrd, Ord)]
pub struct Wide {
    pub hi: u64,
    pub lo: u64,
}

impl Model for Wide {
    ghost use Rattle.std.specs.Prelude.{ℕ, ◌+◌, ◌*◌, ◌/◌, ◌%◌, ◌^◌, ◌<◌};

    ghost Value = { ℕ };

    ghost view = { λ w. w.hi * 2 ^ 64 + w.lo };

    ghost invariant = { λ w. w.lo < 2 ^ 64 };

    ghost inverse = { λ n. record { hi = n / 2 ^ 64; lo = n % 2 ^ 64 } };
}

impl Wide {
    // The product of two u64: four products of halves, added column by column. The library's `carrying_mul` multiplies in u128.
    pub fn product(u: u64, v: u64) -> Wide
        ensures { result ≡ u * v }
    {
        let u0 = u & 0xffff_ffff;
        let u1 = u >> 32;
        let v0 = v & 0xffff_ffff;
        let v1 = v >> 32;
        let w0 = u0 * v0;
        let t = u1 * v0 + (w0 >> 32);
        let w1 = (t & 0xffff_ffff) + u0 * v1;
        Wide {
            hi: u1 * v1 + (t >> 32) + (w1 >> 32),
            lo: (w1 << 32) | (w0 & 0xffff_ffff),
        }
    }

    // The number with d bits dropped, the lowest bit kept set where a bit that was dropped was.
    pub fn shift_jam(self, d: u64) -> Wide
        ensures { Sticky self (2 ^ d) result }
    {
        if d == 0 {
            return self;
        }
        if d < 64 {
            let low = (self.hi << (64 - d)) | (self.lo >> d);
            Wide {
                hi: self.hi >> d,
                lo: jam(low, self.lo << (64 - d)),
            }
        } else {
            Wide {
                hi: 0,
                lo: shift_jam(jam(self.hi, self.lo), d - 64),
            }
        }
    }

    // The lower words' sum carries into the upper.
    pub fn plus(self, other: Wide) -> Wide
        requires { self + other < 2 ^ 128 }
        ensures { result ≡ self + other }
    {
        let (lo, carry) = self.lo.carrying_add(other.lo, false);
        let (hi, _) = self.hi.carrying_add(other.hi, carry);
        Wide { hi, lo }
    }

    // The lower words' difference borrows from the upper.
    pub fn minus(self, other: Wide) -> Wide
        requires { other ≤ self }
        ensures { result + other ≡ self }
    {
        let (lo, borrow) = self.lo.borrowing_sub(other.lo, false);
        let (hi, _) = self.hi.borrowing_sub(other.hi, borrow);
        Wide { hi, lo }
    }

    // The number times 2^e / 2^2272 with the sign, rounded once. It is not 0.
    pub fn finish(self, neg: bool, e: u64) -> f64
        requires { (0 < self) × (e < 2 ^ 32) }
        ensures { result ≡ round binary64 neg (self * 2 ^ e) (2 ^ 2272) }
    {
        if self.hi == 0 {
            let z = self.lo.leading_zeros() as u64;
            round_pack(neg, e + 64 - z, self.lo << z)
        } else {
            let z = self.hi.leading_zeros() as u64;
            let s = self.shift_jam(64 - z);
            round_pack(neg, e + 128 - z, s.lo)
        }
    }
}
