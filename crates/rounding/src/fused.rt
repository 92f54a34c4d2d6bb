// The fused multiply-add.
ghost use Rattle.std.specs.Prelude.{◌≡◌, ◌+◌, ◌*◌, ◌^◌, ◌<◌};
ghost use Rattle.std.specs.Float.{binary64};
ghost use Rattle.std.specs.Float.Ieee.{sum};
ghost use Rattle.rounding.specs.Fused.{fused};
ghost use Rattle.rounding.specs.Near.{Multiplied, Raised, Fuses};

use super::pack::{Positive, parts_of};
use super::wide::Wide;
use std::cmp::Ordering;

// ±p * 2^e + ±q * 2^e, over 2^2272, rounded once.
pub fn sum_aligned(na: bool, p: Wide, nc: bool, q: Wide, e: u64) -> f64
    requires { (0 < p) × (p + q < 2 ^ 128) × (e < 2 ^ 32) }
    ensures { result ≡ sum binary64 na (p * 2 ^ e) nc (q * 2 ^ e) (2 ^ 2272) }
{
    if na == nc {
        return p.plus(q).finish(na, e);
    }
    match p.cmp(&q) {
        Ordering::Less => q.minus(p).finish(nc, e),
        Ordering::Greater => p.minus(q).finish(na, e),
        // equal numbers of opposite signs
        Ordering::Equal => 0.0,
    }
}

// ±a * 2^ea + ±c * 2^ec, over 2^2272, rounded once. na and nc say which are negative.
pub fn sum_wide(na: bool, ea: u64, a: Wide, nc: bool, ec: u64, c: Wide) -> f64
    requires multiplied { Multiplied a × (ea < 2 ^ 32) }
    requires raised { Raised c × (ec < 2 ^ 32) }
    ensures { result ≡ sum binary64 na (a * 2 ^ ea) nc (c * 2 ^ ec) (2 ^ 2272) }
{
    if ea < ec {
        sum_aligned(na, a.shift_jam(ec - ea), nc, c, ec)
    } else {
        sum_aligned(na, a, nc, c.shift_jam(ea - ec), ea)
    }
}

// x * y + z for the sizes of three finite numbers none of which is zero: na says whether x * y is negative, and nc whether z is.
pub fn fused_parts(na: bool, x: Positive, y: Positive, nc: bool, z: Positive) -> f64
    ensures { Fuses na x.bits y.bits nc z.bits result }
{
    let px = parts_of(x);
    let py = parts_of(y);
    let pz = parts_of(z);
    let product = Wide::product(px.m, py.m);
    let addend = Wide { hi: pz.m, lo: 0 };
    sum_wide(na, px.e + py.e, product, nc, pz.e + 1072, addend)
}

// x * y + z, rounded once. Where a factor is infinite or zero, x * y is exact, and x * y + z rounds once. Where only z is zero,
// x * y rounds once, and keeps the sign of a product that rounds to zero, which adding +0 would lose.
#[tactic(auto, using(crate::proofs::FusedCases::by_bits))]
pub fn fused(x: f64, y: f64, z: f64) -> f64
    ensures { result ≡ fused x y z }
{
    if x.is_nan() || y.is_nan() || z.is_nan() {
        return float::nan();
    }
    let bx = x.to_bits();
    let by = y.to_bits();
    let bz = z.to_bits();
    let ax = bx & 0x7fff_ffff_ffff_ffff;
    let ay = by & 0x7fff_ffff_ffff_ffff;
    let az = bz & 0x7fff_ffff_ffff_ffff;
    if ax == 0x7ff0_0000_0000_0000 {
        return float::settled(x * y + z);
    }
    if ay == 0x7ff0_0000_0000_0000 {
        return float::settled(x * y + z);
    }
    if az == 0x7ff0_0000_0000_0000 {
        return z;
    }
    if ax == 0 {
        return x * y + z;
    }
    if ay == 0 {
        return x * y + z;
    }
    if az == 0 {
        return x * y;
    }
    let na = (bx >> 63) != (by >> 63);
    let nc = (bz >> 63) == 1;
    let px = Positive { bits: ax };
    let py = Positive { bits: ay };
    let pz = Positive { bits: az };
    fused_parts(na, px, py, nc, pz)
}
