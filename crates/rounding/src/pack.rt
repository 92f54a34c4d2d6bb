// Rounding and packing: from a number of 64 digits and an exponent to an f64, and back.
ghost use Rattle.std.specs.Prelude.{◌≡◌, ◌*◌, ◌^◌, ◌<◌, ◌≤◌, ◌⊎◌, if◌then◌else◌, bit_or, nat_eq};
ghost use Rattle.std.specs.Float.{binary64};
ghost use Rattle.std.specs.Float.Ieee.{units, round};
ghost use Rattle.std.specs.Float.Ieee.Nearest.{closest};
ghost use Rattle.rounding.specs.Near.{Sticky, Pattern, Taken};

// The number a with d bits dropped: the lowest bit kept is set where a bit that was dropped was.
pub fn shift_jam(a: u64, d: u64) -> u64
    ensures { Sticky a (2 ^ d) result }
{
    if d < 64 {
        let q = a >> d;
        if q << d == a { q } else { q | 1 }
    } else {
        if a == 0 { 0 } else { 1 }
    }
}

// hi, with its lowest bit set where lo is not 0.
pub fn jam(hi: u64, lo: u64) -> u64
    ensures { result ≡ (if nat_eq lo 0 then hi else bit_or hi 1) }
{
    if lo == 0 { hi } else { hi | 1 }
}

// t / 2048 to the nearest whole number, a tie to the even one.
pub fn drop_eleven(t: u64) -> u64
    ensures { result ≡ closest t 2048 }
{
    let q = t >> 11;
    let rest = t & 0x7ff;
    if rest < 0x400 {
        q
    } else if rest == 0x400 {
        q + (q & 1)
    } else {
        q + 1
    }
}

// The bits of q * 2^k * 2^-1074, the sign left out.
pub fn magnitude(k: u64, q: u64) -> u64
    requires { (q ≤ 2 ^ 53) × ((k ≡ 0) ⊎ (2 ^ 52 ≤ q)) }
    ensures { Pattern k q result }
{
    if k <= 2045 {
        (k << 52) + q
    } else {
        0x7ff0_0000_0000_0000
    }
}

// The float q * 2^k * 2^-1074 with the sign, or the infinity.
pub fn pack(neg: bool, k: u64, q: u64) -> f64
    requires { (q ≤ 2 ^ 53) × ((k ≡ 0) ⊎ (2 ^ 52 ≤ q)) }
    ensures { result ≡ units binary64 neg q k }
{
    let b = magnitude(k, q);
    if neg {
        f64::from_bits(b + 0x8000_0000_0000_0000)
    } else {
        f64::from_bits(b)
    }
}

// sig * 2^e / 2^2336 with the sign, rounded once. sig has its top bit set.
pub fn round_pack(neg: bool, e: u64, sig: u64) -> f64
    requires { 2 ^ 63 ≤ sig }
    ensures { result ≡ round binary64 neg (sig * 2 ^ e) (2 ^ 2336) }
{
    if e < 1251 {
        pack(neg, 0, drop_eleven(shift_jam(sig, 1251 - e)))
    } else {
        pack(neg, e - 1251, drop_eleven(sig))
    }
}

// The bits of a positive finite float.
#[derive(Clone, Copy)]
pub struct Positive {
    pub bits: u64,
    pub ghost positive: { 0 < bits },
    pub ghost finite: { bits < 0x7ff0_0000_0000_0000 },
}

// A positive float is m * 2^e / 2^1136, with 2^62 <= m < 2^63.
#[derive(Clone, Copy)]
pub struct Parts {
    pub m: u64,
    pub e: u64,
}

#[tactic(auto, using(crate::proofs::Decode::lead_range))]
pub fn parts_of(x: Positive) -> Parts
    ensures { Taken x.bits result.m result.e }
{
    let field = x.bits >> 52;
    let digits = x.bits & 0xf_ffff_ffff_ffff;
    if field == 0 {
        let z = digits.leading_zeros() - 1;
        Parts {
            m: digits << z,
            e: 62 - (z as u64),
        }
    } else {
        Parts {
            m: (digits | 0x10_0000_0000_0000) << 10,
            e: field + 51,
        }
    }
}
