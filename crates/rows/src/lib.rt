// Rows: half-planes a*x + b*y <= c that lie flat in a slice, three neighbouring floats each; normalising them, and the 2 by 2 system.
#![tactic(auto)]

ghost use Rattle.std.specs.Prelude.{◌≡◌, true, not, ◌+◌, ◌*◌, ◌/◌, ◌<◌, T, length, set};
ghost use Rattle.std.specs.Float.Ieee.{eq, is_nan};
ghost use Rattle.float.specs.Operators.{◌⊕◌, ◌⊗◌};
ghost use Rattle.rows.specs.Refusals.{number, unless};
ghost use Rattle.rows.specs.Rows.{rows_of, flat_of, row_at, refusal, residual, weight, no_boundary, normalized_by, normalized};
ghost use Rattle.rows.specs.Rows.{normalizing, normalized_flat, singular, crossing};
ghost use Rattle.rows.specs.Kept.{Keeps};

// The most rows, or pairs, that are taken.
pub const MOST_ROWS: usize = 4096;

// a*x + b*y <= c; for `solve_2x2`, a*x + b*y = c.
#[repr(C)]
#[derive(Clone, Copy)]
pub struct Row {
    pub a: f64,
    pub b: f64,
    pub c: f64,
}

#[derive(Clone, Copy)]
pub struct Point {
    pub x: f64,
    pub y: f64,
}

// Why an entry refuses. Each has a number, by which the rules list it, lines print it, and C is told.
#[derive(Clone, Copy, PartialEq, Eq)]
pub enum Refusal {
    // 1: the floats lent do not come out even.
    Uneven,
    // 2: there are more rows, or pairs, than are taken.
    TooMany,
    // 5: the determinant is not finite or within its error bound.
    Undecided,
    // 6: recovery found nothing.
    NothingFound,
    // 7: the prefix is longer than the rows.
    PrefixTooLong,
    // 8: a record is cut by the end of the input.
    Cut,
    // 9: no record has this kind.
    UnknownKind,
    // 10: a record's body has a wrong size, or a number names no mode of normalising.
    Malformed,
}

impl From<Refusal> for u64 {
    ghost from_gives = { λ refusal n. n ≡ number refusal };

    fn from(refusal: Refusal) -> u64 {
        match refusal {
            Refusal::Uneven => 1,
            Refusal::TooMany => 2,
            Refusal::Undecided => 5,
            Refusal::NothingFound => 6,
            Refusal::PrefixTooLong => 7,
            Refusal::Cut => 8,
            Refusal::UnknownKind => 9,
            Refusal::Malformed => 10,
        }
    }
}

// Two squares with their roots: that of the row in hand, and another.
#[derive(Clone, Copy)]
pub struct Kept {
    pub square: f64,
    pub norm: f64,
    pub ahead: f64,
    pub beyond: f64,
}

// How many rows, or pairs, lie in so many floats, of which each takes `width`; refusals 1 and 2.
pub fn count(width: usize, floats: usize) -> Result<usize, Refusal>
    requires { 0 < width }
    ensures { result ≡ unless (refusal width floats) (floats / width) }
{
    if floats % width != 0 {
        return Err(Refusal::Uneven);
    }
    if floats / width > MOST_ROWS {
        return Err(Refusal::TooMany);
    }
    Ok(floats / width)
}

// ---- the only functions that index rows

pub fn row_at(rows: &[f64], k: usize) -> Row
    requires { 3 * k + 2 < length rows.now }
    ensures { result ≡ row_at (rows_of rows.now) k }
{
    let at = 3 * k;
    let at1 = 3 * k + 1;
    let at2 = 3 * k + 2;
    let a = rows[at];
    let b = rows[at1];
    let c = rows[at2];
    Row { a: a, b: b, c: c }
}

pub fn put_row(rows: &mut [f64], k: usize, r: Row)
    requires { 3 * k + 2 < length rows.old }
    ensures stored { rows_of rows.new ≡ set (rows_of rows.old) k r }
    ensures as_long { length rows.new ≡ length rows.old }
{
    let at = 3 * k;
    let at1 = 3 * k + 1;
    let at2 = 3 * k + 2;
    rows[at] = r.a;
    rows[at1] = r.b;
    rows[at2] = r.c;
}

// Row k, or zeros past the end.
pub fn row_or_zeros(rows: &[f64], k: usize) -> Row
    ensures { result ≡ row_at (rows_of rows.now) k }
{
    if k < rows.len() / 3 {
        return row_at(rows, k);
    }
    Row {
        a: 0.0,
        b: 0.0,
        c: 0.0,
    }
}

// ---- a row and a point

pub fn residual(r: Row, p: Point) -> f64
    ensures { result ≡ residual r p }
{
    r.a * p.x + r.b * p.y - r.c
}

// The size of the terms that cancel into a residual.
pub fn weight(r: Row, p: Point) -> f64
    ensures { result ≡ weight r p }
{
    float::abs(r.a * p.x) + float::abs(r.b * p.y) + float::abs(r.c)
}

// A row with no boundary to pin.
pub fn no_boundary(r: Row) -> bool
    ensures { result ≡ no_boundary r }
{
    if float::abs(r.a) < 1e-9 {
        return float::abs(r.b) < 1e-9;
    }
    false
}

// ---- normalising

// The row times the reciprocal of its norm; zeros where the norm is zero or not finite. What it computes is settled.
fn scaled(r: Row, norm: f64) -> Row
    ensures { result ≡ normalized_by norm r }
{
    if norm > 0.0 {
        if float::is_finite(norm) {
            let inverse = 1.0 / norm;
            let a = float::settled(r.a * inverse);
            let b = float::settled(r.b * inverse);
            let c = float::settled(r.c * inverse);
            return Row { a: a, b: b, c: c };
        }
    }
    Row {
        a: 0.0,
        b: 0.0,
        c: 0.0,
    }
}

// The square of a row's norm.
fn square_of(r: Row) -> f64
    ensures { result ≡ (r.a ⊗ r.a ⊕ r.b ⊗ r.b) }
{
    r.a * r.a + r.b * r.b
}

// The next square behind row k whose root takes digits and is not that of this one; 0 where there is none. Which number this
// is decides nothing but which root is taken beside another.
fn following(rows: &[f64], n: usize, k: usize, square: f64) -> f64
    requires { (3 * n ≡ length rows.now) × (k < n) }
{
    for i in k + 1..n {
        let next = square_of(row_at(rows, i));
        if rounding::pair::ordinary(next) && next != square {
            return next;
        }
    }
    0.0
}

// The roots to scale row k with: `norm` is its own, and that of another square was taken beside it. Both are kept until a row
// has neither square: a planner's rows come in pairs of one. So no row is looked at ahead more than once.
fn kept_for(rows: &[f64], n: usize, k: usize, square: f64, kept: Kept) -> Kept
    requires { (3 * n ≡ length rows.now) × (k < n) × T (not (is_nan square)) × Keeps kept }
    ensures { (eq square result.square ≡ true) × Keeps result }
{
    if square == kept.square {
        return kept;
    }
    if square == kept.ahead {
        return Kept {
            square: kept.ahead,
            norm: kept.beyond,
            ahead: kept.square,
            beyond: kept.norm,
        };
    }
    let ahead = following(rows, n, k, square);
    let both = rounding::pair::root_pair(square, ahead);
    Kept {
        square: square,
        norm: both.a,
        ahead: ahead,
        beyond: both.b,
    }
}

// Every row of the slice, n in all.
pub fn normalize(rows: &mut [f64], n: usize)
    requires { 3 * n ≡ length rows.old }
    ensures { rows.new ≡ flat_of (normalized (rows_of rows.old)) }
{
    let mut kept = Kept {
        square: 0.0,
        norm: 0.0,
        ahead: 0.0,
        beyond: 0.0,
    };
    for k in 0..n {
        let r = row_at(rows, k);
        let square = square_of(r);
        if rounding::pair::ordinary(square) {
            kept = kept_for(rows, n, k, square, kept);
            let u = scaled(r, kept.norm);
            put_row(rows, k, u);
        } else {
            let norm = rounding::root::root(square);
            let u = scaled(r, norm);
            put_row(rows, k, u);
        }
    }
}

// Public: normalises the lent rows; a refusal, 1 or 2, leaves them as they were.
pub fn normalize_lp2d(rows: &mut [f64]) -> Result<(), Refusal>
    ensures answer { result ≡ normalizing rows.old }
    ensures lent { rows.new ≡ normalized_flat rows.old }
{
    let n = count(3, rows.len())?;
    normalize(rows, n);
    Ok(())
}

// ---- the 2 by 2 system

// The determinant of the two rows' coefficients is not finite, or not above its error bound.
pub fn singular(r: Row, s: Row) -> bool
    ensures { result ≡ singular r s }
{
    let p = r.a * s.b;
    let q = r.b * s.a;
    let d = p - q;
    if float::is_finite(d) {
        return float::abs(d) <= 3.330_669_073_875_47e-16 * (float::abs(p) + float::abs(q));
    }
    true
}

// Public: the point on both boundaries; refusal 5 where the determinant does not decide one.
pub fn solve_2x2(r: Row, s: Row) -> Result<Point, Refusal>
    ensures { result ≡ crossing r s }
{
    if singular(r, s) {
        return Err(Refusal::Undecided);
    }
    let inverse = 1.0 / (r.a * s.b - r.b * s.a);
    let x = float::settled((r.c * s.b - r.b * s.c) * inverse);
    let y = float::settled((r.a * s.c - r.c * s.a) * inverse);
    Ok(Point { x: x, y: y })
}
