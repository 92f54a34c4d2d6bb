// A record's bytes, and what comes of them.
#![tactic(auto)]

ghost use Rattle.std.specs.Prelude.{◌≡◌, ◌+◌, ◌≤◌, ◌<◌, ◌^◌, length};
ghost use Rattle.record.specs.Sizes.{rows_at, most_floats};
ghost use Rattle.record.specs.Bytes.{field, float};
ghost use Rattle.record.specs.Record.{body_length, kind, normalize_byte, mode, task, refusal, answered};

use line::Tolerances;
use once::{Normalize, Task, WarmStart};
use solve::{Outcome, Unsolved};

// ---- sizes, in bytes but for ROWS and FLOATS

// The body's length and the kind.
pub const HEADER: usize = 6;

// The fields of a body of kind 1.
const FIELDS: u64 = 49;

// A row's three floats.
const ROW: u64 = 24;

// The most rows of a record that is solved.
const ROWS: u64 = 2048;

// Where the rows begin: 6 + 49. A record that is held has so many bytes, and the floats of its rows.
pub const ROWS_AT: usize = HEADER + FIELDS as usize;

// The floats of the most rows: 3 * 2048 = 6,144.
pub const FLOATS: usize = 3 * ROWS as usize;

// ---- numbers, the lowest byte first

fn wide(byte: u8) -> u64
    ensures value { result ≡ byte }
    ensures small { result < 256 }
{
    byte as u64
}

fn le16(bytes: &[u8], at: usize) -> u64
    requires { at + 2 ≤ length bytes.now }
    ensures value { result ≡ field 2 at bytes.now }
    ensures small { result < 2 ^ 16 }
{
    let low = wide(bytes[at]);
    let high = wide(bytes[at + 1]);
    low + high * 0x100
}

// A sum of neighbouring bytes, one after the other, of which the compiler makes one load; of two such, in turn, one of eight bytes.
pub fn le32(bytes: &[u8], at: usize) -> u64
    requires { at + 4 ≤ length bytes.now }
    ensures value { result ≡ field 4 at bytes.now }
    ensures small { result < 2 ^ 32 }
{
    let here = &bytes[at..];
    le16(here, 0) + wide(here[2]) * 0x1_0000 + wide(here[3]) * 0x100_0000
}

pub fn le64(bytes: &[u8], at: usize) -> u64
    requires { at + 8 ≤ length bytes.now }
    ensures { result ≡ field 8 at bytes.now }
{
    let here = &bytes[at..];
    le32(here, 0) + le32(here, 4) * 0x1_0000_0000
}

#[tactic(auto, unfolding(crate::specs::Sizes::rows_at, crate::specs::Bytes::float))]
fn float_at(head: &[u8; ROWS_AT], at: usize) -> f64
    requires { at + 8 ≤ rows_at }
    ensures { result ≡ float at head.now }
{
    float::float_of(le64(head, at))
}

// ---- the header

#[tactic(auto, unfolding(crate::specs::Record::body_length))]
pub fn body_length(head: &[u8; ROWS_AT]) -> u64
    ensures value { result ≡ body_length head.now }
    ensures small { result < 2 ^ 32 }
{
    le32(head, 0)
}

// A number: any below 2^16 can stand there, of which one is a kind.
#[tactic(auto, unfolding(crate::specs::Record::kind))]
pub fn kind_of(head: &[u8; ROWS_AT]) -> u64
    ensures { result ≡ kind head.now }
{
    le16(head, 4)
}

fn normalize_byte(head: &[u8; ROWS_AT]) -> u64
    ensures { result ≡ normalize_byte head.now }
{
    wide(head[54])
}

// ---- what comes of a record

// Refusal 9, 10 or 2 by the kind, the body's length and the normalise byte.
pub fn refusal(kind: u64, length: u64, byte: u64) -> Option<rows::Refusal>
    ensures { result ≡ refusal kind length byte }
{
    if kind != 1 {
        return Some(rows::Refusal::UnknownKind);
    }
    if length < FIELDS {
        return Some(rows::Refusal::Malformed);
    }
    let rest = length - FIELDS;
    if rest % ROW != 0 {
        return Some(rows::Refusal::Malformed);
    }
    if byte > 1 {
        return Some(rows::Refusal::Malformed);
    }
    if rest / ROW > ROWS {
        return Some(rows::Refusal::TooMany);
    }
    None
}

// The same, of the record that is held.
fn refusal_of(head: &[u8; ROWS_AT]) -> Option<rows::Refusal>
    ensures { result ≡ refusal (kind head.now) (body_length head.now) (normalize_byte head.now) }
{
    refusal(kind_of(head), body_length(head), normalize_byte(head))
}

fn mode_of(byte: u64) -> Normalize
    ensures { result ≡ mode byte }
{
    if byte == 0 {
        return Normalize::Off;
    }
    Normalize::Source
}

#[tactic(auto, unfolding(crate::specs::Sizes::rows_at))]
fn task_of(head: &[u8; ROWS_AT]) -> Task
    ensures { result ≡ task head.now }
{
    let mode = mode_of(normalize_byte(head));
    Task {
        tol: Tolerances {
            feasibility: float_at(head, 6),
            scale: float_at(head, 14),
        },
        start: WarmStart {
            x: float_at(head, 22),
            y: float_at(head, 30),
            skip: le64(head, 38) as usize,
        },
        normalize: mode,
    }
}

// What comes of the record that is held. A solve leaves its rows in the floats.
pub fn outcome_of(head: &[u8; ROWS_AT], floats: &mut [f64]) -> Outcome
    requires { most_floats ≤ length floats.old }
    ensures answer { result ≡ (answered head.now floats.old).outcome }
    ensures floats { floats.new ≡ (answered head.now floats.old).rows }
{
    if let Some(refusal) = refusal_of(head) {
        return Err(Unsolved::Refused(refusal));
    }
    let n = ((body_length(head) - FIELDS) / 8) as usize;
    solve::solve(&mut floats[..n], task_of(head), le64(head, 46))
}
