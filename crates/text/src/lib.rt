// The lines that rowrun prints. A function here puts its text into `out` from `at` on, and answers where the text ends.
#![tactic(auto)]

ghost use Rattle.std.specs.Prelude.{◌≡◌, ◌+◌, ◌*◌, ◌/◌, ◌^◌, ◌≤◌, ◌<◌, length, drop};
ghost use Rattle.text.specs.Sizes.{longest_decimal, longest_number, longest_float, longest_answer, longest_refusal, longest_outcome, longest_line, longest_end};
ghost use Rattle.text.specs.Text.{written, decimal, hex};
ghost use Rattle.text.specs.Text.{glyph as Text·glyph};
ghost use Rattle.text.specs.Lines.{number_word, float_word, slot_word, answer_words, refusal_words, outcome_words, outcome_line, end_line};

use solve::{Answer, Outcome};

// The decimal digits of a number below 2^64, at most.
const DIGITS: usize = 20;

// The longest line, 124 bytes: a number; ` point` with two floats of 17 bytes; two rows and a count, each behind a blank; and the newline.
pub const LONGEST_LINE: usize = DIGITS + 6 + 2 * 17 + 3 * (1 + DIGITS) + 1;

// The closing line, 25 bytes: `end`, a count behind a blank, and the newline.
pub const LONGEST_END: usize = 3 + (1 + DIGITS) + 1;

// ---- text

pub fn put(out: &mut [u8], at: usize, text: &[u8]) -> usize
    requires { at + length text.now ≤ length out.old }
    ensures end { result ≡ at + length text.now }
    ensures out { out.new ≡ written out.old at text.now }
{
    // Byte by byte: `copy_from_slice` is built as a call of C's `memmove`, which the library asks nobody for.
    for (i, byte) in text.iter().enumerate() {
        out[at + i] = *byte;
    }
    at + text.len()
}

fn glyph(d: u64) -> u8
    requires { d < 16 }
    ensures { result ≡ Text·glyph d }
{
    if d < 10 { 48 + d as u8 } else { 55 + d as u8 }
}

fn put_hex(out: &mut [u8], at: usize, n: u64) -> usize
    requires { at + 16 ≤ length out.old }
    ensures end { result ≡ at + length (hex n) }
    ensures out { out.new ≡ written out.old at (hex n) }
{
    let mut rest = n;
    for i in 0..16 {
        out[at + i] = glyph(rest / 0x1000_0000_0000_0000);
        rest = rest % 0x1000_0000_0000_0000 * 16;
    }
    at + 16
}

// A tenth of a number of two halves of 32 bits each, rounded down. Where the upper half is 10 * p + r and the lower 10 * q + s, the number is
// 10 * (p * 2^32 + r * 429,496,729 + q) + 6 * r + s, since 2^32 is 10 * 429,496,729 + 6.
fn tenth_of_halves(high: u32, low: u32) -> u64
    ensures { result ≡ (high * 2 ^ 32 + low) / 10 }
{
    let r = high % 10;
    let carried = (6 * r + low % 10) / 10;
    (((high / 10) as u64) << 32) + r as u64 * 429_496_729 + (low / 10) as u64 + carried as u64
}

// A tenth of n, rounded down. A board that divides 64 bits in software would call a routine for n / 10; numbers of 32 bits it divides by itself.
fn tenth(n: u64) -> u64
    ensures { result ≡ n / 10 }
{
    let low = (n & 0xffff_ffff) as u32;
    if n <= 0xffff_ffff {
        return (low / 10) as u64;
    }
    tenth_of_halves((n >> 32) as u32, low)
}

// Puts the decimal digits of n at the end of `digits`, and answers where they begin. (A `for` over the places, from the last to the
// first, would be no plainer: it would need an answer for n with more digits than places, which never comes.)
fn spell(n: u64, digits: &mut [u8]) -> usize
    requires { length digits.old ≡ longest_decimal }
    ensures begin { result < longest_decimal }
    ensures digits { drop result digits.new ≡ decimal n }
{
    let mut rest = n;
    let mut at = DIGITS - 1;
    // No `for`: it ends where the number does, and the places go down.
    while rest > 9 {
        let next = tenth(rest);
        digits[at] = 48 + (rest - 10 * next) as u8;
        rest = next;
        at -= 1;
    }
    digits[at] = 48 + rest as u8;
    at
}

#[tactic(auto, unfolding(crate::specs::Sizes::longest_decimal))]
fn put_decimal(out: &mut [u8], at: usize, n: u64) -> usize
    requires { at + longest_decimal ≤ length out.old }
    ensures end { result ≡ at + length (decimal n) }
    ensures out { out.new ≡ written out.old at (decimal n) }
{
    let mut digits = [0u8; DIGITS];
    let room: &mut [u8] = &mut digits;
    let begin = spell(n, room);
    let spelled = &room[..];
    put(out, at, &spelled[begin..])
}

// ---- words, each with the blank before it

#[tactic(auto, unfolding(crate::specs::Sizes::longest_number))]
fn put_number(out: &mut [u8], at: usize, n: u64) -> usize
    requires { at + longest_number ≤ length out.old }
    ensures end { result ≡ at + length (number_word n) }
    ensures out { out.new ≡ written out.old at (number_word n) }
{
    let digits = put(out, at, b" ");
    put_decimal(out, digits, n)
}

#[tactic(auto, unfolding(crate::specs::Sizes::longest_float))]
fn put_float(out: &mut [u8], at: usize, x: f64) -> usize
    requires { at + longest_float ≤ length out.old }
    ensures end { result ≡ at + length (float_word x) }
    ensures out { out.new ≡ written out.old at (float_word x) }
{
    let digits = put(out, at, b" ");
    put_hex(out, digits, float::bits_of(x))
}

#[tactic(auto, unfolding(crate::specs::Sizes::longest_number, crate::specs::Lines::slot_word))]
fn put_slot(out: &mut [u8], at: usize, slot: Option<usize>) -> usize
    requires { at + longest_number ≤ length out.old }
    ensures end { result ≡ at + length (slot_word slot) }
    ensures out { out.new ≡ written out.old at (slot_word slot) }
{
    match slot {
        None => put(out, at, b" -"),
        Some(k) => put_number(out, at, k as u64),
    }
}

#[tactic(auto, unfolding(crate::specs::Sizes::longest_answer))]
fn put_answer(out: &mut [u8], at: usize, a: Answer) -> usize
    requires { at + longest_answer ≤ length out.old }
    ensures end { result ≡ at + length (answer_words a) }
    ensures out { out.new ≡ written out.old at (answer_words a) }
{
    match a {
        Answer::Point(x, y) => {
            let word = put(out, at, b" point");
            let first = put_float(out, word, x);
            put_float(out, first, y)
        }
        Answer::Level(y) => {
            let word = put(out, at, b" level");
            put_float(out, word, y)
        }
        Answer::Across(x) => {
            let word = put(out, at, b" across");
            put_float(out, word, x)
        }
        Answer::Nothing => put(out, at, b" nothing"),
    }
}

#[tactic(auto, unfolding(crate::specs::Sizes::longest_refusal))]
fn put_refusal(out: &mut [u8], at: usize, k: u64) -> usize
    requires { at + longest_refusal ≤ length out.old }
    ensures end { result ≡ at + length (refusal_words k) }
    ensures out { out.new ≡ written out.old at (refusal_words k) }
{
    let word = put(out, at, b" refused");
    put_number(out, word, k)
}

#[tactic(auto, unfolding(crate::specs::Lines::outcome_words, crate::specs::Sizes::longest_outcome, crate::specs::Sizes::longest_refusal))]
fn put_outcome(out: &mut [u8], at: usize, got: Outcome) -> usize
    requires { at + longest_outcome ≤ length out.old }
    ensures end { result ≡ at + length (outcome_words got) }
    ensures out { out.new ≡ written out.old at (outcome_words got) }
{
    match got {
        Err(why) => put_refusal(out, at, u64::from(why)),
        Ok(solved) => {
            let words = put_answer(out, at, solved.answer);
            let first = put_slot(out, words, solved.active.first);
            let second = put_slot(out, first, solved.active.second);
            put_number(out, second, solved.count)
        }
    }
}

// ---- lines

#[tactic(auto, unfolding(crate::specs::Sizes::longest_line))]
pub fn put_line(out: &mut [u8], at: usize, number: u64, got: Outcome) -> usize
    requires { at + longest_line ≤ length out.old }
    ensures end { result ≡ at + length (outcome_line number got) }
    ensures out { out.new ≡ written out.old at (outcome_line number got) }
{
    let begun = put_decimal(out, at, number);
    let words = put_outcome(out, begun, got);
    put(out, words, b"\n")
}

#[tactic(auto, unfolding(crate::specs::Sizes::longest_end))]
pub fn put_end(out: &mut [u8], at: usize, lines: u64) -> usize
    requires { at + longest_end ≤ length out.old }
    ensures end { result ≡ at + length (end_line lines) }
    ensures out { out.new ≡ written out.old at (end_line lines) }
{
    let word = put(out, at, b"end");
    let number = put_number(out, word, lines);
    put(out, number, b"\n")
}
