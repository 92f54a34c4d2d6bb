// Lines of test vectors: words parted by a blank each, a float as the 16 hex digits of its bits, and what is expected behind the word `=`.
#![tactic(auto)]

ghost use Rattle.std.specs.Prelude.{◌≤◌, ◌<◌, length, IfOk};
ghost use Rattle.std.specs.Iterator.{at_most};

use std::io;
use std::io::{ErrorKind, Read};

// What a hex digit stands for; its letters are capitals.
fn digit(byte: u8) -> Option<u64> {
    match byte {
        b'0'..=b'9' => Some(u64::from(byte - b'0')),
        b'A'..=b'F' => Some(u64::from(byte - b'A') + 10),
        _ => None,
    }
}

// What stands behind the first byte that is `end` or below it: a blank ends a word, and a newline, which is below it, a word and a line.
pub fn behind(text: &[u8], end: u8) -> &[u8]
    ensures { 0 < length text.now → length result.now < length text.now }
{
    match text.iter().position(|byte| *byte <= end) {
        Some(k) => &text[k + 1..],
        None => &[],
    }
}

// What is left to read of a text.
#[derive(Clone, Copy)]
pub struct Words<'a> {
    rest: &'a [u8],
}

impl<'a> Words<'a> {
    // Whether the text goes on with these bytes.
    pub fn begin_with(self, bytes: &[u8]) -> bool {
        self.rest.starts_with(bytes)
    }

    // What is left behind so many words.
    pub fn skip(self, count: usize) -> Words<'a> {
        let mut rest = self.rest;
        for _ in 0..count {
            rest = behind(rest, b' ');
        }
        Words { rest }
    }

    // The bits of the next float.
    fn bits(self) -> Option<u64> {
        let mut value = 0u64;
        for byte in self.rest.first_chunk::<16>()? {
            value = value << 4 | digit(*byte)?;
        }
        Some(value)
    }

    // The next decimal number, of up to 18 digits; another word, as the `-` of no row, is none.
    pub fn number(self) -> Option<u64> {
        let mut value = None;
        for byte in self.rest {
            if !byte.is_ascii_digit() {
                break;
            }
            let before = value.unwrap_or(0);
            if before >= 100_000_000_000_000_000 {
                return None;
            }
            value = Some(before * 10 + u64::from(*byte - b'0'));
        }
        value
    }

    // Whether these floats are next, bit by bit.
    pub fn are(self, floats: &[f64]) -> bool {
        let mut words = self;
        for x in floats {
            if words.bits() != Some(float::bits_of(*x)) {
                return false;
            }
            words = words.skip(1);
        }
        true
    }

    // Reads floats, as many as stand there and `out` holds. Answers those that it read, and what is left behind the word that follows them,
    // as a `=`.
    pub fn read_floats<'b>(self, out: &'b mut [f64]) -> (&'b mut [f64], Words<'a>)
        ensures { length result.0.now ≤ length out.old }
    {
        let mut words = self;
        let mut count = 0;
        for place in out.iter_mut() {
            let Some(bits) = words.bits() else {
                break;
            };
            *place = float::float_of(bits);
            words = words.skip(1);
            count += 1;
        }
        (&mut out[..count], words.skip(1))
    }
}

// Goes over the lines of a text. Each is given with what follows it.
#[derive(Drop)]
pub struct Lines<'a>(pub &'a [u8]);

impl<'a> Iterator for Lines<'a> {
    type Item = Words<'a>;

    ghost remaining = { λ s. at_most (length s.0.now) };

    fn next(&mut self) -> Option<Words<'a>> {
        let rest = self.0;
        if rest.is_empty() {
            return None;
        }
        self.0 = behind(rest, b'\n');
        Some(Words { rest })
    }
}

// Reads until `bytes` is full or the input ends, and answers how many it put at its start. A read that a signal interrupts is made again.
pub fn read_full(input: &mut impl Read, bytes: &mut [u8]) -> io::Result<usize>
    ensures { IfOk result (λ n. n ≤ length bytes.new) }
{
    let mut done = 0;
    for _ in 0..u64::MAX {
        match input.read(&mut bytes[done..]) {
            Ok(0) => break,
            Ok(n) => done += n,
            Err(error) => {
                if error.kind() != ErrorKind::Interrupted {
                    return Err(error);
                }
            }
        }
    }
    Ok(done)
}

// Writes how many of the lines came out right.
pub fn report(rt: &impl Print, right: u64, lines: u64) -> io::Result<()> {
    println!(rt; "{right} of {lines} right")
}
