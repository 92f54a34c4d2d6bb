// Portions fed to a link, from standard input, and what must be taken of each. Standard input has sections: how many portions
// there are, and how many bytes; for each portion how many bytes are offered and how many must be taken; the bytes. All numbers
// have four bytes, the lowest first. What is not taken of a portion is offered again with the next.
//
// Prints the lines of each section, and then how many portions there were, and of how many other bytes were taken.
#![tactic(auto)]

ghost use Rattle.std.specs.Prelude.{◌≤◌, ◌<◌, ◌^◌, length, IfOk};

use link::Fed;
use reader::Link;
use std::io;

// The number at a place; 0 where the input ends before.
fn number_at(input: &[u8], at: usize) -> usize
    ensures { result < 2 ^ 32 }
{
    match input.get(at..).and_then(|rest| rest.first_chunk()) {
        Some(bytes) => u32::from_le_bytes(*bytes) as usize,
        None => 0,
    }
}

// Offers bytes, and prints the line of a record that ended.
fn offer(
    rt: &impl Print,
    link: Link,
    head: &mut [u8; record::ROWS_AT],
    rows: &mut [f64; record::FLOATS],
    bytes: &[u8],
) -> io::Result<Fed>
    ensures { IfOk result (λ fed. fed.taken ≤ length bytes.now) }
{
    let mut line = [0u8; link::LINE];
    let fed = link::feed(link, head, rows, bytes, &mut line);
    rt.write_all(&line[..fed.printed])?;
    Ok(fed)
}

// Tells the end, and prints the last lines.
fn print_end(rt: &impl Print, link: Link, head: &[u8; record::ROWS_AT]) -> io::Result<()> {
    let mut line = [0u8; link::LINE];
    let last = link::end(link, head, &mut line);
    rt.write_all(&line[..last.printed])
}

// The section that the input begins with. Answers what is behind it.
fn run_section<'a>(rt: &impl Print, input: &'a [u8]) -> io::Result<&'a [u8]>
    requires input_len_bound { length input.now ≤ 65536 }
    requires some_input { 0 < length input.now }
    ensures { IfOk result (λ rest. length rest.now < length input.now) }
{
    let mut head = [0u8; record::ROWS_AT];
    let mut rows = [0.0; record::FLOATS];
    let portions = number_at(input, 0);
    let begin = 8 + 8 * portions;
    let end = input.len().min(begin + number_at(input, 4));
    let mut link = link::start(reader::MOST_BYTES);
    let mut from = begin.min(end);
    let mut otherwise = 0usize;
    for k in 0..portions {
        let place = 8 + 8 * k;
        let to = end.min(from + number_at(input, place));
        let fed = offer(rt, link, &mut head, &mut rows, &input[from..to])?;
        if fed.taken != number_at(input, place + 4) {
            otherwise += 1;
        }
        link = fed.link;
        from += fed.taken;
    }
    print_end(rt, link, &head)?;
    println!(rt; "{portions} portions, {otherwise} taken otherwise")?;
    Ok(&input[end..])
}

fn main(rt: HostRuntime) -> io::Result<()> {
    let mut input = [0u8; 65536];
    let n = vectors::read_full(&mut rt.stdin(), &mut input)?;
    let mut rest = &input[..n];
    while !rest.is_empty() {
        rest = run_section(&rt, rest)?;
    }
    Ok(())
}
