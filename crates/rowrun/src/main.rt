// Records from standard input, and a line for each to standard output. The line `end` is the sign that the input was read whole
// and everything written: a read or a write that fails is said on standard error, and then there is none.
#![tactic(auto)]

ghost use Rattle.std.specs.Prelude.{◌≡◌, true, ◌≤◌, length, IfSome, IfOk, OnOk};
ghost use Rattle.std.specs.Io.KnownBytes.{Appends, ReadConsumes, WriteAppends};
ghost use Rattle.text.specs.Sizes.{longest_line};
ghost use Rattle.portions.specs.Stream.{output};
ghost use Rattle.reader.specs.Reader.{state, most_bytes, started, listening, after_all, texts, end_text};

use reader::Link;
use std::fmt::InlineText;
use std::io::{ErrorKind, Read, Write};
use std::{io, thread};

// More than there can be reads before the bytes that count are read, and more than anybody waits for.
const MOST_TRIES: u64 = 0x8000_0000_0000_0000;

// Whether a call that failed is to be made again: a signal came in between, or the other side has nothing yet, or no room yet, and
// then others go first.
fn is_passing(error: io::Error) -> bool {
    let kind = error.kind();
    if kind == ErrorKind::WouldBlock {
        thread::yield_now();
        return true;
    }
    kind == ErrorKind::Interrupted
}

fn no_end() -> io::Error {
    io::Error::new(ErrorKind::TimedOut, "gave up after 2^63 tries")
}

// As many bytes as are there now, and none at the end of the input. (This and `write_some` differ in their call. One function over a
// closure was tried, and its proof did not close: what the closure's failed calls keep of the reader or the writer stayed open.)
fn read_some<R: Read>(source: &mut R, input: &mut [u8]) -> io::Result<usize>
    ensures bound { IfOk result (λ n. n ≤ length input.new) }
    ensures length { length input.new ≡ length input.old }
    ensures bytes { ReadConsumes (R.remaining source.old) (R.remaining source.new) result input.new }
{
    for _ in 0..MOST_TRIES {
        match source.read(input) {
            Err(error) if is_passing(error) => {}
            outcome => return outcome,
        }
    }
    Err(no_end())
}

// How many bytes of the text could be written now.
fn write_some<W: Write>(sink: &mut W, text: &[u8]) -> io::Result<usize>
    ensures bound { IfOk result (λ n. n ≤ length text.now) }
    ensures bytes { WriteAppends (W.contents sink.old) (W.contents sink.new) result text.now }
{
    for _ in 0..MOST_TRIES {
        match sink.write(text) {
            Err(error) if is_passing(error) => {}
            outcome => return outcome,
        }
    }
    Err(no_end())
}

// All of the text. A write that takes no byte has failed.
fn write_whole<W: Write>(sink: &mut W, text: &[u8]) -> io::Result<()>
    ensures { OnOk result (Appends (W.contents sink.old) (W.contents sink.new) text.now) }
{
    let mut done = 0;
    // No `for`, here and in `print_portion`: a turn steps by what a call took.
    while done < text.len() {
        let put = write_some(sink, &text[done..])?;
        if put == 0 {
            return Err(io::Error::new(ErrorKind::WriteZero, "no byte could be written"));
        }
        done += put;
    }
    Ok(())
}

// The lines of a portion, written where there is no room for another, and at the portion's end: whoever waits for an answer
// before sending more has it. The link goes on also where a write fails.
fn print_portion<W: Write>(
    sink: &mut W,
    link: &mut Link,
    head: &mut [u8; record::ROWS_AT],
    rows: &mut [f64; record::FLOATS],
    bytes: &[u8],
    out: &mut [u8],
) -> io::Result<()>
    requires head_value { listening link.old head.old ≡ true }
    requires longest_line_in_bounds { longest_line ≤ length out.old }
    ensures listens { listening link.new head.new ≡ true }
    ensures all { OnOk result
        (state link.new head.new rows.new ≡ after_all (state link.old head.old rows.old) bytes.now) }
    ensures printed { OnOk result
        (Appends (W.contents sink.old) (W.contents sink.new) (texts (state link.old head.old rows.old) bytes.now)) }
{
    let mut from = 0;
    while from < bytes.len() {
        let fed = link::fill(*link, head, rows, &bytes[from..], out);
        *link = fed.link;
        from += fed.taken;
        write_whole(sink, &out[..fed.printed])?;
    }
    Ok(())
}

// A link that has seen nothing: all bytes count that may.
fn opened() -> Link
    ensures { result ≡ started most_bytes }
{
    link::start(reader::MOST_BYTES)
}

// The last lines.
fn print_end<W: Write>(sink: &mut W, link: Link, head: &[u8; record::ROWS_AT]) -> io::Result<()>
    ensures { OnOk result (Appends (W.contents sink.old) (W.contents sink.new) (end_text link head.now)) }
{
    let mut last = [0u8; link::LINE];
    let fed = link::end(link, head, &mut last);
    write_whole(sink, &last[..fed.printed])
}

// Why there is no line `end`.
#[derive(Clone, Copy)]
enum Failure {
    Read(io::Error),
    Write(io::Error),
}

// All lines, of all portions as they come: of a source and a sink of known bytes, those that are defined for the input as a whole.
fn run<R: Read, W: Write>(source: &mut R, sink: &mut W) -> Result<(), Failure>
    ensures { OnOk result (IfSome (R.remaining source.old)
        (λ input. Appends (W.contents sink.old) (W.contents sink.new) (output most_bytes input))) }
{
    let mut head = [0u8; record::ROWS_AT];
    let mut rows = [0.0; record::FLOATS];
    let mut input = [0u8; 131072];
    let mut out = [0u8; 65536];
    let mut link = opened();
    for _ in 0..MOST_TRIES {
        let n = read_some(source, &mut input).map_err(Failure::Read)?;
        if n == 0 {
            break;
        }
        let written = print_portion(sink, &mut link, &mut head, &mut rows, &input[..n], &mut out);
        written.map_err(Failure::Write)?;
    }
    print_end(sink, link, &head).map_err(Failure::Write)
}

// Says what failed, in the system's words: std's without the number behind them.
fn complain(rt: &impl Eprint, stream: &str, error: io::Error) {
    let said = InlineText::<256>::of(error);
    let all = said.as_str();
    let words = all
        .split_once(" (os error ")
        .map_or(all, |(words, _)| words);
    let _ = eprintln!(rt; "rowrun: {stream}: {words}");
}

fn main(rt: HostRuntime) {
    match run(&mut rt.stdin(), &mut rt.stdout()) {
        Ok(()) => {}
        Err(Failure::Read(error)) => complain(&rt, "standard input", error),
        Err(Failure::Write(error)) => complain(&rt, "standard output", error),
    }
}
