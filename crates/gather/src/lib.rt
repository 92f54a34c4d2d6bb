// Bytes of rows, cut anywhere, gathered into floats: whole ones are stored, and what is begun of one is a word.
#![tactic(auto)]

ghost use Rattle.std.specs.Prelude.{◌≡◌, ℕ, ◌+◌, ◌*◌, ◌≤◌, length};
ghost use Rattle.record.specs.Sizes.{most_floats};
ghost use Rattle.record.specs.Bytes.{floats as floatsOf};
ghost use Rattle.gather.specs.Gather.{pushed, word_all, rows_all};

// ---- bytes behind `before` others

fn push(before: usize, word: u64, byte: u8) -> u64
    ensures { result ≡ pushed before word byte }
{
    let top = byte as u64 * 0x100_0000_0000_0000;
    if before % 8 == 0 {
        return top;
    }
    word / 256 + top
}

// One by one.
fn push_bytes(word: u64, rows: &mut [f64], before: usize, bytes: &[u8]) -> u64
    requires bytes_bound { before + length bytes.now ≤ 8 * length rows.old }
    requires rows_len_bound { length rows.old ≤ most_floats }
    ensures word { result ≡ word_all before word bytes.now }
    ensures rows { rows.new ≡ rows_all before word rows.old bytes.now }
{
    let mut now = word;
    for (i, byte) in bytes.iter().enumerate() {
        now = push(before + i, now, *byte);
        if (before + i) % 8 == 7 {
            rows[(before + i) / 8] = float::float_of(now);
        }
    }
    now
}

// Eight by eight: floats, and no byte more.
fn read_floats(floats: &mut [f64], bytes: &[u8])
    requires { length bytes.now ≡ 8 * length floats.old }
    ensures { floats.new ≡ floatsOf (length floats.old) bytes.now }
{
    for (i, place) in floats.iter_mut().enumerate() {
        *place = float::float_of(record::le64(bytes, 8 * i));
    }
}

// The word behind n floats: the last of them.
fn last_of(word: u64, bytes: &[u8], n: usize) -> u64
    requires { length bytes.now ≡ 8 * n }
    ensures { (at : ℕ) → result ≡ word_all (8 * at) word bytes.now }
{
    if n == 0 {
        return word;
    }
    record::le64(bytes, 8 * (n - 1))
}

// Up to a float's end, then whole floats, then what is begun of one.
pub fn push_rows(word: u64, rows: &mut [f64], before: usize, bytes: &[u8]) -> u64
    requires bytes_bound { before + length bytes.now ≤ 8 * length rows.old }
    requires rows_len_bound { length rows.old ≤ most_floats }
    ensures word { result ≡ word_all before word bytes.now }
    ensures rows { rows.new ≡ rows_all before word rows.old bytes.now }
{
    let first = ((8 - before % 8) % 8).min(bytes.len());
    let n = (bytes.len() - first) / 8;
    let last = first + 8 * n;
    let begun = push_bytes(word, rows, before, &bytes[..first]);
    let at = (before + first) / 8;
    let end = at + n;
    read_floats(&mut rows[at..end], &bytes[first..last]);
    let now = last_of(begun, &bytes[first..last], n);
    push_bytes(now, rows, before + last, &bytes[last..])
}
