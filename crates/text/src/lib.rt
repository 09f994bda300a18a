// The reader of program texts: bytes to integers, integers to rows, and where a line ends.
#![tactic(auto)]

ghost use Rattle.std.specs.Prelude.{◌≡◌, false, ◌≢◌, ℕ, ◌+◌, ◌<◌, ◌≤◌, min, length, get_or};
ghost use Rattle.lists.specs.Lists.{same};
ghost use Rattle.model.specs.Text.{names};
ghost use Rattle.text.specs.Reading.{Counted, int_at, row_line, line_of, Ends};

use model::Row;

// A number read off a text, and the place after it.
#[derive(Clone, Copy)]
pub struct Digits {
    pub value: u32,
    pub next: usize,
}

// A number from 1 on with no leading zero; 65,536 stands for every larger one.
#[tactic(auto, using(crate::proofs::Numbers::count_laws))]
fn counting(s: &[u8], from: usize) -> Option<Digits>
    requires { from ≤ length s.now }
    ensures { Counted s.now from result }
{
    let first = *s.get(from)?;
    if first < b'1' || b'9' < first {
        return None;
    }
    let mut value = u32::from(first - b'0');
    for at in from + 1..s.len() {
        let d = s[at];
        if !d.is_ascii_digit() {
            return Some(Digits { value, next: at });
        }
        value = (value * 10 + u32::from(d - b'0')).min(65_536);
    }
    Some(Digits {
        value,
        next: s.len(),
    })
}

// "An integer has no plus sign, no leading zero, no minus zero": held 9 higher.
#[tactic(auto, using(crate::proofs::Integers::int_laws))]
pub fn read_int(s: &[u8], at: usize) -> Option<Digits>
    ensures { result ≡ int_at s.now at }
{
    match *s.get(at)? {
        b'0' => Some(Digits {
            value: 9,
            next: at + 1,
        }),
        b'-' => {
            let d = counting(s, at + 1)?;
            if 9 < d.value {
                return None;
            }
            Some(Digits {
                value: 9 - d.value,
                ..d
            })
        }
        _ => {
            let d = counting(s, at)?;
            if 65535 < d.value {
                return None;
            }
            Some(Digits {
                value: d.value + 9,
                ..d
            })
        }
    }
}

// "p runs 0 to 255; the others 0 to 65,535, but i, a, b from -9": the row that eight numbers are, each 9 higher.
#[tactic(auto, using(crate::proofs::Cells::row_laws))]
fn row_of(v: [u32; 8]) -> Option<Row>
    ensures { result ≡ row_line v }
{
    let [set, rule, part, op, i, p, a, b] = v;
    if 264 < p {
        return None;
    }
    Some(Row {
        set: set.checked_sub(9)?,
        rule: rule.checked_sub(9)?,
        part: part.checked_sub(9)?,
        op: op.checked_sub(9)?,
        i,
        p: p.checked_sub(9)?,
        a,
        b,
    })
}

// "lines of eight integers in that order, one space between"
#[tactic(auto, using(crate::proofs::Columns::line_laws))]
pub fn read_row(line: &[u8]) -> Option<Row>
    ensures { result ≡ line_of line.now }
{
    let mut v = [0u32; 8];
    let mut at: usize = 0;
    for k in 0..7 {
        let d = read_int(line, at)?;
        if line.len() <= d.next || line[d.next] != b' ' {
            return None;
        }
        v[k] = d.value;
        at = d.next + 1;
    }
    let d = read_int(line, at)?;
    if d.next != line.len() {
        return None;
    }
    v[7] = d.value;
    row_of(v)
}

// From a place on, past eights without byte 10.
fn pass_eights(text: &[u8], from: usize) -> usize
    requires { from ≤ length text.now }
    ensures { (from ≤ result) × (result ≤ length text.now) × ((k : ℕ) → from ≤ k → k < result → get_or text.now k 0 ≢ 10) }
{
    // kept: tried, and for the 512 lines of load_max `position` takes 7.4 µs, a `for` by bytes 8.7 µs, eights 3.4 µs
    let mut i = from;
    while 8 <= text.len() - i && !text[i..i + 8].contains(&b'\n') {
        i += 8;
    }
    i
}

// "each line ended by byte 10": the place of the first byte 10 from a place on, or the text's length.
#[tactic(auto, using(crate::proofs::Ends::ends_at))]
pub fn newline(text: &[u8], from: usize) -> usize
    requires { from ≤ length text.now }
    ensures { Ends text.now from result }
{
    for i in pass_eights(text, from)..text.len() {
        if text[i] == b'\n' {
            return i;
        }
    }
    text.len()
}

// "A line of names, `set rule part op i p a b`"
pub fn is_names(line: &[u8]) -> bool
    ensures { result ≡ same line.now names }
{
    line == b"set rule part op i p a b".as_slice()
}
