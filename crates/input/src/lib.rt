// What is read, line by line in a lent buffer, or whole.
#![tactic(auto)]

ghost use Rattle.std.specs.Prelude.{◌+◌, ◌-◌, ◌≤◌, length, IfOk};

use std::io::Read;

// A line from `from` to `end` of the buffer. The input goes on at `behind`, and the buffer holds it up to `to`.
#[derive(Clone, Copy)]
pub struct Line {
    pub from: usize,
    pub end: usize,
    pub behind: usize,
    pub to: usize,
}

// Why there is no line, and the input is left.
#[derive(Clone, Copy)]
pub enum NoLine {
    End,
    Unended,
    Long,
}

// One read: how many bytes it put at the front. A read that fails puts none.
fn read_some<R: Read>(reader: &mut R, buffer: &mut [u8]) -> usize
    ensures { result ≤ length buffer.new }
{
    reader.read(buffer).unwrap_or(0)
}

// What is left comes to the front, and more is read behind it: how many bytes there are then.
// kept: the buffer is the caller's, of any length; what it holds is told beside it.
fn refill<R: Read>(reader: &mut R, buffer: &mut [u8], from: usize, to: usize) -> usize
    requires { (from ≤ to) × (to ≤ length buffer.old) }
    ensures { (to - from ≤ result) × (result ≤ length buffer.new) }
{
    let left = to - from;
    buffer.copy_within(from..to, 0);
    let got = read_some(reader, &mut buffer[left..]);
    left + got
}

// Reads until the buffer is full, the input ends or a read fails: how many bytes stand at the front then.
pub fn read_full<R: Read>(reader: &mut R, buffer: &mut [u8]) -> usize
    ensures { result ≤ length buffer.new }
{
    let mut done: usize = 0;
    // kept: no plainer otherwise. A read gives some of the bytes that are wanted, and none at the end.
    while done < buffer.len() {
        let got = read_some(reader, &mut buffer[done..]);
        if got == 0 {
            return done;
        }
        done += got;
    }
    done
}

// The line that begins at a place, of up to 4,096 bytes. A read that fails counts as the end of the input.
pub fn next_line<R: Read>(
    reader: &mut R,
    buffer: &mut [u8],
    from: usize,
    to: usize,
) -> Result<Line, NoLine>
    requires { (from ≤ to) × (to ≤ length buffer.old) }
    ensures { IfOk result (λ l. (l.from ≤ l.end) × (l.end ≤ l.from + 4096) × (l.end ≤ l.behind) × (l.behind ≤ l.to) × (l.to ≤ length buffer.new)) }
{
    let mut begin = from;
    let mut held = to;
    // kept: no plainer otherwise. The place and what is held change with each read.
    loop {
        let end = text::newline(&buffer[..held], begin);
        if 4096 < end - begin {
            return Err(NoLine::Long);
        }
        if end < held {
            return Ok(Line {
                from: begin,
                end,
                behind: end + 1,
                to: held,
            });
        }
        let left = held - begin;
        held = refill(reader, buffer, begin, held);
        begin = 0;
        if held == 0 {
            return Err(NoLine::End);
        }
        if held == left {
            return Err(NoLine::Unended);
        }
    }
}
