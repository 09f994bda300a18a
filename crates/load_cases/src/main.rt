// Texts, whole and damaged, and what a load answers to each: a line `case number line rows atoms`.
#![tactic(auto)]

use arrayvec::ArrayVec;
use itoa::Buffer;
use state::Config;
use std::io;

type Text = ArrayVec<u8, 16384>;

// Puts the piece behind a text, as far as there is room.
fn append(text: &mut Text, piece: &[u8]) {
    for byte in piece {
        if text.try_push(*byte).is_err() {
            return;
        }
    }
}

fn append_number(text: &mut Text, x: u64) {
    let mut digits = Buffer::new();
    append(text, digits.format(x).as_bytes());
}

fn append_times(text: &mut Text, times: u64, piece: &[u8]) {
    for _ in 0..times {
        append(text, piece);
    }
}

// A rule of one reason.
fn append_rule(text: &mut Text, set: u64, rule: u64) {
    append_number(text, set);
    append(text, b" ");
    append_number(text, rule);
    append(text, b" 1 1 -1 1 -2 -3\n");
}

// Sets from 1 on, each with rules from 1 on.
fn append_sets(text: &mut Text, sets: u64, rules: u64) {
    for set in 0..sets {
        for rule in 0..rules {
            append_rule(text, set + 1, rule + 1);
        }
    }
}

fn say(rt: &impl Print, x: u64, after: &str) -> io::Result<()> {
    print!(rt; "{x}{after}")
}

// A text as it stands.
fn whole(rt: &impl Print, case: u64, text: &[u8]) -> io::Result<()> {
    let mut program = [0u32; 4096];
    let mut config = Config::fresh();
    let loaded = loading::load(text, &mut program, &mut config);
    say(rt, case, " ")?;
    match loaded {
        Ok(rows) => {
            print!(rt; "0 0 ")?;
            say(rt, rows as u64, " ")?;
        }
        Err(error) => {
            say(rt, error.refusal.number() as u64, " ")?;
            say(rt, error.line as u64, " 0 ")?;
        }
    }
    say(rt, config.scalars.atoms as u64, "\n")
}

// The names line, then these rows: the first row is line 2.
fn rows(rt: &impl Print, case: u64, lines: &[u8]) -> io::Result<()> {
    many(rt, case, lines, 0, b"", b"")
}

// The names line, then rows, some of them many times.
fn many(
    rt: &impl Print,
    case: u64,
    before: &[u8],
    times: u64,
    piece: &[u8],
    after: &[u8],
) -> io::Result<()> {
    let mut text = Text::new();
    append(&mut text, b"set rule part op i p a b\n");
    append(&mut text, before);
    append_times(&mut text, times, piece);
    append(&mut text, after);
    whole(rt, case, text.as_slice())
}

// The names line, rows of set 0, then sets of rules of one reason each.
fn sets(
    rt: &impl Print,
    case: u64,
    before: &[u8],
    times: u64,
    piece: &[u8],
    sets: u64,
    rules: u64,
) -> io::Result<()> {
    let mut text = Text::new();
    append(&mut text, b"set rule part op i p a b\n");
    append(&mut text, before);
    append_times(&mut text, times, piece);
    append_sets(&mut text, sets, rules);
    whole(rt, case, text.as_slice())
}

// The names line: the very bytes, ended by byte 10.
fn names_line(rt: &impl Print) -> io::Result<()> {
    whole(rt, 1, b"")?;
    whole(rt, 2, b"set rule part op i p a b")?;
    whole(rt, 3, b"\n")?;
    whole(rt, 4, b"set rule part op i p a b\n")?;
    whole(rt, 5, b"Set rule part op i p a b\n")?;
    whole(rt, 6, b"set rule part op i p a b \n")?;
    whole(
        rt,
        7,
        b"set rule part op i p a b\x0d\n0 0 0 41 0 1 0 0\x0d\n",
    )
}

// Each line is ended by byte 10, and holds eight integers with one space between.
fn lines(rt: &impl Print) -> io::Result<()> {
    rows(rt, 8, b"0 0 0 41 0 1 0 0")?;
    rows(rt, 9, b"0 0 0 41 0 1 0 0\n")?;
    rows(rt, 10, b"0 0 0 41 0 1 0 0\n0 0 0 41 0 1 0 0")?;
    rows(rt, 11, b"0 0 0 41 0 1 0 0\x0d\n")?;
    rows(rt, 12, b"0 0 0 41 0 1 0 0\n\n")?;
    rows(rt, 13, b"0 0 0 41  0 1 0 0\n")?;
    rows(rt, 14, b"0 0 0\x0941 0 1 0 0\n")?;
    rows(rt, 15, b" 0 0 0 41 0 1 0 0\n")?;
    rows(rt, 16, b"0 0 0 41 0 1 0 0 \n")?;
    rows(rt, 17, b"0 0 0 41 0 1 0\n")?;
    rows(rt, 18, b"0 0 0 41 0 1 0 0 0\n")?;
    rows(rt, 19, b"1 1 2 3 -1 0 -9 -9\nx\n")
}

// An integer has no plus sign, no leading zero, no minus zero.
fn integers(rt: &impl Print) -> io::Result<()> {
    rows(rt, 20, b"0 0 0 41 -0 1 0 0\n")?;
    rows(rt, 21, b"0 0 0 41 0 +1 0 0\n")?;
    rows(rt, 22, b"0 0 0 41 0 01 0 0\n")?;
    rows(rt, 23, b"0 0 0 41 - 1 0 0\n")?;
    rows(rt, 24, b"0 0 0 41 0 1 0 x\n")?;
    rows(rt, 25, b"0 0 0 41 0 1 99999999999999999999999 0\n")
}

// "p runs 0 to 255; the others 0 to 65,535, but i, a, b from -9; outside that is 2": before anything else on the line.
fn ranges(rt: &impl Print) -> io::Result<()> {
    rows(rt, 26, b"9 1 1 1 -1 256 0 0\n")?;
    rows(rt, 27, b"1 1 1 99 -1 1 0 65536\n")?;
    rows(rt, 28, b"1 1 1 99 -1 1 0 65535\n")?;
    rows(rt, 29, b"-1 1 1 1 -1 1 0 0\n")?;
    rows(rt, 30, b"1 1 1 1 -1 -1 0 0\n")?;
    rows(rt, 31, b"1 1 1 1 -9 1 -9 -9\n")?;
    rows(rt, 32, b"1 1 1 1 -10 1 -9 -9\n")?;
    rows(rt, 33, b"1 1 1 1 65535 255 65535 65535\n")?;
    rows(rt, 34, b"1 1 1 1 65536 255 65535 65535\n")?;
    rows(rt, 35, b"65536 1 1 1 -1 1 0 0\n")
}

// "Sets 1 to 8, rules 1 to 32 in a set": 5.
fn limits_of_sets_and_rules(rt: &impl Print) -> io::Result<()> {
    rows(rt, 36, b"9 1 1 1 -1 255 0 0\n")?;
    rows(rt, 37, b"0 33 0 41 0 1 0 0\n")?;
    sets(rt, 38, b"", 0, b"0 0 0 41 0 1 0 0\n", 7, 1)?;
    sets(rt, 39, b"", 0, b"0 0 0 41 0 1 0 0\n", 8, 1)?;
    sets(rt, 40, b"", 0, b"0 0 0 41 0 1 0 0\n", 9, 1)?;
    sets(rt, 41, b"", 0, b"0 0 0 41 0 1 0 0\n", 1, 31)?;
    sets(rt, 42, b"", 0, b"0 0 0 41 0 1 0 0\n", 1, 32)?;
    sets(rt, 43, b"", 0, b"0 0 0 41 0 1 0 0\n", 1, 33)
}

// "up to 4 rows of part 1 (reasons), 6 of part 2 (context), 8 of part 3 (body)": 5.
fn limits_of_parts(rt: &impl Print) -> io::Result<()> {
    many(rt, 44, b"", 3, b"1 1 1 1 -1 1 -2 -3\n", b"")?;
    many(rt, 45, b"", 4, b"1 1 1 1 -1 1 -2 -3\n", b"")?;
    many(rt, 46, b"", 5, b"1 1 1 1 -1 1 -2 -3\n", b"")?;
    many(
        rt,
        47,
        b"1 1 1 1 -1 1 -2 -3\n",
        5,
        b"1 1 2 1 -1 1 0 0\n",
        b"",
    )?;
    many(
        rt,
        48,
        b"1 1 1 1 -1 1 -2 -3\n",
        6,
        b"1 1 2 1 -1 1 0 0\n",
        b"",
    )?;
    many(
        rt,
        49,
        b"1 1 1 1 -1 1 -2 -3\n",
        7,
        b"1 1 2 1 -1 1 0 0\n",
        b"",
    )?;
    many(
        rt,
        50,
        b"1 1 1 1 -1 1 -2 -3\n",
        7,
        b"1 1 3 31 0 1 0 0\n",
        b"",
    )?;
    many(
        rt,
        51,
        b"1 1 1 1 -1 1 -2 -3\n",
        8,
        b"1 1 3 31 0 1 0 0\n",
        b"",
    )?;
    many(
        rt,
        52,
        b"1 1 1 1 -1 1 -2 -3\n",
        9,
        b"1 1 3 31 0 1 0 0\n",
        b"",
    )?;
    many(
        rt,
        53,
        b"",
        4,
        b"1 1 1 1 -1 1 -2 -3\n",
        b"1 1 2 1 -1 1 0 0\n1 1 1 1 -1 1 -2 -3\n",
    )?;
    many(
        rt,
        54,
        b"",
        3,
        b"1 1 1 1 -1 1 -2 -3\n",
        b"1 1 2 1 -1 1 0 0\n1 1 1 1 -1 1 -2 -3\n",
    )?;
    many(
        rt,
        55,
        b"",
        4,
        b"1 1 1 1 -1 1 -2 -3\n",
        b"1 2 1 1 -1 1 -2 -3\n1 1 1 1 -1 1 -2 -3\n",
    )
}

// "At most 512 rows, 256 initial atoms": 5.
fn limits_in_all(rt: &impl Print) -> io::Result<()> {
    many(rt, 56, b"", 255, b"0 0 0 41 0 1 0 0\n", b"")?;
    many(rt, 57, b"", 256, b"0 0 0 41 0 1 0 0\n", b"")?;
    many(rt, 58, b"", 257, b"0 0 0 41 0 1 0 0\n", b"")?;
    many(
        rt,
        59,
        b"",
        256,
        b"0 0 0 41 0 1 0 0\n",
        b"1 1 1 1 -1 1 -2 -3\n0 0 0 41 1 1 0 0\n",
    )?;
    sets(rt, 60, b"", 255, b"0 0 0 41 0 1 0 0\n", 8, 32)?;
    sets(rt, 61, b"", 256, b"0 0 0 41 0 1 0 0\n", 8, 32)?;
    sets(
        rt,
        62,
        b"0 0 0 40 0 1 1 1\n",
        256,
        b"0 0 0 41 0 1 0 0\n",
        8,
        32,
    )
}

// "a rule lacking rows is 3 at its last line, found when a readable row of another rule or the end of the text follows"
fn lacking_rows(rt: &impl Print) -> io::Result<()> {
    rows(rt, 63, b"1 1 2 3 -1 0 -9 -9\n")?;
    rows(rt, 64, b"1 1 2 3 -1 0 -9 -9\n1 1 3 22 -1 0 0 0\n")?;
    rows(rt, 65, b"1 1 1 1 -1 1 -2 -3\n")?;
    rows(rt, 66, b"1 1 2 3 -1 0 -9 -9\n9 1 1 1 -1 1 0 0\n")?;
    rows(rt, 67, b"1 1 2 3 -1 0 -9 -9\n0 0 0 41 0 1 0 0\n")?;
    rows(
        rt,
        68,
        b"1 1 2 3 -1 0 -9 -9\n1 1 2 3 -1 0 -9 -9\n1 2 2 3 -1 0 -9 -9\n",
    )?;
    rows(rt, 69, b"1 1 3 22 5 0 0 0\n1 1 3 22 6 0 0 0\n")?;
    rows(rt, 70, b"1 1 3 22 5 0 0 0\n2 1 1 1 -1 1 0 0\n")
}

// "both numbered from 1 without gaps, rows by set, rule, part"; set 0 rows stand first; earlier lines are tested first.
fn order(rt: &impl Print) -> io::Result<()> {
    rows(rt, 71, b"1 1 1 99 -1 1 0 0\nx\n")?;
    rows(rt, 72, b"8 1 1 1 -1 1 0 0\n")?;
    rows(rt, 73, b"1 32 1 1 -1 1 0 0\n")?;
    rows(rt, 74, b"1 1 1 1 -1 1 -2 -3\n1 3 1 1 -1 1 0 0\n")?;
    rows(rt, 75, b"1 1 1 1 -1 1 -2 -3\n3 1 1 1 -1 1 0 0\n")?;
    rows(
        rt,
        76,
        b"1 1 1 1 -1 1 -2 -3\n1 2 1 1 -1 1 -2 -3\n1 1 1 1 -1 1 -2 -3\n",
    )?;
    rows(
        rt,
        77,
        b"1 1 1 1 -1 1 -2 -3\n1 1 3 31 0 1 0 0\n1 1 2 1 -1 1 0 0\n",
    )?;
    rows(rt, 78, b"1 1 0 1 -1 1 0 0\n")?;
    rows(rt, 79, b"1 1 1 1 -1 1 -2 -3\n1 1 4 31 0 1 0 0\n")?;
    rows(
        rt,
        80,
        b"0 0 0 41 0 1 0 0\n0 0 0 40 0 1 1 1\n0 0 0 41 0 1 0 0\n",
    )?;
    rows(rt, 81, b"1 1 1 1 -1 1 -2 -3\n0 0 0 41 0 1 0 0\n")
}

// "A set holds one kind, that of its first rule; a row against it is 3."
fn kinds(rt: &impl Print) -> io::Result<()> {
    rows(rt, 82, b"1 1 1 1 -1 1 -2 -3\n1 2 3 31 0 1 0 0\n")?;
    rows(rt, 83, b"1 1 1 1 -1 1 -2 -3\n1 2 2 1 -1 1 0 0\n")?;
    rows(
        rt,
        84,
        b"1 1 2 3 -1 0 -9 -9\n1 1 3 22 -1 0 0 0\n1 2 1 1 -1 1 -2 -3\n",
    )?;
    rows(
        rt,
        85,
        b"1 1 1 1 -1 1 -2 -3\n2 1 2 3 -1 0 -9 -9\n2 1 3 22 -1 0 0 0\n",
    )?;
    rows(rt, 86, b"1 1 3 31 0 1 0 0\n")
}

// "Set 0 rows have rule 0, part 0, constants only": op 41 and op 40.
fn set_0_rows(rt: &impl Print) -> io::Result<()> {
    rows(rt, 87, b"0 0 0 41 1 1 0 0\n")?;
    rows(rt, 88, b"0 1 0 41 0 1 0 0\n")?;
    rows(rt, 89, b"0 0 1 41 0 1 0 0\n")?;
    rows(rt, 90, b"0 0 0 41 0 1 -1 0\n")?;
    rows(rt, 91, b"0 0 0 41 0 0 0 0\n")?;
    rows(rt, 92, b"0 0 0 42 0 1 0 0\n")?;
    rows(rt, 93, b"0 0 0 40 0 1 1 1\n0 0 0 40 0 1 1 1\n")?;
    rows(rt, 94, b"0 0 0 40 0 1 0 1\n")?;
    rows(rt, 95, b"0 0 0 40 0 1 1 0\n")?;
    rows(rt, 96, b"0 0 0 40 0 1 1 256\n")?;
    rows(rt, 97, b"0 0 0 40 0 255 65535 255\n")
}

// "Reasons use 1; an object rule's context 1 and 2; a meta rule's context 1 to 14." Unused columns are 0.
fn queries(rt: &impl Print) -> io::Result<()> {
    rows(rt, 98, b"1 1 1 2 -1 1 -2 -3\n")?;
    rows(rt, 99, b"1 1 1 1 -1 0 -2 -3\n")?;
    rows(rt, 100, b"1 1 1 1 -1 1 -2 -3\n1 1 2 3 -9 0 -9 -9\n")?;
    rows(rt, 101, b"1 1 1 1 -1 1 -2 -3\n1 1 2 2 -9 1 -6 -7\n")?;
    rows(rt, 102, b"1 1 2 15 0 0 0 0\n")?;
    rows(rt, 103, b"1 1 2 3 -1 1 -2 -9\n")?;
    rows(rt, 104, b"1 1 2 5 -1 0 -2 -9\n")?;
    rows(rt, 105, b"1 1 2 11 -1 0 16 0\n1 1 3 22 5 0 0 0\n")?;
    rows(rt, 106, b"1 1 2 11 -1 0 17 0\n")?;
    rows(rt, 107, b"1 1 2 12 -1 0 0 0\n")?;
    rows(rt, 108, b"1 1 2 13 -9 0 -1 0\n")
}

// Actions 21 to 25 of meta rules, steps 31 to 36 of plans: 3.
fn bodies(rt: &impl Print) -> io::Result<()> {
    rows(rt, 109, b"1 1 1 1 -1 1 -2 -3\n1 1 3 21 -9 1 0 0\n")?;
    rows(rt, 110, b"1 1 2 3 -1 0 -9 -9\n1 1 3 31 0 1 0 0\n")?;
    rows(rt, 111, b"1 1 2 3 -1 0 -9 -9\n1 1 3 22 -1 0 1 0\n")?;
    rows(rt, 112, b"1 1 2 3 -1 0 -9 -9\n1 1 3 23 -1 0 16 0\n")?;
    rows(rt, 113, b"1 1 2 3 -1 0 -9 -9\n1 1 3 23 -1 0 -5 0\n")?;
    rows(rt, 114, b"1 1 2 3 -1 0 -9 -9\n1 1 3 24 -1 0 17 0\n")?;
    rows(rt, 115, b"1 1 2 3 -1 0 -9 -9\n1 1 3 21 -1 1 0 0\n")?;
    rows(rt, 116, b"1 1 2 3 -1 0 -9 -9\n1 1 3 21 5 1 0 0\n")?;
    rows(rt, 117, b"1 1 1 1 -1 1 -2 -3\n1 1 3 31 -9 1 0 0\n")?;
    rows(rt, 118, b"1 1 1 1 -1 1 -2 -3\n1 1 3 36 0 1 0 0\n")?;
    rows(rt, 119, b"1 1 1 1 -1 1 -2 -3\n1 1 3 31 0 1 -9 0\n")?;
    rows(rt, 120, b"1 1 1 1 -1 1 -2 -3\n1 1 3 35 -1 0 0 1\n")
}

// "a variable given a value by a reason, a positive context row or an earlier 21": 4, after 3 on the same line.
fn values(rt: &impl Print) -> io::Result<()> {
    rows(rt, 121, b"1 1 1 1 -1 1 -2 -3\n1 1 3 31 0 1 -7 0\n")?;
    rows(rt, 122, b"1 1 1 1 -1 1 -2 -3\n1 1 3 31 0 1 -7 -9\n")?;
    rows(rt, 123, b"1 1 1 1 -1 1 -2 -3\n1 1 3 35 -7 0 0 0\n")?;
    rows(rt, 124, b"1 1 2 3 -1 0 -9 -9\n1 1 3 22 -2 0 0 0\n")?;
    rows(rt, 125, b"1 1 3 22 -1 0 0 0\n")?;
    rows(
        rt,
        126,
        b"1 1 1 1 -1 1 -2 -3\n1 1 2 1 -9 2 -7 0\n1 1 3 31 0 1 -7 0\n",
    )?;
    rows(
        rt,
        127,
        b"1 1 1 1 -1 1 -2 -3\n1 1 2 2 -9 2 -7 0\n1 1 3 31 0 1 -7 0\n",
    )?;
    rows(
        rt,
        128,
        b"1 1 2 3 -1 0 -9 -9\n1 1 3 21 -2 1 0 0\n1 1 3 22 -2 0 0 0\n",
    )?;
    rows(
        rt,
        129,
        b"1 1 2 3 -1 0 -9 -9\n1 1 3 22 -2 0 0 0\n1 1 3 21 -2 1 0 0\n",
    )?;
    rows(rt, 130, b"1 1 2 3 -1 0 -9 -9\n1 1 3 21 -2 1 -2 0\n")?;
    rows(
        rt,
        131,
        b"1 1 1 1 -1 1 -2 -3\n1 2 1 1 -9 1 -9 -9\n1 2 3 35 -1 0 0 0\n",
    )
}

// The program of the printed run.
fn a_whole_program(rt: &impl Print) -> io::Result<()> {
    rows(
        rt,
        132,
        b"0 0 0 40 0 1 4095 2\n1 1 1 1 -1 1 -2 -3\n1 1 3 36 -9 3 -2 -3\n2 1 2 3 -1 0 -9 -9\n2 1 2 12 -1 0 2 0\n2 1 3 23 -1 0 2 0\n",
    )
}

fn main(rt: HostRuntime) -> io::Result<()> {
    names_line(&rt)?;
    lines(&rt)?;
    integers(&rt)?;
    ranges(&rt)?;
    limits_of_sets_and_rules(&rt)?;
    limits_of_parts(&rt)?;
    limits_in_all(&rt)?;
    lacking_rows(&rt)?;
    order(&rt)?;
    kinds(&rt)?;
    set_0_rows(&rt)?;
    queries(&rt)?;
    bodies(&rt)?;
    values(&rt)?;
    a_whole_program(&rt)
}
