// A line of a script: its words, which command it is, its numbers.
#![tactic(auto)]

ghost use Rattle.std.specs.Prelude.{◌≡◌, ◌==◌, ◌≤◌, length, drop, count_by, position};
ghost use Rattle.std.specs.List.{list_all};
ghost use Rattle.lists.specs.Lists.{same};
ghost use Rattle.script.specs.Reading.{number_of, passed_over, spaces_in, Within, WordEnds, Reads, Exact, InFours, cut_short, bench_named, command_named};

#[derive(Clone, Copy)]
pub enum Command {
    Load,
    Program,
    Sense,
    Step,
    Answer,
    Delete,
    Run,
    Trace,
    Show,
    Dump,
    Config,
    Atom,
    Plan,
    Clock,
    Unknown,
}

// Why a line's numbers are not as they are wanted: another number of words; or the first word that is no number, the k-th from 0 on,
// which stands from one place to another.
#[derive(Clone, Copy)]
pub enum Misread {
    Miscounted { wanted: usize, there: usize },
    NoNumber { k: usize, from: usize, to: usize },
}

// kept: (c) a `match` on the bytes of a word leaves 73 goals, 59 of them for its last arm; so words are compared one by one
fn is_same(a: &[u8], b: &[u8]) -> bool
    ensures { result ≡ same a.now b.now }
{
    a == b
}

fn is_blank(text: &[u8]) -> bool
    ensures { result ≡ list_all (λ x. x == 32) text.now }
{
    text.iter().all(|b| *b == 32)
}

fn count_spaces(text: &[u8]) -> usize
    ensures { result ≡ count_by (λ x. x == 32) text.now }
{
    text.iter().filter(|b| **b == 32).count()
}

fn first_space(text: &[u8]) -> Option<usize>
    ensures { result ≡ position (λ x. x == 32) text.now }
{
    text.iter().position(|b| *b == 32)
}

// Blank lines and lines that begin with `#` are passed over.
pub fn is_passed_over(line: &[u8]) -> bool
    ensures { result ≡ passed_over line.now }
{
    line.starts_with(b"#") || is_blank(line)
}

// How many words begin behind a space from a place on.
pub fn spaces(line: &[u8], from: usize) -> usize
    ensures { result ≡ spaces_in (drop from line.now) }
{
    if line.len() < from {
        return 0;
    }
    count_spaces(&line[from..])
}

// Where a word ends that begins at a place: at the next space, or with the line.
pub fn word_end(line: &[u8], from: usize) -> usize
    requires { from ≤ length line.now }
    ensures { WordEnds line.now from result }
{
    match first_space(&line[from..]) {
        Some(n) => from + n,
        None => line.len(),
    }
}

// The command of the bench that a word is.
#[tactic(auto, unfolding(crate::specs::Reading::bench_named, model::specs::Text::bytes))]
fn bench_command(word: &[u8]) -> Command
    ensures { result ≡ bench_named word.now }
{
    if is_same(word, b"trace") {
        return Command::Trace;
    }
    if is_same(word, b"show") {
        return Command::Show;
    }
    if is_same(word, b"dump") {
        return Command::Dump;
    }
    if is_same(word, b"config") {
        return Command::Config;
    }
    if is_same(word, b"atom") {
        return Command::Atom;
    }
    if is_same(word, b"plan") {
        return Command::Plan;
    }
    if is_same(word, b"clock") {
        return Command::Clock;
    }
    Command::Unknown
}

// The command that a word is.
#[tactic(auto, unfolding(crate::specs::Reading::command_named, model::specs::Text::bytes))]
pub fn command_of(word: &[u8]) -> Command
    ensures { result ≡ command_named word.now }
{
    if is_same(word, b"load") {
        return Command::Load;
    }
    if is_same(word, b"program") {
        return Command::Program;
    }
    if is_same(word, b"sense") {
        return Command::Sense;
    }
    if is_same(word, b"step") {
        return Command::Step;
    }
    if is_same(word, b"answer") {
        return Command::Answer;
    }
    if is_same(word, b"delete") {
        return Command::Delete;
    }
    if is_same(word, b"run") {
        return Command::Run;
    }
    bench_command(word)
}

// A number from 0 to 4,294,967,295 in base ten, with no sign and no leading zero.
pub fn read_number(word: &[u8]) -> Option<u32>
    ensures { result ≡ number_of word.now }
{
    if word.len() == 0 {
        return None;
    }
    if word[0] == 48 {
        return if word.len() == 1 { Some(0) } else { None };
    }
    let mut value: u32 = 0;
    for d in word {
        if (*d < 48) | (57 < *d) {
            return None;
        }
        value = value.checked_mul(10)?.checked_add((*d - 48) as u32)?;
    }
    Some(value)
}

// The numbers of the words from a place on, where a space stands or the line ends.
fn numbers(line: &[u8], from: usize, out: &mut [u32]) -> Result<usize, Misread>
    requires { (from ≤ length line.now) × (length line.now ≤ length out.old) }
    ensures within { Within (length line.now) result }
    ensures read { Reads line.now from out.old out.new result }
{
    // kept: (d) the words' places are told, and a `for` over `out` would end where no line ends
    let mut at = from;
    let mut k: usize = 0;
    while at < line.len() {
        let begin = at + 1;
        let end = word_end(line, begin);
        let Some(n) = read_number(&line[begin..end]) else {
            return Err(Misread::NoNumber {
                k,
                from: begin,
                to: end,
            });
        };
        out[k] = n;
        k += 1;
        at = end;
    }
    Ok(k)
}

// As many numbers as are wanted.
pub fn exactly(line: &[u8], from: usize, wanted: usize, out: &mut [u32]) -> Result<usize, Misread>
    requires { (from ≤ length line.now) × (length line.now ≤ length out.old) }
    ensures within { Within (length line.now) result }
    ensures read { Exact line.now from wanted out.old out.new result }
{
    let there = spaces(line, from);
    if there != wanted {
        return Err(Misread::Miscounted { wanted, there });
    }
    numbers(line, from, out)
}

// What is told where the last row lacks numbers: a word of a whole row that is none comes before it.
fn cut_short(found: Result<usize, Misread>, whole: usize, over: usize) -> Misread
    ensures { result ≡ cut_short whole over found }
{
    match found {
        Err(Misread::NoNumber { k, from, to }) if k < whole => Misread::NoNumber { k, from, to },
        Err(Misread::Miscounted { wanted, there }) => Misread::Miscounted { wanted, there },
        _ => Misread::Miscounted {
            wanted: 4,
            there: over,
        },
    }
}

// Rows of four numbers. Whole rows are read before the count of the last is told.
pub fn in_fours(line: &[u8], from: usize, out: &mut [u32]) -> Result<usize, Misread>
    requires { (from ≤ length line.now) × (length line.now ≤ length out.old) }
    ensures within { Within (length line.now) result }
    ensures read { InFours line.now from out.old out.new result }
{
    let there = spaces(line, from);
    let over = there % 4;
    let found = numbers(line, from, out);
    if over == 0 {
        return found;
    }
    Err(cut_short(found, there - over, over))
}
