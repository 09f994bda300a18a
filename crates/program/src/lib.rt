// Programs: their rows in lent words, the test that they are well formed, and the load of a program text.
#![tactic(auto)]

ghost use Rattle.std.specs.Prelude.{◌≡◌, true, ◌+◌, ◌*◌, ◌%◌, ◌≤◌, length};
ghost use Rattle.table.specs.Rows.{placed};
ghost use Rattle.program.specs.Rows.{row_at, row_words, program_formed};
ghost use Rattle.model.specs.declared.refusal.Refusal.TheVariants.{Layout};
ghost use Rattle.program.specs.Loading.{seen, loading};

use model::{LoadError, Refusal, Row};
use rows::quick;

// Row k of a program.
pub fn row_at(words: &[u32], k: usize) -> Row
    requires { k * 8 + 8 ≤ length words.now }
    ensures { result ≡ row_at words.now k }
{
    Row {
        set: table::read(words, 8, k, 0),
        rule: table::read(words, 8, k, 1),
        part: table::read(words, 8, k, 2),
        op: table::read(words, 8, k, 3),
        i: table::read(words, 8, k, 4),
        p: table::read(words, 8, k, 5),
        a: table::read(words, 8, k, 6),
        b: table::read(words, 8, k, 7),
    }
}

// The quick way alone: every row is sure to pass, and the last rule lacks nothing. Most programs are seen to be well formed here.
fn passes_quickly(program: &[u32]) -> bool
    requires { length program.now % 8 ≡ 0 }
    ensures { result ≡ true → program_formed program.now ≡ true }
{
    let n = program.len() / 8;
    if 512 < n {
        return false;
    }
    let mut place = quick::at_first();
    let mut valued = [0u8; 9];
    let mut ceilings = [0u8; 256];
    for k in 0..n {
        let r = row_at(program, k);
        let Some(next) = quick::quick_row(place, &mut valued, &mut ceilings, r) else {
            return false;
        };
        place = next;
    }
    !quick::lacking(place)
}

// The exact test, row by row.
#[tactic(auto, using(crate::proofs::Checks::check_laws))]
fn passes(program: &[u32]) -> bool
    requires { length program.now % 8 ≡ 0 }
    ensures { result ≡ program_formed program.now }
{
    let mut scan = rows::at_first();
    let mut ceilings = [0u8; 256];
    for k in 0..program.len() / 8 {
        let r = row_at(program, k);
        if !rows::in_range(r) {
            return false;
        }
        let Ok(next) = rows::take_row(scan, &mut ceilings, r) else {
            return false;
        };
        scan = next;
    }
    !rows::lacking(scan)
}

// "A program is well formed when some text loads to it": refusal 1 of a program. What the quick way leaves open is tested exactly, so that
// a program that is refused is read twice.
#[tactic(auto, using(crate::proofs::Checks::broken))]
pub fn well_formed(program: &[u32]) -> bool
    ensures { result ≡ program_formed program.now }
{
    if program.len() % 8 != 0 {
        return false;
    }
    if passes_quickly(program) {
        return true;
    }
    passes(program)
}

// "text not as laid out"
fn unreadable(line: u32) -> LoadError
    ensures { (result.refusal ≡ Layout) × (result.line ≡ line) }
{
    LoadError {
        refusal: Refusal::Layout,
        line,
    }
}

// Row k becomes r.
#[tactic(auto, unfolding(crate::specs::Rows::row_words))]
fn put_row(words: &mut [u32; 4096], k: usize, r: Row)
    requires { k * 8 + 8 ≤ 4096 }
    ensures { words.new ≡ placed 8 words.old k (row_words r) }
{
    let numbers = [r.set, r.rule, r.part, r.op, r.i, r.p, r.a, r.b];
    table::write(words, 8, k, &numbers);
}

// "Load tests lines in order": the program of a text and how many rows it has, or the first refusal.
pub fn load(text: &[u8], program: &mut [u32; 4096]) -> Result<u32, LoadError>
    ensures { seen result program.new ≡ loading text.now program.old }
{
    let first = text::newline(text, 0);
    if text.len() <= first || !text::is_names(&text[..first]) {
        return Err(unreadable(1));
    }
    let mut words = *program;
    let mut scan = rows::at_first();
    let mut ceilings = [0u8; 256];
    let mut at = first + 1;
    // kept: no plainer otherwise. The place goes on behind the line that was read.
    while at < text.len() {
        let end = text::newline(text, at);
        if text.len() <= end {
            return Err(unreadable(scan.count + 2));
        }
        let Some(row) = text::read_row(&text[at..end]) else {
            return Err(unreadable(scan.count + 2));
        };
        let next = rows::take_row(scan, &mut ceilings, row)?;
        put_row(&mut words, scan.count as usize, row);
        scan = next;
        at = end + 1;
    }
    if rows::lacking(scan) {
        return Err(LoadError {
            refusal: Refusal::Row,
            line: scan.count + 1,
        });
    }
    *program = words;
    Ok(scan.count)
}
