// Why a text does not load: the cause of its refusal, as exact as a setter needs it to mend the line.
#![tactic(auto)]

ghost use Rattle.std.specs.Prelude.{◌≡◌, ◌≢◌, ◌≤◌};
ghost use Rattle.std.proofs.Math.Option.{none};
ghost use Rattle.model.specs.Text.{read_row};
ghost use Rattle.model.specs.Load.{take_row, refused_at};
ghost use Rattle.model.specs.Refusals.{number_of};
ghost use Rattle.rows.specs.Scanning.{whole as scanned, Small};
ghost use Rattle.causes.specs.Checking.{InSetZero};
ghost use Rattle.explain.specs.Explaining.{outside as is-outside, Misread, OfRow, Told};

use causes::{Breach, Lack, Limit, Unvalued};
use model::{LoadError, Refusal, Row, Scan};
use rows::RuleScan;

// 2: what is not as laid out. Columns have their number; a word stands from one place of the line to another.
// kept: (d) a column by its number: they are counted here, and the number is printed; an enum would be made from it and back
#[derive(Clone, Copy)]
pub enum Layout {
    Names,
    Unended,
    Columns(u32),
    Ninth,
    Empty(u32),
    Integer { column: u32, from: usize, to: usize },
}

// The cause of a refusal: of 2 Layout, of 5 Limit, of 3 Lack or Breach, of 4 Unvalued.
#[derive(Clone, Copy)]
pub enum Cause {
    Loads,
    Layout(Layout),
    Limit(Limit),
    Lack(Lack),
    Breach(Breach),
    Unvalued(Unvalued),
}

// A cause, the refusal's line by its number, and the line of the text at which the load ends.
#[derive(Clone, Copy)]
pub struct Explained {
    pub cause: Cause,
    pub line: u32,
    pub begin: usize,
    pub end: usize,
}

// "p runs 0 to 255; the others 0 to 65,535, but i, a, b from -9"
fn outside(column: u32, x: u32) -> bool
    ensures { result ≡ is-outside column x }
{
    (column <= 4) & (x < 9) | (column == 6) & !((9 <= x) & (x <= 264))
}

// "lines of eight integers in that order, one space between": what is wrong with a line that does not read so.
fn layout_of(line: &[u8]) -> Layout
    requires { read_row line.now ≡ none }
    ensures { Misread line.now result }
{
    let mut at: usize = 0;
    for column in 1..9 {
        if line.len() <= at || line[at] == 32 {
            return Layout::Empty(column);
        }
        let from = at;
        let to = script::word_end(line, from);
        let Some(d) = text::read_int(line, from) else {
            return Layout::Integer { column, from, to };
        };
        let n = d.next;
        if outside(column, d.value) {
            return Layout::Integer { column, from, to };
        }
        if line.len() <= n {
            return Layout::Columns(column);
        }
        if line[n] != 32 {
            return Layout::Integer { column, from, to };
        }
        at = n + 1;
    }
    Layout::Ninth
}

// The scan with its ceilings.
fn whole(q: RuleScan, ceilings: [u8; 256]) -> Scan
    ensures { result ≡ scanned q ceilings }
{
    let place = q.place;
    let valued = q.valued;
    Scan {
        count: q.count,
        atoms: place.atoms,
        set: place.set,
        rule: place.rule,
        part: place.part,
        reasons: place.reasons,
        context: place.context,
        body: place.body,
        object: place.object,
        valued,
        ceilings,
    }
}

// A row that is refused after the scan s, which is q with its ceilings.
fn of_row(q: RuleScan, s: Scan, r: Row, e: LoadError) -> Cause
    requires small { Small s }
    requires in_set_zero { InSetZero s }
    requires p_bound { r.p ≤ 255 }
    requires refused { take_row s r ≡ refused_at (number_of e.refusal) e.line }
    requires s_value { s ≡ scanned q s.ceilings }
    ensures { OfRow s r result }
{
    let left_lacking = rows::lacking(q) & !((r.set == s.set) & (r.rule == s.rule));
    if left_lacking {
        return Cause::Lack(causes::lack_of(s));
    }
    let ceilings = s.ceilings;
    let t = whole(rows::begun(q, r), ceilings);
    match e.refusal {
        Refusal::TooMany => Cause::Limit(causes::limit_of(s, r)),
        Refusal::Valueless => Cause::Unvalued(causes::unvalued_of(t, r)),
        _ => Cause::Breach(causes::breach_of(s, t, r)),
    }
}

// "Load tests lines in order": why the first that is refused is refused.
pub fn explain(text: &[u8]) -> Explained
    ensures { Told text.now result }
{
    let first = text::newline(text, 0);
    if text.len() <= first || !text::is_names(&text[..first]) {
        return Explained {
            cause: Cause::Layout(Layout::Names),
            line: 1,
            begin: 0,
            end: first,
        };
    }
    let mut s = rows::at_first();
    let mut ceilings = [0u8; 256];
    let mut at = first + 1;
    // kept: no plainer otherwise. The place goes on behind the line that was read.
    while at < text.len() {
        let end = text::newline(text, at);
        if text.len() <= end {
            return Explained {
                cause: Cause::Layout(Layout::Unended),
                line: s.count + 2,
                begin: at,
                end,
            };
        }
        let Some(row) = text::read_row(&text[at..end]) else {
            return Explained {
                cause: Cause::Layout(layout_of(&text[at..end])),
                line: s.count + 2,
                begin: at,
                end,
            };
        };
        let before = whole(s, ceilings);
        match rows::take_row(s, &mut ceilings, row) {
            Ok(scan) => s = scan,
            Err(e) => {
                return Explained {
                    cause: of_row(s, before, row, e),
                    line: e.line,
                    begin: at,
                    end,
                };
            }
        }
        at = end + 1;
    }
    if rows::lacking(s) {
        return Explained {
            cause: Cause::Lack(causes::lack_of(whole(s, ceilings))),
            line: s.count + 1,
            begin: at,
            end: at,
        };
    }
    Explained {
        cause: Cause::Loads,
        line: 0,
        begin: at,
        end: at,
    }
}
