// The cause of a refused load in plain words: which column, which variable, which limit.
use crate::output::Page;
use causes::{Breach, Lack, Limit, Section, Unvalued};
use explain::{Cause, Layout};
use model::Refusal;

// What the refusal's number says, where nothing more exact is known.
fn put_plain(page: &mut Page, refusal: Refusal) {
    page.put(refusals::refusal_words(refusal.number()))
}

fn put_name(page: &mut Page, column: u32) {
    match column {
        1 => page.put(b"set"),
        2 => page.put(b"rule"),
        3 => page.put(b"part"),
        4 => page.put(b"op"),
        5 => page.put(b"i"),
        6 => page.put(b"p"),
        7 => page.put(b"a"),
        _ => page.put(b"b"),
    }
}

// `column 5 (i)`
fn put_column(page: &mut Page, column: u32) {
    page.put_with(b"column ", column);
    page.put(b" (");
    put_name(page, column);
    page.put(b")")
}

// "p runs 0 to 255; the others 0 to 65,535, but i, a, b from -9"
fn put_range(page: &mut Page, column: u32) {
    match column {
        1 | 2 | 3 | 4 => page.put(b"0 to 65535"),
        6 => page.put(b"0 to 255"),
        _ => page.put(b"-9 to 65535"),
    }
}

// A part of a line, as far as the line goes.
fn put_word(page: &mut Page, line: &[u8], from: usize, to: usize) {
    if line.len() < to {
        return;
    }
    if to < from {
        return;
    }
    page.put(&line[from..to])
}

fn put_layout(page: &mut Page, layout: Layout, line: &[u8]) {
    match layout {
        Layout::Names => page.put(
            b"the first line must be `set rule part op i p a b`, ended by byte 10",
        ),
        Layout::Unended => page.put(b"the line is not ended by byte 10"),
        Layout::Columns(n) => {
            page.put_number(n as u64);
            page.put(b" columns, 8 are needed")
        }
        Layout::Ninth => page.put(b"a space follows column 8 (b), the last"),
        Layout::Empty(column) => {
            put_column(page, column);
            page.put(b" is empty: one space stands between columns")
        }
        Layout::Integer { column, from, to } => {
            put_column(page, column);
            page.put(b": `");
            put_word(page, line, from, to);
            page.put(b"` is no integer from ");
            put_range(page, column)
        }
    }
}

fn put_limit(page: &mut Page, limit: Limit) {
    match limit {
        Limit::Set(n) => {
            page.put_with(b"set ", n);
            page.put(b" is over 8")
        }
        Limit::Rule(n) => {
            page.put_with(b"rule ", n);
            page.put(b" is over 32")
        }
        Limit::Rows => page.put(b"more than 512 rows"),
        Limit::Part(part) => match part {
            1 => page.put(b"more than 4 rows of part 1 in the rule"),
            2 => page.put(b"more than 6 rows of part 2 in the rule"),
            _ => page.put(b"more than 8 rows of part 3 in the rule"),
        },
        Limit::Atoms => page.put(b"more than 256 initial atoms"),
    }
}

fn put_lack(page: &mut Page, lack: Lack) {
    match lack {
        Lack::Condition => page.put(b"the rule has no row of part 1 or 2"),
        Lack::Body => page.put(b"the rule has no row of part 3, which a rule without part 1 needs"),
    }
}

// `set 3 after set 1: ..`
fn put_order(page: &mut Page, word: &[u8], n: u32, last: u32, rule: &[u8]) {
    page.put(word);
    page.put_with(b" ", n);
    page.put(b" after ");
    page.put(word);
    page.put_with(b" ", last);
    page.put(rule)
}

// `op 2 may not stand in part 1 (reasons), only 1`
fn put_standing(page: &mut Page, op: u32, place: Section) {
    page.put_with(b"op ", op);
    page.put(b" may not stand in ");
    match place {
        Section::SetZero => page.put(b"set 0, only 40 and 41"),
        Section::Reasons => page.put(b"part 1 (reasons), only 1"),
        Section::ObjectContext => { page.put(b"part 2 (context) of an object rule, only 1 and 2") }
        Section::MetaContext => { page.put(b"part 2 (context) of a meta rule, only 1 to 14") }
        Section::ObjectBody => { page.put(b"part 3 (body) of an object rule, only 31 to 36") }
        Section::MetaBody => page.put(b"part 3 (body) of a meta rule, only 21 to 25"),
    }
}

// `column 7 (a) of op 11 must be ..`
fn put_must(page: &mut Page, column: u32, op: u32, what: &[u8]) {
    put_column(page, column);
    page.put_with(b" of op ", op);
    page.put(b" must be ");
    page.put(what)
}

fn put_breach(page: &mut Page, breach: Breach) {
    match breach {
        Breach::SetOrder { last, set } => {
            put_order(page, b"set", set, last, b": sets rise one by one from 1")
        }
        Breach::FirstRule { set, rule } => {
            page.put_with(b"set ", set);
            page.put_with(b" begins with rule ", rule);
            page.put(b": rules rise one by one from 1")
        }
        Breach::RuleOrder { last, rule } => put_order(
            page,
            b"rule",
            rule,
            last,
            b": rules rise one by one from 1",
        ),
        Breach::PartOrder { last, part } => {
            put_order(page, b"part", part, last, b": parts do not fall")
        }
        Breach::Kind { object } => {
            if object {
                return page.put(b"the set is of object rules: a rule of it begins with part 1");
            }
            page.put(b"the set is of meta rules: a rule of it has no part 1")
        }
        Breach::SetZero(column) => {
            put_column(page, column);
            page.put(b" must be 0 in set 0")
        }
        Breach::NoPart(part) => {
            page.put_with(b"part ", part);
            page.put(b" of a rule: only 1, 2 and 3")
        }
        Breach::Op { op, place } => put_standing(page, op, place),
        Breach::SecondCeiling(p) => { page.put_with(b"a second ceiling for predicate ", p) }
        Breach::NotZero { op, column } => put_must(page, column, op, b"0"),
        Breach::NoPredicate(op) => put_must(page, 6, op, b"1 to 255"),
        Breach::NoFlag(op) => put_must(page, 7, op, b"a constant 1 to 16"),
        Breach::NoValue { op, column } => {
            put_must(page, column, op, b"a constant or a variable")
        }
        Breach::NotAny(op) => put_must(page, 5, op, b"-9"),
        Breach::NotNew => put_must(page, 5, 21, b"-9 or a variable without value"),
        Breach::NoConstant(column) => put_must(page, column, 41, b"a constant"),
        Breach::NoThreshold => put_must(page, 7, 40, b"a constant 1 to 65535"),
        Breach::NoCeiling => put_must(page, 8, 40, b"a constant 1 to 255"),
    }
}

// `variable V3 in column 8 (b) has no value here`
fn put_unvalued(page: &mut Page, unvalued: Unvalued) {
    page.put_with(b"variable V", unvalued.variable);
    page.put(b" in ");
    put_column(page, unvalued.column);
    page.put(b" has no value here")
}

// Why the load of a text is refused so.
pub fn put_reason(page: &mut Page, text: &[u8], refusal: Refusal) {
    if text.len() == 0 {
        return page.put(b"the file is empty, or it cannot be opened");
    }
    let why = explain::explain(text);
    let cause = why.cause;
    let begin = why.begin;
    let end = why.end;
    match cause {
        Cause::Loads => put_plain(page, refusal),
        Cause::Layout(layout) => put_layout(page, layout, &text[begin..end]),
        Cause::Limit(limit) => put_limit(page, limit),
        Cause::Lack(lack) => put_lack(page, lack),
        Cause::Breach(breach) => put_breach(page, breach),
        Cause::Unvalued(unvalued) => put_unvalued(page, unvalued),
    }
}
