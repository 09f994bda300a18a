// One row of a rule: which of its candidates fit, and what the row gives, one answer after the other.
#![tactic(auto)]

pub mod candidates;

ghost use Rattle.std.specs.Prelude.{◌≡◌, false, ◌||◌, ◌+◌, ◌≤◌, is_some};
ghost use Rattle.model.specs.Program.{any?};
ghost use Rattle.lists.specs.Lists.{within, when};
ghost use Rattle.model.specs.Matching.{candidate, meet as met-with, fit as fit_of};
ghost use Rattle.queries.specs.View.{found_in, Limits, room, Kept, Wants};
ghost use Rattle.queries.specs.Answers.{tried, count_of, hits, answers, width, given_ids, Next, settled, closed};

use model::Row;
use state::{Scalars, Words};

// What is found so far: the values of variables 1 to 8, and the ids that the reasons matched, of which there are `count`.
#[derive(Clone, Copy)]
pub struct Bindings {
    pub values: [u32; 8],
    pub matched: [u32; 4],
    pub count: usize,
}

// What stands in the columns i, a and b of a candidate.
#[derive(Clone, Copy)]
pub struct Columns {
    pub i: u32,
    pub a: u32,
    pub b: u32,
}

// The number that an operand must meet, if it is known.
pub type Wanted = Option<u32>;

// "A variable without a value takes the candidate's; one with a value must equal it." False where it does not fit.
#[tactic(auto, unfolding(model::specs::Matching::meet), using(lists::proofs::Tables::get_within))]
fn meet(x: u32, n: u32, values: &mut [u32; 8]) -> bool
    ensures { when result values.new ≡ met-with x n values.old }
{
    if x == 0 {
        return true;
    }
    if 9 <= x {
        return x - 9 == n;
    }
    let k = (8 - x) as usize;
    let v = values[k];
    if v == state::NO_VALUE {
        values[k] = n;
        return true;
    }
    v == n
}

// The three operands of a row against what stands in a candidate's columns.
#[tactic(auto, unfolding(model::specs::Matching::fit), using(crate::proofs::Laws::stop, crate::proofs::Laws::go))]
fn fit(r: Row, i: u32, a: u32, b: u32, values: &mut [u32; 8]) -> bool
    ensures { when result values.new ≡ fit_of r (candidate i a b) values.old }
{
    if !meet(r.i, i, values) {
        return false;
    }
    if !meet(r.a, a, values) {
        return false;
    }
    meet(r.b, b, values)
}

// A candidate into what is found so far: its values, and of a reason its id behind `count` others. False where it is not there or does
// not fit.
#[tactic(auto, using(crate::proofs::Laws::tried_absent))]
fn take(
    r: Row,
    x: Option<Columns>,
    count: usize,
    values: &mut [u32; 8],
    matched: &mut [u32; 4],
) -> bool
    requires { room r count ≤ 4 }
    ensures is { when result (found_in values.new matched.new (room r count)) ≡ tried r x (found_in values.old matched.old count) }
    ensures kept { Kept count matched.old matched.new }
{
    let Some(x) = x else {
        return false;
    };
    if !fit(r, x.i, x.a, x.b, values) {
        return false;
    }
    if r.part == 1 {
        matched[count] = x.i;
        return true;
    }
    true
}

// The number that an operand must meet, if it is known: a constant, or the value of its variable.
pub fn wanted_by(x: u32, values: &[u32; 8]) -> Wanted
    ensures wants { Wants result x values.now }
    ensures known { (any? x || is_some result) ≡ settled values.now x }
{
    match x {
        0 => None,
        1..=8 => {
            let v = values[(8 - x) as usize];
            (v != state::NO_VALUE).then_some(v)
        }
        _ => Some(x - 9),
    }
}

// The first atom from `from` on that fits a row that wants these arguments, into what is found so far: the number behind it. `before` is what
// the values are.
fn next_atom(
    words: &Words,
    s: Scalars,
    r: Row,
    a: Wanted,
    b: Wanted,
    from: usize,
    before: [u32; 8],
    count: usize,
    values: &mut [u32; 8],
    matched: &mut [u32; 4],
) -> Option<usize>
    requires { Limits words.now s × (room r count ≤ 4) × (values.old ≡ before) × (1 ≤ r.op) × (r.op ≤ 2) × Wants a r.a before × Wants b r.b before }
    ensures is { Next (hits words.now s r (found_in before matched.old count)) from (count_of s r) (found_in values.new matched.new (room r count)) result }
    ensures back { result ≡ None → values.new ≡ before }
    ensures kept { Kept count matched.old matched.new }
{
    let n = s.atoms as usize;
    let mut c = candidates::skip_atoms(words, r.p, a, b, from, n);
    // kept: no plainer otherwise. The place goes on from where the answer says, not by one
    while c < n {
        let x = candidates::atom_candidate(words, r.p, c);
        c += 1;
        if take(r, x, count, values, matched) {
            return Some(c);
        }
        *values = before;
        c = candidates::skip_atoms(words, r.p, a, b, c, n);
    }
    None
}

// The same of the candidates of any row.
fn next_candidate(
    words: &Words,
    s: Scalars,
    r: Row,
    from: usize,
    before: [u32; 8],
    count: usize,
    values: &mut [u32; 8],
    matched: &mut [u32; 4],
) -> Option<usize>
    requires { Limits words.now s × (room r count ≤ 4) × (values.old ≡ before) }
    ensures is { Next (hits words.now s r (found_in before matched.old count)) from (count_of s r) (found_in values.new matched.new (room r count)) result }
    ensures back { result ≡ None → values.new ≡ before }
    ensures kept { Kept count matched.old matched.new }
{
    let n = candidates::count(s, r);
    let i = wanted_by(r.i, &before);
    let a = wanted_by(r.a, &before);
    let b = wanted_by(r.b, &before);
    let mut c = candidates::skip(words, s, r, i, a, b, from);
    // kept: no plainer otherwise. The place goes on from where the answer says, not by one
    while c < n {
        let x = candidates::candidate_at(words, s, r, c);
        c += 1;
        if take(r, x, count, values, matched) {
            return Some(c);
        }
        *values = before;
        c = candidates::skip(words, s, r, i, a, b, c);
    }
    None
}

// The same of a row that asks for a plan whose id is not known: few live, so each is tried.
fn next_plan(
    words: &Words,
    s: Scalars,
    r: Row,
    from: usize,
    before: [u32; 8],
    count: usize,
    values: &mut [u32; 8],
    matched: &mut [u32; 4],
) -> Option<usize>
    requires { Limits words.now s × (room r count ≤ 4) × (values.old ≡ before) × (3 ≤ r.op) × (r.op ≤ 4) }
    ensures is { Next (hits words.now s r (found_in before matched.old count)) from (count_of s r) (found_in values.new matched.new (room r count)) result }
    ensures back { result ≡ None → values.new ≡ before }
    ensures kept { Kept count matched.old matched.new }
{
    for c in from..s.plans as usize {
        let x = candidates::plan_candidate(words, c);
        if take(r, x, count, values, matched) {
            return Some(c + 1);
        }
        *values = before;
    }
    None
}

// The same of a row whose id is known, and which has one candidate with it at most.
fn next_known(
    words: &Words,
    s: Scalars,
    r: Row,
    id: u32,
    from: usize,
    before: [u32; 8],
    count: usize,
    values: &mut [u32; 8],
    matched: &mut [u32; 4],
) -> Option<usize>
    requires { Limits words.now s × (room r count ≤ 4) × (values.old ≡ before) × Wants (Some id) r.i before × (1 ≤ r.op) × (r.op ≤ 12) × (within 7 8 r.op ≡ false) }
    ensures is { Next (hits words.now s r (found_in before matched.old count)) from (count_of s r) (found_in values.new matched.new (room r count)) result }
    ensures back { result ≡ None → values.new ≡ before }
    ensures kept { Kept count matched.old matched.new }
{
    let c = candidates::behind(words, s, r, id)?;
    if c <= from {
        return None;
    }
    let x = candidates::candidate_at(words, s, r, c - 1);
    if take(r, x, count, values, matched) {
        return Some(c);
    }
    *values = before;
    None
}

// The same by the kind of row: what most rows ask for has a way of its own.
fn next_fit(
    words: &Words,
    s: Scalars,
    r: Row,
    from: usize,
    before: [u32; 8],
    count: usize,
    values: &mut [u32; 8],
    matched: &mut [u32; 4],
) -> Option<usize>
    requires { Limits words.now s × (room r count ≤ 4) × (values.old ≡ before) }
    ensures is { Next (hits words.now s r (found_in before matched.old count)) from (count_of s r) (found_in values.new matched.new (room r count)) result }
    ensures back { result ≡ None → values.new ≡ before }
    ensures kept { Kept count matched.old matched.new }
{
    let op = r.op;
    if let Some(id) = wanted_by(r.i, &before) {
        let is_single = (1 <= op) & ((op <= 12) & !((7 <= op) & (op <= 8)));
        if is_single {
            return next_known(words, s, r, id, from, before, count, values, matched);
        }
        return next_candidate(words, s, r, from, before, count, values, matched);
    }
    let is_atom = (1 <= op) & (op <= 2);
    if is_atom {
        let a = wanted_by(r.a, &before);
        let b = wanted_by(r.b, &before);
        return next_atom(words, s, r, a, b, from, before, count, values, matched);
    }
    let is_plan = (3 <= op) & (op <= 4);
    if is_plan {
        return next_plan(words, s, r, from, before, count, values, matched);
    }
    next_candidate(words, s, r, from, before, count, values, matched)
}

// What a row gives, from number c on: a query each candidate that fits, a negation what was found before, if none fits: the number
// behind the answer.
pub fn next_answer(
    words: &Words,
    s: Scalars,
    r: Row,
    c: usize,
    before: [u32; 8],
    count: usize,
    values: &mut [u32; 8],
    matched: &mut [u32; 4],
) -> Option<usize>
    requires { Limits words.now s × (room r count ≤ 4) × (values.old ≡ before) }
    ensures is { Next (answers words.now s r (found_in before matched.old count)) c (width s r) (found_in values.new matched.new (count + given_ids r)) result }
    ensures back { result ≡ None → values.new ≡ before }
    ensures kept { Kept count matched.old matched.new }
{
    if r.op % 2 == 1 {
        return next_fit(words, s, r, c, before, count, values, matched);
    }
    if 0 < c {
        return None;
    }
    if next_fit(words, s, r, 0, before, count, values, matched).is_none() {
        return Some(1);
    }
    *values = before;
    None
}

// How many ids a row adds to those that were matched: a reason its candidate's, a negation none.
#[tactic(auto, unfolding(crate::specs::Answers::given_ids))]
pub fn given_ids(r: Row) -> usize
    ensures { result ≡ given_ids r }
{
    if r.op % 2 == 0 {
        return 0;
    }
    if r.part != 1 {
        return 0;
    }
    1
}

// Whether an operand takes no value: any, a constant, a variable with a value.
pub fn settles(x: u32, values: &[u32; 8]) -> bool
    ensures { result ≡ settled values.now x }
{
    (x == 0) | wanted_by(x, values).is_some()
}

// Whether a row leaves everything as it was: no operand takes a value, and it is no reason.
#[tactic(auto, unfolding(crate::specs::Answers::closed))]
pub fn closes(r: Row, values: [u32; 8]) -> bool
    ensures { result ≡ closed r values }
{
    let i = settles(r.i, &values);
    let a = settles(r.a, &values);
    let b = settles(r.b, &values);
    (r.part != 1) & (i & (a & b))
}
