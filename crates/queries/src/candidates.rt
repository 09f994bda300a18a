// The candidates of every query by number, and which of them a row can pass over.
ghost use Rattle.std.specs.Prelude.{◌≡◌, false, ℕ, ◌+◌, ◌/◌, ◌%◌, ◌<◌, ◌≤◌, length, Option};
ghost use Rattle.lists.specs.Lists.{within};
ghost use Rattle.model.specs.Configuration.{has_flag};
ghost use Rattle.state.specs.View.{atom_b, atom_at, plan_at};
ghost use Rattle.queries.specs.declared.Columns.{Columns};
ghost use Rattle.queries.specs.View.{candidate_of, Limits, unlike, is_like, lacks, column_of, sought_of, stands_at, Without};
ghost use Rattle.queries.specs.Answers.{atom_candidate, plan_candidate, remainder_candidate, justification_candidate, subgoal_candidate, state_candidate, count_of, candidate_at, Skipped, Alone};

use crate::{Columns, Wanted};
use model::Row;
use state::{Scalars, Words};

// "1 atom (i, p, a, b)": atom k, if its predicate is p.
pub fn atom_candidate(words: &Words, p: u32, k: usize) -> Option<Columns>
    requires { k < 256 }
    ensures { candidate_of result ≡ atom_candidate p (atom_at words.now k) }
{
    let x = state::atom_at(words, k);
    (x.p == p).then_some(Columns {
        i: x.id,
        a: x.a,
        b: x.b,
    })
}

// "3 plan (i, a set, b rule)": plan k.
pub fn plan_candidate(words: &Words, k: usize) -> Option<Columns>
    requires { k < 64 }
    ensures { candidate_of result ≡ plan_candidate (plan_at words.now k) }
{
    let i = state::plan_id(words, k);
    let a = state::plan_set(words, k);
    let b = state::plan_rule(words, k);
    Some(Columns { i, a, b })
}

// "5 remainder (i, a steps left)": plan k.
fn remainder_candidate(words: &Words, k: usize) -> Option<Columns>
    requires { k < 64 }
    ensures { candidate_of result ≡ remainder_candidate (plan_at words.now k) }
{
    let i = state::plan_id(words, k);
    let a = state::plan_left(words, k);
    Some(Columns { i, a, b: 0 })
}

// How many justifications plan k has: the zeros behind them are none.
#[tactic(auto, using(crate::proofs::Laws::justifications_few, crate::proofs::Laws::justifications_last, crate::proofs::Laws::justifications_reach))]
pub fn justification_count(words: &Words, k: usize) -> usize
    requires { k < 64 }
    ensures { result ≡ length (plan_at words.now k).justifications }
{
    if state::plan_justification(words, k, 3) != 0 {
        return 4;
    }
    if state::plan_justification(words, k, 2) != 0 {
        return 3;
    }
    if state::plan_justification(words, k, 1) != 0 {
        return 2;
    }
    if state::plan_justification(words, k, 0) != 0 {
        return 1;
    }
    0
}

// "7 justification (i plan, a atom)": plan k and its justification j, if it has so many.
fn justification_candidate(words: &Words, k: usize, j: usize) -> Option<Columns>
    requires { (k < 64) × (j < 4) }
    ensures { candidate_of result ≡ justification_candidate (plan_at words.now k) j }
{
    let i = state::plan_id(words, k);
    let a = state::plan_justification(words, k, j);
    let n = justification_count(words, k);
    (j < n).then_some(Columns { i, a, b: 0 })
}

// "9 subgoal (i plan, a atom)": plan k, if it has one.
fn subgoal_candidate(words: &Words, k: usize) -> Option<Columns>
    requires { k < 64 }
    ensures { candidate_of result ≡ subgoal_candidate (plan_at words.now k) }
{
    let i = state::plan_id(words, k);
    let a = state::plan_subgoal(words, k);
    (a != 0).then_some(Columns { i, a, b: 0 })
}

// Whether a flag is set, of any number.
#[tactic(auto, using(crate::proofs::Laws::flag_zero, crate::proofs::Laws::flag_high))]
fn flagged(flags: u16, f: u32) -> bool
    ensures { result ≡ has_flag f flags }
{
    if f == 0 {
        return state::has_flag(flags, 1);
    }
    if 16 < f {
        return false;
    }
    state::has_flag(flags, f)
}

// "11 state (i, a a constant flag 1 to 16)": plan k, if its flag is set.
fn state_candidate(words: &Words, x: u32, k: usize) -> Option<Columns>
    requires { (k < 64) × ((plan_at words.now k).flags ≤ 65535) }
    ensures { candidate_of result ≡ state_candidate x (plan_at words.now k) }
{
    let i = state::plan_id(words, k);
    let a = model::constant(x);
    let flags = state::plan_flags(words, k) as u16;
    flagged(flags, a).then_some(Columns { i, a, b: 0 })
}

// How many candidates are numbered.
#[tactic(auto, unfolding(crate::specs::Answers::count_of))]
pub fn count(s: Scalars, r: Row) -> usize
    ensures { result ≡ count_of s r }
{
    let op = r.op;
    if (1 <= op) & (op <= 2) {
        return s.atoms as usize;
    }
    if (3 <= op) & (op <= 4) {
        return s.plans as usize;
    }
    if (5 <= op) & (op <= 6) {
        return s.plans as usize;
    }
    if (7 <= op) & (op <= 8) {
        return s.plans as usize * 4;
    }
    if (9 <= op) & (op <= 10) {
        return s.plans as usize;
    }
    if (11 <= op) & (op <= 12) {
        return s.plans as usize;
    }
    1
}

// Candidate c of a row. "13 cycle (a)": one, the present cycle.
#[tactic(auto, unfolding(crate::specs::Answers::candidate_at, crate::specs::Answers::count_of))]
pub fn candidate_at(words: &Words, s: Scalars, r: Row, c: usize) -> Option<Columns>
    requires { Limits words.now s × (c < count_of s r) }
    ensures { candidate_of result ≡ candidate_at words.now s r c }
{
    let op = r.op;
    if (1 <= op) & (op <= 2) {
        return atom_candidate(words, r.p, c);
    }
    if (3 <= op) & (op <= 4) {
        return plan_candidate(words, c);
    }
    if (5 <= op) & (op <= 6) {
        return remainder_candidate(words, c);
    }
    if (7 <= op) & (op <= 8) {
        return justification_candidate(words, c / 4, c % 4);
    }
    if (9 <= op) & (op <= 10) {
        return subgoal_candidate(words, c);
    }
    if (11 <= op) & (op <= 12) {
        return state_candidate(words, r.a, c);
    }
    Some(Columns {
        i: 0,
        a: s.cycle,
        b: 0,
    })
}

// The number is not the one that is wanted.
fn is_unlike(w: Wanted, n: u32) -> bool
    ensures { result ≡ unlike w n }
{
    w.is_some_and(|m| n != m)
}

// The candidate is there, and each number that is wanted is its own.
fn is_like(i: Wanted, a: Wanted, b: Wanted, x: Option<Columns>) -> bool
    ensures { result ≡ is_like i a b x }
{
    let Some(x) = x else {
        return false;
    };
    !(is_unlike(i, x.i) | (is_unlike(a, x.a) | is_unlike(b, x.b)))
}

// The column that a number is looked for in, and the number: where none is wanted, the predicate in its own column.
fn column(w: Wanted, at: usize) -> usize
    requires { at ≤ atom_b }
    ensures { (result ≡ column_of w at) × (result ≤ atom_b) }
{
    if w.is_some() {
        return at;
    }
    state::ATOM_P
}

fn sought(w: Wanted, p: u32) -> u32
    ensures { result ≡ sought_of w p }
{
    w.unwrap_or(p)
}

// Atom c has predicate p, and v and w in the columns y and z.
fn stands(words: &Words, p: u32, y: usize, v: u32, z: usize, w: u32, c: usize) -> bool
    requires { (y ≤ atom_b) × (z ≤ atom_b) × (c < 256) }
    ensures { result ≡ stands_at words.now p y v z w c }
{
    (words[state::ATOM_P + c] == p) & ((words[y + c] == v) & (words[z + c] == w))
}

// One of eight atoms from c on may be such an atom: without a branch, so that they are compared side by side.
fn any_of_eight(words: &Words, p: u32, y: usize, v: u32, z: usize, w: u32, c: usize) -> bool
    requires { (y ≤ atom_b) × (z ≤ atom_b) × (c + 8 ≤ 256) }
    ensures { result ≡ false → ((k : ℕ) → c ≤ k → k < c + 8 → stands_at words.now p y v z w k ≡ false) }
{
    let first = stands(words, p, y, v, z, w, c) | stands(words, p, y, v, z, w, c + 1);
    let second = stands(words, p, y, v, z, w, c + 2) | stands(words, p, y, v, z, w, c + 3);
    let third = stands(words, p, y, v, z, w, c + 4) | stands(words, p, y, v, z, w, c + 5);
    let fourth = stands(words, p, y, v, z, w, c + 6) | stands(words, p, y, v, z, w, c + 7);
    (first | second) | (third | fourth)
}

// From `from` on, past eights without such an atom.
fn pass_eights(
    words: &Words,
    p: u32,
    y: usize,
    v: u32,
    z: usize,
    w: u32,
    from: usize,
    n: usize,
) -> usize
    requires { (y ≤ atom_b) × (z ≤ atom_b) × (from ≤ n) × (n ≤ 256) }
    ensures { Without words.now p y v z w from result × (result ≤ n) }
{
    let eights = (n - from) / 8;
    for k in 0..eights {
        let c = from + k * 8;
        if any_of_eight(words, p, y, v, z, w, c) {
            return c;
        }
    }
    from + eights * 8
}

// From `from` on, up to such an atom or n.
fn pass_ones(
    words: &Words,
    p: u32,
    y: usize,
    v: u32,
    z: usize,
    w: u32,
    from: usize,
    n: usize,
) -> usize
    requires { (y ≤ atom_b) × (z ≤ atom_b) × (from ≤ n) × (n ≤ 256) }
    ensures { Without words.now p y v z w from result × (result ≤ n) }
{
    for c in from..n {
        if stands(words, p, y, v, z, w, c) {
            return c;
        }
    }
    n
}

// The first candidate from `from` on that is like what is wanted, or n; of atoms, and so on by query.
pub fn skip_atoms(words: &Words, p: u32, a: Wanted, b: Wanted, from: usize, n: usize) -> usize
    requires { n ≤ 256 }
    ensures { (i : Option ℕ) → Skipped (λ c. atom_candidate p (atom_at words.now c)) i a b from result }
{
    if n <= from {
        return from;
    }
    let y = column(a, state::ATOM_A);
    let v = sought(a, p);
    let z = column(b, state::ATOM_B);
    let w = sought(b, p);
    if stands(words, p, y, v, z, w, from) {
        return from;
    }
    let c = pass_eights(words, p, y, v, z, w, from + 1, n);
    pass_ones(words, p, y, v, z, w, c, n)
}

// The same of any candidates, one by one.
fn skip_by<F: Fn(usize) -> Option<Columns>>(
    candidate: F,
    i: Wanted,
    a: Wanted,
    b: Wanted,
    from: usize,
    n: usize,
) -> usize
    requires { (c : ℕ) → c < n → F.pre candidate c }
    ensures on { from ≤ result }
    ensures missed { (c : ℕ) → c < result → from ≤ c → (x : Option Columns) × F.post candidate c x × (is_like i a b x ≡ false) }
{
    for c in from..n {
        if is_like(i, a, b, candidate(c)) {
            return c;
        }
    }
    from.max(n)
}

// None of plan k's justifications is the number that is wanted.
fn is_lacking(a: Wanted, words: &Words, k: usize) -> bool
    requires { k < 64 }
    ensures { result ≡ lacks a (plan_at words.now k).justifications }
{
    let first = state::plan_justification(words, k, 0);
    let second = state::plan_justification(words, k, 1);
    let third = state::plan_justification(words, k, 2);
    let fourth = state::plan_justification(words, k, 3);
    (is_unlike(a, first) & is_unlike(a, second)) & (is_unlike(a, third) & is_unlike(a, fourth))
}

// A plan with another id than is wanted, or without the atom, is passed over with its four numbers, and so are those past its last
// justification.
fn skip_justifications(words: &Words, i: Wanted, a: Wanted, from: usize, plans: usize) -> usize
    requires { plans ≤ 64 }
    ensures { (b : Option ℕ) → Skipped (λ c. justification_candidate (plan_at words.now (c / 4)) (c % 4)) i a b from result }
{
    for k in from / 4..plans {
        let id = state::plan_id(words, k);
        if is_unlike(i, id) {
            continue;
        }
        if is_lacking(a, words, k) {
            continue;
        }
        for j in from.saturating_sub(k * 4)..justification_count(words, k) {
            let atom = state::plan_justification(words, k, j);
            if is_unlike(a, atom) {
                continue;
            }
            return k * 4 + j;
        }
    }
    from.max(plans * 4)
}

// The next number to look at for what stands at one place only, with `width` numbers: from there on, or nowhere, and then that is n.
fn leap(from: usize, at: usize, width: usize, n: usize) -> usize
    requires { (at ≤ n) × (n ≤ 256) × (1 ≤ width) × (width ≤ 4) }
    ensures { (from ≤ result) × ((c : ℕ) → from ≤ c → c < result → (c < n) × (at ≤ c → at + width ≤ c)) }
{
    if from <= at {
        return at;
    }
    if from < at + width {
        return from;
    }
    from.max(n)
}

// The number behind the one candidate that has the id that is wanted, if one has: by halves, since ids rise. Rows 7 and 8 have four to a plan,
// and row 13 names no instance.
pub fn behind(words: &Words, s: Scalars, r: Row, id: u32) -> Option<usize>
    requires { Limits words.now s × (1 ≤ r.op) × (r.op ≤ 12) × (within 7 8 r.op ≡ false) }
    ensures { Alone words.now s r (Some id) result }
{
    if r.op <= 2 {
        return Some(state::find_atom(words, s.atoms, id)? + 1);
    }
    Some(state::find_plan(words, s.plans, id)? + 1)
}

// An id that is wanted is found by halves, since ids rise; no candidate with another id fits.
fn skip_wanted(words: &Words, s: Scalars, r: Row, id: u32, from: usize) -> usize
    requires { Limits words.now s }
    ensures { (a b : Option ℕ) → Skipped (candidate_at words.now s r) (Some id) a b from result }
{
    let op = r.op;
    if (1 <= op) & (op <= 2) {
        let n = s.atoms as usize;
        let k = state::find_atom(words, s.atoms, id).unwrap_or(n);
        return leap(from, k, 1, n);
    }
    if op < 3 {
        return from;
    }
    if 12 < op {
        return from;
    }
    let n = s.plans as usize;
    let k = state::find_plan(words, s.plans, id).unwrap_or(n);
    if (7 <= op) & (op <= 8) {
        return leap(from, k * 4, 4, n * 4);
    }
    leap(from, k, 1, n)
}

// The first candidate of a row from `from` on that may fit: the kind of candidate is chosen once for all that are passed over.
pub fn skip(
    words: &Words,
    s: Scalars,
    r: Row,
    i: Wanted,
    a: Wanted,
    b: Wanted,
    from: usize,
) -> usize
    requires { Limits words.now s }
    ensures { Skipped (candidate_at words.now s r) i a b from result }
{
    if let Some(id) = i {
        return skip_wanted(words, s, r, id, from);
    }
    let op = r.op;
    let n = s.plans as usize;
    if (1 <= op) & (op <= 2) {
        return skip_atoms(words, r.p, a, b, from, s.atoms as usize);
    }
    if (3 <= op) & (op <= 4) {
        return skip_by(|c| plan_candidate(words, c), i, a, b, from, n);
    }
    if (5 <= op) & (op <= 6) {
        return skip_by(|c| remainder_candidate(words, c), i, a, b, from, n);
    }
    if (7 <= op) & (op <= 8) {
        return skip_justifications(words, i, a, from, n);
    }
    if (9 <= op) & (op <= 10) {
        return skip_by(|c| subgoal_candidate(words, c), i, a, b, from, n);
    }
    if (11 <= op) & (op <= 12) {
        return skip_by(|c| state_candidate(words, r.a, c), i, a, b, from, n);
    }
    from
}
