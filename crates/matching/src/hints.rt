// Where it pays to ask before a row is tried: guesses, made once a rule. The search is right whatever they are, so nothing is claimed of them.
// A hint stands by how many rows are to go. Its low nine bits are the variables that those rows look at; the next says that a nogood may help,
// since the same values come again: some variable has a value that none of those rows looks at, or many candidates of the row before give the
// same. Above that it lists later rows, four bits each.
// The first number, where no row is to go, is a purse: how many questions to later rows may still turn out useless.
ghost use Rattle.std.specs.Prelude.{◌/◌, ◌<◌, ◌≤◌, length, IfSome};
ghost use Rattle.queries.specs.View.{Limits};

use crate::sets;
use model::Row;
use state::{Scalars, Words};

// The most rows to go that a hint is made for, and one.
const ROWS: usize = 16;

// In a hint: that a nogood may help.
pub const NOGOOD: u32 = 512;

// From here on a hint lists later rows.
pub const LIST: u32 = 4096;

// What is in the purse at first, and at most.
const PURSE: u32 = 250;

// The bits of a hint that list later rows.
const ROOM: u32 = 20;

// In the place of a row's set, once the row is in a list: no set has it.
const LISTED: u32 = 512;

// Later rows of a hint, and how many bits they take; and the sets of the rows that are in no list yet.
#[derive(Clone, Copy)]
struct Later {
    list: u32,
    taken: u32,
    sets: [u32; ROWS],
}

// The hint where so many rows are to go, if there is anything to ask. Later rows are asked as long as the purse lasts.
pub fn hint_at(hints: &[u32], rest: usize) -> Option<u32>
    ensures { IfSome result (λ _. rest < 16) }
{
    if ROWS <= rest {
        return None;
    }
    let purse = *hints.first()?;
    let hint = *hints.get(rest)?;
    let asked = if purse == 0 { hint % LIST } else { hint };
    (asked != 0).then_some(asked)
}

// A question that spared the rows from there on gives one back to the purse, another takes one from it.
pub fn charge(hints: &mut [u32], spared: bool) {
    let Some(purse) = hints.first_mut() else {
        return;
    };
    if !spared {
        *purse = purse.saturating_sub(1);
    } else if *purse < PURSE {
        *purse += 1;
    }
}

// Whether a set is part of another.
fn is_inside(a: u32, b: u32) -> bool {
    a & b == a
}

// What each row looks at, by how many are to go.
fn row_sets(program: &[u32], first: usize, body: usize) -> [u32; ROWS]
    requires { (first < 16) × (first ≤ body) × (body ≤ length program.now / 8) }
{
    let mut own: [u32; ROWS] = [0; ROWS];
    for rest in 1..first + 1 {
        own[rest] = sets::operands(program::row_at(program, body - rest));
    }
    own
}

// What the last rows look at, so many of them.
fn looked(own: [u32; ROWS], rest: usize) -> u32
    requires { rest < 16 }
{
    let mut set: u32 = 0;
    for own in &own[1..rest + 1] {
        set = set | *own;
    }
    set
}

// Of the last rows those that look at variables of `near` alone, into the list.
fn gather(later: Later, near: u32, rest: usize) -> Later
    requires { rest < 16 }
{
    let mut list = later.list;
    let mut taken = later.taken;
    let mut sets = later.sets;
    for j in 1..rest {
        if taken < ROOM {
            if is_inside(sets[j], near) {
                sets[j] = LISTED;
                list = list | ((j as u32) << taken);
                taken += 4;
            }
        }
    }
    Later { list, taken, sets }
}

// The later rows that hang, beside what was given last, on earlier variables than the row itself: the earlier the sooner.
fn later_rows(
    later: Later,
    own: u32,
    last: u32,
    bounds: [u32; ROWS],
    first: usize,
    rest: usize,
) -> Later
    requires { (first < 16) × (1 ≤ rest) × (rest ≤ first) }
{
    let mut found = later;
    for t in (rest..first + 1).rev() {
        let near = last | bounds[t];
        if is_inside(own, near) {
            return found;
        }
        found = gather(found, near, rest);
    }
    found
}

// What an operand takes of a number: a variable all of it.
fn taken(x: u32, n: u32) -> u32
    ensures { result < 65536 }
{
    if sets::bit(x) == 0 {
        return 0;
    }
    n % 65536
}

// What a row's operands take of an atom, as one number.
fn key(r: Row, a: u32, b: u32) -> u32
    ensures { result < 65536 }
{
    (taken(r.a, a) * 1009 + taken(r.b, b)) % 65536
}

// Whether half of the atoms that a row asks for give its variables the values that another gave. An id is given once.
fn repeats(words: &Words, s: Scalars, r: Row) -> bool
    requires { Limits words.now s }
{
    if (r.op != 1) | (r.i != 0) {
        return false;
    }
    let mut seen: [u32; 256] = [0; 256];
    let mut count: usize = 0;
    let mut again: usize = 0;
    for c in 0..s.atoms as usize {
        let x = state::atom_at(words, c);
        if x.p == r.p {
            let k = key(r, x.a, x.b);
            let at = (k * 40503 % 65536 / 256) as usize;
            if seen[at] == k + 1 {
                again += 1;
            }
            seen[at] = k + 1;
            count += 1;
        }
    }
    count <= again * 2
}

// The hints of a rule whose rows stand from start up to its body.
pub fn of_rule<'a>(
    program: &'a [u32],
    words: &'a Words,
    s: Scalars,
    start: usize,
    body: usize,
) -> [u32; ROWS]
    requires { (start ≤ body) × (body ≤ length program.now / 8) × Limits words.now s }
{
    let mut hints: [u32; ROWS] = [0; ROWS];
    let first = body - start;
    if ROWS <= first {
        return hints;
    }
    let own = row_sets(program, first, body);
    let mut bounds: [u32; ROWS] = [0; ROWS];
    let mut later = Later {
        list: 0,
        taken: 0,
        sets: own,
    };
    let mut bound: u32 = 0;
    let mut last: u32 = 0;
    let mut again = false;
    for rest in (1..first + 1).rev() {
        bounds[rest] = bound;
        let r = program::row_at(program, body - rest);
        // a row that knows its id costs less than any question
        if (r.i == 0) | (!is_inside(sets::bit(r.i), bound)) {
            later = later_rows(later, own[rest], last, bounds, first, rest);
        }
        let ahead = looked(own, rest);
        let mut hint = later.list % 1048576 * LIST;
        if ((!is_inside(bound, ahead)) | again) & (rest != 1) {
            hint = hint | (ahead | NOGOOD);
        }
        hints[rest] = hint;
        later.list = 0;
        later.taken = 0;
        if (r.op % 2 == 1) & (!is_inside(own[rest], bound)) {
            last = own[rest] & !bound;
            bound = bound | own[rest];
        }
        again = repeats(words, s, r);
    }
    hints[0] = PURSE;
    hints
}
