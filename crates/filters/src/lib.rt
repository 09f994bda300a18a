// Which atoms there may be: a mark at a place that p, a and b give. A long search leaves a row at once that no atom can fit.
#![tactic(auto)]

ghost use Rattle.std.specs.Prelude.{◌≡◌, true, ◌+◌, ◌<◌, ◌≤◌};
ghost use Rattle.queries.specs.View.{found_in, Limits, room, Kept};
ghost use Rattle.queries.specs.Answers.{answers, width, given_ids, Next};
ghost use Rattle.filters.specs.Filters.{place_of, Marked, Barred};

use model::Row;
use state::{Scalars, Words};

// How many places a filter has.
pub const SIZE: usize = 4096;

// The place of p(a, b).
#[tactic(auto, unfolding(crate::specs::Filters::place_of))]
fn place(p: u32, a: u32, b: u32) -> usize
    ensures { (result ≡ place_of p a b) × (result < 4096) }
{
    ((p % 4096 * 37 + a % 4096 * 61 + b % 4096 * 5) % 4096) as usize
}

// The filter of the live atoms.
#[tactic(auto, using(crate::proofs::Laws::marked_more))]
pub fn of_atoms(words: &Words, atoms: u32) -> [u8; SIZE]
    requires { atoms ≤ 256 }
    ensures { Marked words.now atoms result }
{
    let n = atoms as usize;
    let mut filter: [u8; SIZE] = [0; SIZE];
    for k in 0..n {
        let x = state::atom_at(words, k);
        let at = place(x.p, x.a, x.b);
        filter[at] = 1;
    }
    filter
}

// No atom can fit: the row asks for one, both its arguments are known, and none is marked there.
pub fn is_barred<'a>(filter: &'a [u8; SIZE], r: Row, values: &'a [u32; 8]) -> bool
    ensures { result ≡ true → Barred filter.now r values.now }
{
    if r.op != 1 {
        return false;
    }
    let Some(a) = queries::wanted_by(r.a, values) else {
        return false;
    };
    let Some(b) = queries::wanted_by(r.b, values) else {
        return false;
    };
    let at = place(r.p, a, b);
    filter[at] == 0
}

// What a row gives, as `queries::next_answer` says it; a row that is barred has no answer, and no atom is looked at.
#[tactic(auto, using(crate::proofs::Laws::barred_none))]
pub fn next_answer<'a>(
    words: &'a Words,
    s: Scalars,
    r: Row,
    c: usize,
    before: [u32; 8],
    count: usize,
    values: &mut [u32; 8],
    matched: &mut [u32; 4],
    filter: &'a [u8; SIZE],
) -> Option<usize>
    requires { Limits words.now s × (room r count ≤ 4) × (values.old ≡ before) × Marked words.now s.atoms filter.now }
    ensures is { Next (answers words.now s r (found_in before matched.old count)) c (width s r) (found_in values.new matched.new (count + given_ids r)) result }
    ensures back { result ≡ None → values.new ≡ before }
    ensures kept { Kept count matched.old matched.new }
{
    if is_barred(filter, r, &before) {
        return None;
    }
    queries::next_answer(words, s, r, c, before, count, values, matched)
}
