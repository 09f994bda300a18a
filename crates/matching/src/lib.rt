// The matches of rules: the backtracking search over a rule's rows, the test for an equal plan, and the choice of the rule.
#![tactic(auto)]

pub mod hints;
pub mod long;
pub mod sets;

ghost use Rattle.std.specs.Prelude.{◌≡◌, true, ◌&&◌, ◌+◌, ◌/◌, ◌<◌, ◌≤◌, eqb, length, take, option_to_list, option_map, None, Ok, IfSome, IfOk};
ghost use Rattle.lists.specs.Lists.{Pairs, insert as inserted, rising_set as rising-set-of, same};
ghost use Rattle.model.specs.Matching.{nothing_found, body_value, body_values, justifications_of, equal_plan, counts as counts_of, firing};
ghost use Rattle.program.specs.Rows.{rows_of};
ghost use Rattle.program_laws.specs.Lawful.{Lawful};
ghost use Rattle.state.specs.View.{plan_at, config_of};
ghost use Rattle.queries.specs.View.{found_in, found_of, Limits, Kept};
ghost use Rattle.matching.specs.Rules.{rows_between, reasons_in, Located, counted, Searched, ids_of, Padded, agrees_in, choice_of, Chosen};

pub use long::search_long;
use model::Row;
use queries::Bindings;
use state::{Scalars, Words};

// How many rows a rule's search may try before it goes the long way, which has tables to make first, and then leaves most rows early.
const FUEL: u32 = 100;

// A rule: its set and number, where its body begins, which is where its reasons and context end, where its body ends, and
// whether it is an object rule.
#[derive(Clone, Copy)]
pub struct Rule {
    pub set: u32,
    // kept: the new form is no plainer (the rule's own number, no kind)
    pub number: u32,
    pub body: usize,
    pub end: usize,
    pub object: bool,
}

// Four ids at most, with zeros behind.
#[derive(Clone, Copy)]
pub struct Ids {
    pub ids: [u32; 4],
    pub count: usize,
}

// The rule that fires, and what its match found.
#[derive(Clone, Copy)]
pub struct Choice {
    pub bindings: Bindings,
    pub rule: Rule,
}

// A search with fuel came to no end.
#[derive(Clone, Copy)]
pub struct GaveUp;

// A number into rising ids, once: each greater one gives way to the one before it.
#[tactic(auto, using(crate::proofs::Plans::there, crate::proofs::Plans::at_end))]
fn insert(n: u32, l: Ids) -> Ids
    requires { (l.count < 4) × Pairs (λ x y. x < y) (ids_of l) × Padded l }
    ensures is { ids_of result ≡ inserted n (ids_of l) }
    ensures few { result.count ≤ l.count + 1 }
    ensures padded { Padded result }
{
    let mut ids = l.ids;
    let count = l.count;
    let mut carried = n;
    for j in 0..count {
        let x = ids[j];
        if carried == x {
            return Ids { ids, count };
        }
        if carried < x {
            ids[j] = carried;
            carried = x;
        }
    }
    ids[count] = carried;
    Ids {
        ids,
        count: count + 1,
    }
}

// "justifications (ids its reasons matched, each once)", in rising order.
#[tactic(auto, using(crate::proofs::Plans::sorted_none, crate::proofs::Plans::sorted_rises, crate::proofs::Plans::sorted_next))]
pub fn rising_set(matched: [u32; 4], count: usize) -> Ids
    requires { count ≤ 4 }
    ensures is { ids_of result ≡ rising-set-of (take count matched) }
    ensures few { result.count ≤ count }
    ensures padded { Padded result }
{
    let mut l = Ids {
        ids: [0; 4],
        count: 0,
    };
    for j in (0..count).rev() {
        l = insert(matched[j], l);
    }
    l
}

// "the same set of justifications": plan k's.
#[tactic(auto, using(crate::proofs::Plans::same_longer, crate::proofs::Plans::same_end, crate::proofs::Plans::same_next, crate::proofs::Plans::same_not))]
fn same_justifications(words: &Words, k: usize, l: Ids) -> bool
    requires { (k < 64) × (l.count ≤ 4) }
    ensures { result ≡ same (plan_at words.now k).justifications (ids_of l) }
{
    let n = queries::candidates::justification_count(words, k);
    let ids = l.ids;
    let count = l.count;
    if n != count {
        return false;
    }
    for j in 0..count {
        if state::plan_justification(words, k, j) != ids[j] {
            return false;
        }
    }
    true
}

// "the same values of the variables in its body": of one operand.
#[tactic(auto, unfolding(model::specs::Matching::body_value), using(crate::proofs::Plans::operand_places))]
fn same_value(words: &Words, k: usize, x: u32, values: [u32; 8]) -> bool
    requires { k < 64 }
    ensures { result ≡ eqb (body_value (plan_at words.now k).values x) (body_value values x) }
{
    if x == 0 {
        return true;
    }
    if 9 <= x {
        return true;
    }
    let i = (8 - x) as usize;
    state::plan_value(words, k, i) == values[i]
}

// Of a row.
fn same_row(words: &Words, k: usize, r: Row, values: [u32; 8]) -> bool
    requires { k < 64 }
    ensures { result ≡ (eqb (body_value (plan_at words.now k).values r.i) (body_value values r.i)
        && (eqb (body_value (plan_at words.now k).values r.a) (body_value values r.a)
        && eqb (body_value (plan_at words.now k).values r.b) (body_value values r.b))) }
{
    let i = same_value(words, k, r.i, values);
    let a = same_value(words, k, r.a, values);
    let b = same_value(words, k, r.b, values);
    i & (a & b)
}

// Of the rows of a body.
#[tactic(auto, using(crate::proofs::Plans::body_end, crate::proofs::Plans::body_next, crate::proofs::Plans::body_not))]
fn same_values<'a>(
    program: &'a [u32],
    words: &'a Words,
    k: usize,
    from: usize,
    to: usize,
    values: [u32; 8],
) -> bool
    requires { (to ≤ length program.now / 8) × (k < 64) }
    ensures { result ≡ same (body_values (rows_between program.now from to) (plan_at words.now k).values)
        (body_values (rows_between program.now from to) values) }
{
    for j in from..to {
        let r = program::row_at(program, j);
        if !same_row(words, k, r, values) {
            return false;
        }
    }
    true
}

// All eight values of plan k are these.
#[tactic(auto, using(crate::proofs::Plans::agreed_values, state::proofs::View::values_long))]
fn values_agree(words: &Words, k: usize, values: [u32; 8]) -> bool
    requires { k < 64 }
    ensures { result ≡ true → (plan_at words.now k).values ≡ values }
{
    let mut same = true;
    // without a branch, as the search is through it at every step
    for i in 0..8 {
        same = same & (state::plan_value(words, k, i) == values[i]);
    }
    same
}

// "the same set and rule, the same set of justifications .. and the same values of the variables in its body": plan k.
#[tactic(auto, unfolding(model::specs::Matching::equal_plan), using(lists::proofs::Tests::same_self))]
fn equal_plan<'a>(
    program: &'a [u32],
    words: &'a Words,
    rule: Rule,
    k: usize,
    l: Ids,
    f: Bindings,
) -> bool
    requires { Located program.now rule × (k < 64) × (l.count ≤ 4) × (ids_of l ≡ justifications_of (found_of f)) }
    ensures { result ≡ equal_plan (rows_of program.now) rule.set rule.number (found_of f) (plan_at words.now k) }
{
    if state::plan_set(words, k) != rule.set {
        return false;
    }
    if state::plan_rule(words, k) != rule.number {
        return false;
    }
    if !same_justifications(words, k, l) {
        return false;
    }
    let values = f.values;
    // most often every value is the same, also of the variables that the body does not have
    if values_agree(words, k, values) {
        return true;
    }
    same_values(program, words, k, rule.body, rule.end, values)
}

// The words of plan k's justifications are these, with zeros behind: as they are where the sets are the same.
fn words_agree(words: &Words, k: usize, ids: [u32; 4]) -> bool
    requires { k < 64 }
    ensures { result ≡ agrees_in (plan_at words.now k).justifications ids }
{
    let first = state::plan_justification(words, k, 0) == ids[0];
    let second = state::plan_justification(words, k, 1) == ids[1];
    let third = state::plan_justification(words, k, 2) == ids[2];
    let fourth = state::plan_justification(words, k, 3) == ids[3];
    (first & second) & (third & fourth)
}

// "An object rule's match counts only if no live plan has the same .."
#[tactic(auto, unfolding(model::specs::Matching::counts), using(crate::proofs::Plans::some_plans))]
fn counts<'a>(program: &'a [u32], words: &'a Words, s: Scalars, rule: Rule, f: Bindings) -> bool
    requires { Located program.now rule × Limits words.now s × (f.count ≤ 4) }
    ensures { result ≡ counts_of (rows_of program.now) (config_of words.now s) rule.set rule.number (found_of f) }
{
    if !rule.object {
        return true;
    }
    let matched = f.matched;
    let l = rising_set(matched, f.count);
    let ids = l.ids;
    for k in 0..s.plans as usize {
        // most plans are raised from other atoms
        if !words_agree(words, k, ids) {
            continue;
        }
        if equal_plan(program, words, rule, k, l, f) {
            return false;
        }
    }
    true
}

// The first match of the rows from k up to the rule's body that counts, in place: `count` ids are matched before, and so many as it answers
// then. None where there is no match, and all is as it was. It gives up where `fuel` rows were tried. "Rows are tried left to right, ..
// candidates in rising id": the search calls itself on the rows that remain. A row that leaves everything as it was is tried once.
pub fn search<'a>(
    program: &'a [u32],
    words: &'a Words,
    s: Scalars,
    rule: Rule,
    k: usize,
    count: usize,
    values: &mut [u32; 8],
    matched: &mut [u32; 4],
    fuel: &mut u32,
) -> Result<Option<usize>, GaveUp>
    requires { Located program.now rule × Limits words.now s × (count + reasons_in program.now k rule.body ≤ 4) }
    ensures is { IfOk result (Searched (counted program.now words.now s rule k (found_in values.old matched.old count)) values.new matched.new) }
    ensures back { result ≡ Ok None → values.new ≡ values.old }
    ensures kept { Kept count matched.old matched.new }
{
    if *fuel == 0 {
        return Err(GaveUp);
    }
    *fuel -= 1;
    let before = *values;
    if rule.body <= k {
        let ids = *matched;
        let f = Bindings {
            values: before,
            matched: ids,
            count,
        };
        if counts(program, words, s, rule, f) {
            return Ok(Some(count));
        }
        return Ok(None);
    }
    let r = program::row_at(program, k);
    let mut c: usize = 0;
    // kept: no plainer otherwise. The place goes on from where the answer says, not by one
    while let Some(next) = queries::next_answer(words, s, r, c, before, count, values, matched) {
        let n = count + queries::given_ids(r);
        let m = search(program, words, s, rule, k + 1, n, values, matched, fuel)?;
        if let Some(found) = m {
            return Ok(Some(found));
        }
        *values = before;
        if queries::closes(r, before) {
            return Ok(None);
        }
        c = next;
    }
    Ok(None)
}

// Nothing is found yet.
#[tactic(auto, unfolding(model::specs::Configuration::no_values))]
fn nothing() -> Bindings
    ensures { (found_of result ≡ nothing_found) × (result.count ≡ 0) }
{
    Bindings {
        values: [state::NO_VALUE; 8],
        matched: [0; 4],
        count: 0,
    }
}

// "the first rule in rising number that has a match": the rule that fires, its match, and where its body stands.
pub fn choose<'a>(program: &'a [u32], words: &'a Words, s: Scalars, set: u32) -> Option<Choice>
    requires { Lawful (rows_of program.now) × Limits words.now s }
    ensures is { option_to_list (option_map choice_of result) ≡ firing (rows_of program.now) (config_of words.now s) set }
    ensures chosen { IfSome result (Chosen program.now set) }
{
    let f = nothing();
    let before = f.values;
    let mut values = before;
    let mut matched = f.matched;
    let mut chosen = None;
    let n = program.len() / 8;
    // kept: the new form is no plainer (the rule's own number, no kind)
    let mut number: u32 = 1;
    let mut start = spans::first_from(program, set, 1, 1);
    // kept: no plainer otherwise. The next rule begins where this one ends
    'rules: while start < n {
        let r = program::row_at(program, start);
        if r.set != set {
            break 'rules;
        }
        let context = spans::part_end(program, start, set, number, 1);
        let body = spans::part_end(program, context, set, number, 2);
        let end = spans::part_end(program, body, set, number, 3);
        let rule = Rule {
            set,
            number,
            body,
            end,
            object: start < context,
        };
        // with no row to try it matches as it is
        if body <= start {
            chosen = Some(Choice { bindings: f, rule });
            break 'rules;
        }
        let once = queries::closes(r, before);
        let mut fuel = FUEL;
        let mut from: usize = 0;
        // kept: no plainer otherwise. The place goes on from where the answer says, not by one
        'candidates: while let Some(next) = queries::next_answer(
            words,
            s,
            r,
            from,
            before,
            0,
            &mut values,
            &mut matched,
        ) {
            let ids = queries::given_ids(r);
            match search(
                program,
                words,
                s,
                rule,
                start + 1,
                ids,
                &mut values,
                &mut matched,
                &mut fuel,
            ) {
                Ok(Some(count)) => {
                    chosen = Some(Choice {
                        bindings: Bindings {
                            values,
                            matched,
                            count,
                        },
                        rule,
                    });
                    break 'rules;
                }
                Ok(None) => {}
                Err(GaveUp) => {
                    values = before;
                    let Some(count) = long::search_on(
                        program,
                        words,
                        s,
                        rule,
                        start,
                        from,
                        &mut values,
                        &mut matched,
                    ) else {
                        break 'candidates;
                    };
                    chosen = Some(Choice {
                        bindings: Bindings {
                            values,
                            matched,
                            count,
                        },
                        rule,
                    });
                    break 'rules;
                }
            }
            values = before;
            if once {
                break 'candidates;
            }
            from = next;
        }
        number += 1;
        start = end;
    }
    chosen
}
