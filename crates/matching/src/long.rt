// The long way of a search, to its end: tables made first, later rows asked before their turn, and failures that are remembered with what they
// hang on.
ghost use Rattle.std.specs.Prelude.{◌≡◌, ◌⊎◌, ◌+◌, ◌<◌, ◌≤◌, None, IfSome, IfErr};
ghost use Rattle.lists.specs.Lists.{bind};
ghost use Rattle.program.specs.Rows.{row_at};
ghost use Rattle.nogoods.specs.Nogoods.{nogood, Replaced};
ghost use Rattle.queries.specs.View.{found_in, Limits, Kept};
ghost use Rattle.queries.specs.Answers.{answers};
ghost use Rattle.filters.specs.Filters.{Marked};
ghost use Rattle.matching.specs.Rules.{reasons_in, Located, counted, Searched};
ghost use Rattle.matching.specs.Sets.{OfBody, Barren, Remembered, LongSearched};

use crate::{Rule, counts, hints, sets};
use queries::Bindings;
use state::{Scalars, Words};

// Whether a later row settles it: the set on which it hangs that some row of the list has no answer. The list holds rows by how many are to go
// from them on, four bits each. A row all of whose operands have values answers now as it will when its turn comes, since what has a
// value keeps it: so where it has no answer, none of the rows before it need be tried.
fn ask_later<'a>(
    program: &'a [u32],
    words: &'a Words,
    s: Scalars,
    rule: Rule,
    k: usize,
    list: u32,
    count: usize,
    values: &mut [u32; 8],
    matched: &mut [u32; 4],
    filter: &'a [u8; filters::SIZE],
) -> Option<u32>
    requires { Located program.now rule × Limits words.now s × (k < rule.body) × (count ≤ 4) × Marked words.now s.atoms filter.now }
    ensures is { IfSome result (Barren program.now words.now s rule k (found_in values.old matched.old count)) }
    ensures back { values.new ≡ values.old }
    ensures kept { Kept count matched.old matched.new }
{
    let before = *values;
    let body = rule.body;
    let mut left = list;
    // kept: no plainer otherwise. The list ends where no row is left in it, and its length stands nowhere
    while left != 0 {
        let j = (left % 16) as usize;
        if body - k <= j {
            return None;
        }
        if j == 0 {
            return None;
        }
        let r = program::row_at(program, body - j);
        if sets::is_settled(r, &before) {
            if filters::next_answer(
                words, s, r, 0, before, count, values, matched, filter,
            ).is_none()
            {
                return Some(sets::operands(r));
            }
            *values = before;
        }
        left = left / 16;
    }
    None
}

// What is known before the rows from k on are tried: the set on which their failure hangs. A nogood says it, or a later row.
fn glance<'a>(
    program: &'a [u32],
    words: &'a Words,
    s: Scalars,
    rule: Rule,
    k: usize,
    // kept: the new form is no plainer (a set, a bit and a list in one number of a table; a struct would be taken apart and put together)
    hint: u32,
    count: usize,
    values: &mut [u32; 8],
    matched: &mut [u32; 4],
    hints: &mut [u32],
    known: &'a [u32; nogoods::SIZE],
    filter: &'a [u8; filters::SIZE],
) -> Option<u32>
    requires { Located program.now rule × Limits words.now s × (k < rule.body) × (count ≤ 4) × Remembered program.now words.now s rule known.now × Marked words.now s.atoms filter.now }
    ensures is { IfSome result (Barren program.now words.now s rule k (found_in values.old matched.old count)) }
    ensures back { values.new ≡ values.old }
    ensures kept { Kept count matched.old matched.new }
{
    if hint / hints::NOGOOD % 2 == 1 {
        let before = *values;
        let ids = *matched;
        if let Some(set) = nogoods::recall(known, rule.body - k, hint, before, count, ids) {
            return Some(set);
        }
    }
    if hint < hints::LIST {
        return None;
    }
    let set = ask_later(
        program,
        words,
        s,
        rule,
        k,
        hint / hints::LIST,
        count,
        values,
        matched,
        filter,
    );
    hints::charge(hints, set.is_some());
    set
}

// The set on which a failure hangs, noted where the hint says that it may be met again.
fn learn(
    known: &mut [u32; nogoods::SIZE],
    hint: Option<u32>,
    rest: usize,
    set: u32,
    values: [u32; 8],
    count: usize,
    ids: [u32; 4],
) -> u32
    requires { IfSome hint (λ _. rest < 16) × (count ≤ 4) }
    ensures is { result ≡ set }
    ensures noted { (known.new ≡ known.old) ⊎ Replaced known.old known.new (nogood rest set values count ids) }
{
    let Some(hint) = hint else {
        return set;
    };
    if hint / hints::NOGOOD % 2 == 1 {
        nogoods::note(known, rest, hint, set, values, count, ids);
    }
    set
}

// The first match that counts where a search is long, to its end: the ids that are matched then, or the set on which its failure hangs, and all
// is as it was. `body` is what it hangs on whether a match counts; `known` are nogoods of the same rule, `filter` is that of the atoms. A row
// that changes nothing of what a failure hangs on is left at once: its other answers would fail alike.
pub fn search_long<'a>(
    program: &'a [u32],
    words: &'a Words,
    s: Scalars,
    rule: Rule,
    k: usize,
    count: usize,
    values: &mut [u32; 8],
    matched: &mut [u32; 4],
    body: u32,
    hints: &mut [u32],
    known: &mut [u32; nogoods::SIZE],
    filter: &'a [u8; filters::SIZE],
) -> Result<usize, u32>
    requires { Located program.now rule × Limits words.now s × (count + reasons_in program.now k rule.body ≤ 4) × OfBody program.now rule.body rule.end body × Remembered program.now words.now s rule known.old × Marked words.now s.atoms filter.now }
    ensures is { LongSearched program.now words.now s rule k (found_in values.old matched.old count) values.new matched.new result }
    ensures back { IfErr result (λ _. values.new ≡ values.old) }
    ensures kept { Kept count matched.old matched.new }
    ensures learnt { Remembered program.now words.now s rule known.new }
{
    let before = *values;
    if rule.body <= k {
        let ids = *matched;
        let f = Bindings {
            values: before,
            matched: ids,
            count,
        };
        if counts(program, words, s, rule, f) {
            return Ok(count);
        }
        return Err(body);
    }
    let rest = rule.body - k;
    let hint = hints::hint_at(hints, rest);
    if let Some(hint) = hint {
        if let Some(set) = glance(
            program, words, s, rule, k, hint, count, values, matched, hints, known, filter,
        ) {
            return Err(set);
        }
    }
    let r = program::row_at(program, k);
    let mut blame = sets::operands(r);
    if filters::is_barred(filter, r, &before) {
        let ids = *matched;
        return Err(learn(known, hint, rest, blame, before, count, ids));
    }
    let mut gives: Option<u32> = None;
    let mut c: usize = 0;
    // kept: no plainer otherwise. The place goes on from where the answer says, not by one
    while let Some(next) = queries::next_answer(words, s, r, c, before, count, values, matched) {
        let n = count + queries::given_ids(r);
        let m = match search_long(
            program,
            words,
            s,
            rule,
            k + 1,
            n,
            values,
            matched,
            body,
            hints,
            known,
            filter,
        ) {
            Ok(found) => return Ok(found),
            Err(set) => set,
        };
        *values = before;
        let given = sets::asked(gives, r, &before);
        gives = Some(given);
        if sets::are_apart(m, given) {
            let ids = *matched;
            return Err(learn(known, hint, rest, m, before, count, ids));
        }
        blame = sets::union(blame, m);
        c = next;
    }
    let ids = *matched;
    Err(learn(known, hint, rest, blame, before, count, ids))
}

// A rule's search gone on with, the long way: by the answers of its first row, row k, from number `from` on. The ids that are matched then, if
// there is a match.
fn search_rest<'a>(
    program: &'a [u32],
    words: &'a Words,
    s: Scalars,
    rule: Rule,
    k: usize,
    from: usize,
    values: &mut [u32; 8],
    matched: &mut [u32; 4],
) -> Option<usize>
    requires { Located program.now rule × Limits words.now s × (k < rule.body) × (reasons_in program.now k rule.body ≤ 4) }
    ensures is { Searched (bind (answers words.now s (row_at program.now k) (found_in values.old matched.old 0) from) (counted program.now words.now s rule (k + 1))) values.new matched.new result }
    ensures back { result ≡ None → values.new ≡ values.old }
{
    let before = *values;
    let body = sets::of_body(program, rule.body, rule.end);
    let mut hints = hints::of_rule(program, words, s, k, rule.body);
    let mut known: [u32; nogoods::SIZE] = [0; nogoods::SIZE];
    let filter = filters::of_atoms(words, s.atoms);
    let r = program::row_at(program, k);
    let gives = sets::changed(r, &before);
    let n = queries::given_ids(r);
    let mut c = from;
    // kept: no plainer otherwise. The place goes on from where the answer says, not by one
    while let Some(next) = filters::next_answer(
        words, s, r, c, before, 0, values, matched, &filter,
    ) {
        let m = match search_long(
            program,
            words,
            s,
            rule,
            k + 1,
            n,
            values,
            matched,
            body,
            &mut hints,
            &mut known,
            &filter,
        ) {
            Ok(found) => return Some(found),
            Err(set) => set,
        };
        *values = before;
        if sets::are_apart(m, gives) {
            return None;
        }
        c = next;
    }
    None
}

// The same. A first row that leaves everything as it was needs one answer: then the search is that of the rows behind it.
pub fn search_on<'a>(
    program: &'a [u32],
    words: &'a Words,
    s: Scalars,
    rule: Rule,
    k: usize,
    from: usize,
    values: &mut [u32; 8],
    matched: &mut [u32; 4],
) -> Option<usize>
    requires { Located program.now rule × Limits words.now s × (k < rule.body) × (reasons_in program.now k rule.body ≤ 4) }
    ensures is { Searched (bind (answers words.now s (row_at program.now k) (found_in values.old matched.old 0) from) (counted program.now words.now s rule (k + 1))) values.new matched.new result }
    ensures back { result ≡ None → values.new ≡ values.old }
{
    let before = *values;
    let r = program::row_at(program, k);
    if from != 0 {
        return search_rest(program, words, s, rule, k, from, values, matched);
    }
    if rule.body <= k + 1 {
        return search_rest(program, words, s, rule, k, from, values, matched);
    }
    if !queries::closes(r, before) {
        return search_rest(program, words, s, rule, k, from, values, matched);
    }
    queries::next_answer(words, s, r, 0, before, 0, values, matched)?;
    *values = before;
    search_on(program, words, s, rule, k + 1, 0, values, matched)
}
