// The tests on the rows of a program, in the order 5, 3, 4. Most are made of `&`, `|` and `!`, which the model's `&&`, `||` and `not`
// are; those that lead to others by the row's set or part take that way alone, since every call tests its program.
#![tactic(auto)]

pub mod quick;

ghost use Rattle.std.specs.Prelude.{◌≡◌, true, List, [], ℕ, ◌≤◌, length, replicate};
ghost use Rattle.model.specs.Load.{same_rule, lacking as is-lacking, part_full, too_many, in_order, atom_row, ceiling_row, set_0_row, query as is-query, names_atom, names_instance, new_variable, action as is-action, plan_step, begun as as-begun, rule_row, against_kind, breaks as is-breaking, valueless as is_valueless, with_ceiling, taken as after_row, fault as fault-of, take_row, at_first};
ghost use Rattle.model.specs.Refusals.{RefusedBy};
ghost use Rattle.model.specs.Render.{in_range};
ghost use Rattle.rows.specs.Scanning.{scan_at, whole, Small, verdict_of};
ghost use Rattle.rows.specs.Quickly.{Low};

use model::{LoadError, Refusal, Row};
use quick::Place;

// Where a load stands after the rows so far, but for the ceilings: as the model's `Scan`. The ceilings are lent beside it, a 1 at each
// predicate that has one.
#[derive(Clone, Copy)]
pub struct RuleScan {
    pub count: u32,
    pub place: Place,
    pub valued: [u8; 9],
}

fn same_rule(s: Place, r: Row) -> bool
    ensures { result ≡ same_rule (scan_at s 0 [] []) r }
{
    (r.set == s.set) & (r.rule == s.rule)
}

pub fn lacking(s: RuleScan) -> bool
    ensures { result ≡ is-lacking (whole s []) }
{
    quick::lacking(s.place)
}

// "up to 4 rows of part 1 (reasons), 6 of part 2 (context), 8 of part 3 (body)"
fn part_full(s: Place, r: Row) -> bool
    ensures { result ≡ part_full (scan_at s 0 [] []) r }
{
    (r.part == 1) & (4 <= s.reasons)
        | (r.part == 2) & (6 <= s.context)
        | (r.part == 3) & (8 <= s.body)
}

// 5: "set over 8, rule over 32, too many rows (in all or of a part) or initial atoms"
#[tactic(auto, unfolding(model::specs::Load::too_many))]
fn too_many(s: RuleScan, r: Row) -> bool
    ensures { result ≡ too_many (whole s []) r }
{
    (8 < r.set)
        | (32 < r.rule)
        | (512 <= s.count)
        | same_rule(s.place, r) & part_full(s.place, r)
        | (r.set == 0) & (r.op == 41) & (256 <= s.place.atoms)
}

// 3: "both numbered from 1 without gaps, rows by set, rule, part"
fn in_order(s: Place, r: Row) -> bool
    requires { Low s }
    ensures { result ≡ in_order (scan_at s 0 [] []) r }
{
    let next_set = s.set + 1;
    let next_rule = s.rule + 1;
    same_rule(s, r) & (s.part <= r.part)
        | (r.set == s.set) & (1 <= s.set) & (r.rule == next_rule)
        | (r.set == next_set) & (r.rule == 1)
}

// 3: "op 41 an initial atom p, a, b", "constants only"
fn atom_row(r: Row) -> bool
    ensures { result ≡ atom_row r }
{
    (r.op == 41) & (9 <= r.a) & (9 <= r.b)
}

// 3: "op 40 a ceiling, at most one per predicate", "a (1 to 65,535) is taken as predicate b (1 to 255)"
fn ceiling_row(ceilings: &[u8; 256], r: Row) -> bool
    requires { r.p ≤ 255 }
    ensures { result ≡ ceiling_row (record at_first { ceilings = ceilings.now }) r }
{
    let ceiling = ceilings[r.p as usize];
    (r.op == 40) & ((10 <= r.a) & (r.a <= 65544)) & ((10 <= r.b) & (r.b <= 264)) & (ceiling == 0)
}

// 3: "Set 0 rows have rule 0, part 0"
fn set_0_row(ceilings: &[u8; 256], r: Row) -> bool
    requires { r.p ≤ 255 }
    ensures { result ≡ set_0_row (record at_first { ceilings = ceilings.now }) r }
{
    (r.rule == 0)
        & (r.part == 0)
        & (1 <= r.p)
        & (r.i == 9)
        & (atom_row(r) | ceiling_row(ceilings, r))
}

// 3: "Queries: 1 atom (i, p, a, b); 3 plan (i, a set, b rule); 5 remainder (i, a steps left); 7 justification (i plan, a atom);
// 9 subgoal (i plan, a atom); 11 state (i, a a constant flag 1 to 16); 13 cycle (a). Op + 1 is the negation."
// A `match` on the op makes the quick way through a program a fifth slower.
fn query(r: Row) -> bool
    ensures is { result ≡ is-query r }
    ensures low { result ≡ true → r.op ≤ 14 }
{
    if r.op <= 2 {
        return (1 <= r.op) & (1 <= r.p);
    }
    if r.p != 0 {
        return false;
    }
    if r.op <= 4 {
        return true;
    }
    if r.b != 9 {
        return false;
    }
    if r.op <= 10 {
        return true;
    }
    if r.op <= 12 {
        return (10 <= r.a) & (r.a <= 25);
    }
    (r.op <= 14) & (r.i == 9)
}

// "Each other body operand that is used is a constant or a variable": no any
fn names_atom(r: Row) -> bool
    ensures { result ≡ names_atom r }
{
    (1 <= r.p) & !(r.a == 0) & !(r.b == 0)
}

fn names_instance(r: Row) -> bool
    ensures { result ≡ names_instance r }
{
    !(r.i == 0) & (r.p == 0) & (r.b == 9)
}

// A variable that has no value yet.
#[tactic(auto, unfolding(model::specs::Load::new_variable))]
pub fn new_variable(valued: &[u8; 9], x: u32) -> bool
    ensures { result ≡ new_variable valued.now x }
{
    (1 <= x) && (x <= 8) && (valued[x as usize] == 0)
}

// 3: "Actions of meta rules: 21 add-atom p, a, b, its id going to variable i, which has no value yet, or i = -9; 22 delete-atom i;
// 23 set and 24 clear flag a (constant 1 to 16) of plan i; 25 delete-plan i."
#[tactic(auto, unfolding(model::specs::Load::action))]
fn action(s: RuleScan, r: Row) -> bool
    ensures { result ≡ is-action (whole s []) r }
{
    (r.op == 21) & names_atom(r) & ((r.i == 0) | new_variable(&s.valued, r.i))
        | ((r.op == 22) | (r.op == 25)) & names_instance(r) & (r.a == 9)
        | (23 <= r.op) & (r.op <= 24) & names_instance(r) & ((10 <= r.a) & (r.a <= 25))
}

// 3: "Steps of plans: 31 external action p(a, b); 32 test that some atom p(a, b) is alive; 33 test that none is; 34 add-atom;
// 35 delete-atom i; 36 subgoal p(a, b). In 34 and 36 i is -9."
#[tactic(auto, unfolding(model::specs::Load::plan_step))]
fn plan_step(r: Row) -> bool
    ensures { result ≡ plan_step r }
{
    (31 <= r.op) & (r.op <= 33) & names_atom(r) & (r.i == 9)
        | ((r.op == 34) | (r.op == 36)) & names_atom(r) & (r.i == 0)
        | (r.op == 35) & names_instance(r) & (r.a == 9)
}

// 3: "Reasons use 1; an object rule's context 1 and 2; a meta rule's context 1 to 14."
#[tactic(auto, unfolding(model::specs::Load::rule_row))]
fn rule_row(s: RuleScan, r: Row) -> bool
    ensures { result ≡ rule_row (whole s []) r }
{
    match r.part {
        1 => (r.op == 1) & query(r),
        2 => query(r) & (!s.place.object | (r.op <= 2)),
        3 if s.place.object => plan_step(r),
        3 => action(s, r),
        _ => false,
    }
}

// 3: "A set holds one kind, that of its first rule; a row against it is 3."
fn against_kind(s: Place, r: Row) -> bool
    ensures { result ≡ against_kind (scan_at s 0 [] []) r }
{
    (r.set == s.set) & !same_rule(s, r) & (s.object != (r.part == 1))
}

// The scan as the row finds it. "A rule whose first row is of part 2 or 3 counts as meta from that row."
pub fn begun(s: RuleScan, r: Row) -> RuleScan
    ensures { (c : List ℕ) → whole result c ≡ as-begun (whole s c) r }
{
    let mut valued = s.valued;
    let place = quick::begun(s.place, &mut valued, r);
    RuleScan { place, valued, ..s }
}

// 3: "row breaks a rule of its op, part or order"; s is the scan before the row, t as the row finds it
#[tactic(auto, unfolding(model::specs::Load::breaks, model::specs::Load::rule_row, model::specs::Load::action))]
fn breaks(s: RuleScan, t: RuleScan, ceilings: &[u8; 256], r: Row) -> bool
    requires { Small (whole s []) × (r.p ≤ 255) }
    ensures { result ≡ is-breaking (whole s ceilings.now) (whole t ceilings.now) r }
{
    if !in_order(s.place, r) {
        return true;
    }
    if against_kind(s.place, r) {
        return true;
    }
    if r.set == 0 {
        return !set_0_row(ceilings, r);
    }
    !rule_row(t, r)
}

// 4: "body variable without value"
#[tactic(auto, unfolding(model::specs::Load::valueless))]
fn valueless(s: RuleScan, r: Row) -> bool
    ensures { result ≡ is_valueless (whole s []) r }
{
    if r.part != 3 {
        return false;
    }
    new_variable(&s.valued, r.a)
        | new_variable(&s.valued, r.b)
        | !(r.op == 21) & new_variable(&s.valued, r.i)
}

#[tactic(auto, unfolding(model::specs::Load::with_ceiling))]
fn mark_ceiling(ceilings: &mut [u8; 256], r: Row)
    requires { r.p ≤ 255 }
    ensures { ceilings.new ≡ with_ceiling r ceilings.old }
{
    if (r.set == 0) & (r.op == 40) {
        ceilings[r.p as usize] = 1;
    }
}

// The scan after the row.
fn taken(s: RuleScan, r: Row) -> RuleScan
    requires { Small (whole s []) }
    ensures { (c : List ℕ) → whole result (with_ceiling r c) ≡ after_row (whole s c) r }
{
    let mut valued = s.valued;
    quick::gives(&mut valued, r);
    RuleScan {
        count: s.count + 1,
        place: quick::counted(s.place, r),
        valued,
    }
}

// "on each 2, 5, 3, 4": the refusal that a readable row meets.
#[tactic(auto, unfolding(model::specs::Load::fault, model::specs::Load::too_many, model::specs::Load::valueless))]
fn fault(s: RuleScan, t: RuleScan, ceilings: &[u8; 256], r: Row) -> Result<(), Refusal>
    requires { Small (whole s []) × (r.p ≤ 255) }
    ensures { RefusedBy (fault-of (whole s ceilings.now) (whole t ceilings.now) r) result }
{
    if too_many(s, r) {
        return Err(Refusal::TooMany);
    }
    if breaks(s, t, ceilings, r) {
        return Err(Refusal::Row);
    }
    if valueless(t, r) {
        return Err(Refusal::Valueless);
    }
    Ok(())
}

// The tests on a readable row: the scan after it, or the refusal with its line. "a rule lacking rows is 3 at its last line, found when a
// readable row of another rule or the end of the text follows"
#[tactic(auto, unfolding(model::specs::Load::take_row, crate::specs::Scanning::verdict_of))]
pub fn take_row(s: RuleScan, ceilings: &mut [u8; 256], r: Row) -> Result<RuleScan, LoadError>
    requires { Small (whole s ceilings.old) × (r.p ≤ 255) }
    ensures { verdict_of result ceilings.new ≡ take_row (whole s ceilings.old) r }
{
    let left_lacking = lacking(s) & !same_rule(s.place, r);
    if left_lacking {
        return Err(LoadError {
            refusal: Refusal::Row,
            line: s.count + 1,
        });
    }
    let t = begun(s, r);
    let line = s.count + 2;
    fault(s, t, ceilings, r).map_err(|refusal| LoadError { refusal, line })?;
    mark_ceiling(ceilings, r);
    Ok(taken(t, r))
}

// The scan before the first row, when no predicate has a ceiling.
pub fn at_first() -> RuleScan
    ensures { whole result (replicate 256 0) ≡ at_first }
{
    RuleScan {
        count: 0,
        place: quick::at_first(),
        valued: [0u8; 9],
    }
}

// "p runs 0 to 255; the others 0 to 65,535, but i, a, b from -9"
#[tactic(auto, unfolding(model::specs::Render::in_range))]
pub fn in_range(r: Row) -> bool
    ensures { result ≡ in_range r }
{
    (r.set <= 65535)
        & (r.rule <= 65535)
        & (r.part <= 65535)
        & (r.op <= 65535)
        & (r.i <= 65544)
        & (r.p <= 255)
        & (r.a <= 65544)
        & (r.b <= 65544)
}
