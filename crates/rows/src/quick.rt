// The quick way to see that a row passes: by its set, its part and its op, the likeliest first. It proves that rows pass and never that one
// is refused, so each test may say no to what it does not look at.
ghost use Rattle.std.specs.Prelude.{◌≡◌, true, ◌≢◌, List, [], ℕ, ◌+◌, ◌≤◌, length, replicate, IfSome};
ghost use Rattle.lists.specs.Lists.{bit as bit-of};
ghost use Rattle.model.specs.Load.{lacking as is-lacking, begun as as-begun, give as given-one, gives as given-all, with_ceiling, taken as after_row, at_first};
ghost use Rattle.rows.specs.Scanning.{scan_at};
ghost use Rattle.rows.specs.Quickly.{Low, Bounded, Placed, KnownAtom, KnownInstance, Stepping, Acting, Fitting, FitsRule, FitsSet0, Passes};

use model::Row;

// Where a load stands after the rows so far: as the model's `Scan`, but for the count, the valued variables and the ceilings, which stand
// beside it.
#[derive(Clone, Copy)]
pub struct Place {
    pub set: u32,
    pub rule: u32,
    pub part: u32,
    pub reasons: u32,
    pub context: u32,
    pub body: u32,
    pub atoms: u32,
    pub object: bool,
}

// The place before the first row.
#[tactic(auto, unfolding(model::specs::Load::at_first))]
pub fn at_first() -> Place
    ensures { scan_at result 0 (replicate 9 0) (replicate 256 0) ≡ at_first }
{
    Place {
        set: 0,
        rule: 0,
        part: 0,
        reasons: 0,
        context: 0,
        body: 0,
        atoms: 0,
        object: false,
    }
}

// "one row at least in parts 1 and 2 together. With reasons it is an object rule, otherwise a meta rule with a body of one row or more."
pub fn lacking(s: Place) -> bool
    ensures { result ≡ is-lacking (scan_at s 0 [] []) }
{
    (1 <= s.set) & (s.reasons == 0) & ((s.context == 0) | (s.body == 0))
}

// The first row of the next rule, of its set's kind, or of the next set.
fn begins(s: Place, r: Row) -> bool
    requires { Low s }
    ensures { result ≡ true → (k : ℕ) (v c : List ℕ) → Placed (scan_at s k v c) r }
{
    if lacking(s) {
        return false;
    }
    if r.set == s.set {
        let next = s.rule + 1;
        return (1 <= s.set) & ((r.rule == next) & ((r.rule <= 32) & (s.object == (r.part == 1))));
    }
    let next = s.set + 1;
    (r.set == next) & ((r.rule == 1) & (r.set <= 8))
}

// A row in its place: of the rule of the last row and not before its part, or one that begins a rule.
fn follows(s: Place, r: Row) -> bool
    requires { Low s }
    ensures { result ≡ true → (k : ℕ) (v c : List ℕ) → Placed (scan_at s k v c) r }
{
    if crate::same_rule(s, r) {
        return s.part <= r.part;
    }
    begins(s, r)
}

// The place as the row finds it. "A rule whose first row is of part 2 or 3 counts as meta from that row."
#[tactic(auto, unfolding(model::specs::Load::begun))]
pub fn begun(s: Place, valued: &mut [u8; 9], r: Row) -> Place
    ensures { (k : ℕ) (c : List ℕ) → scan_at result k valued.new c ≡ as-begun (scan_at s k valued.old c) r }
{
    if crate::same_rule(s, r) {
        return s;
    }
    *valued = [0u8; 9];
    Place {
        set: r.set,
        rule: r.rule,
        part: 0,
        reasons: 0,
        context: 0,
        body: 0,
        atoms: s.atoms,
        object: r.part == 1,
    }
}

// An atom by constants and variables that have values.
fn names_known(valued: &[u8; 9], r: Row) -> bool
    ensures { result ≡ true → KnownAtom valued.now r }
{
    crate::names_atom(r) && !crate::new_variable(valued, r.a) && !crate::new_variable(valued, r.b)
}

// An instance by a variable that has a value.
fn finds_known(valued: &[u8; 9], r: Row) -> bool
    ensures { result ≡ true → KnownInstance valued.now r }
{
    crate::names_instance(r) && !crate::new_variable(valued, r.i)
}

// A step of a plan, none of whose variables lacks a value.
#[tactic(auto, unfolding(model::specs::Load::plan_step, model::specs::Load::new_variable))]
fn is_step(valued: &[u8; 9], r: Row) -> bool
    ensures { result ≡ true → Stepping valued.now r }
{
    match r.op {
        31..=33 => (r.i == 9) && names_known(valued, r),
        34 | 36 => (r.i == 0) && names_known(valued, r),
        35 => (r.a == 9) && finds_known(valued, r),
        _ => false,
    }
}

// An action of a meta rule, none of whose variables lacks a value; the i of 21 takes one.
#[tactic(auto, unfolding(model::specs::Load::action, model::specs::Load::new_variable))]
fn is_action(valued: &[u8; 9], r: Row) -> bool
    ensures { result ≡ true → Acting valued.now r }
{
    match r.op {
        21 => names_known(valued, r) && ((r.i == 0) || crate::new_variable(valued, r.i)),
        22 | 25 => (r.a == 9) && finds_known(valued, r),
        23 | 24 => (10 <= r.a) && (r.a <= 25) && finds_known(valued, r),
        _ => false,
    }
}

// A row that its rule has room for and that fits its part.
#[tactic(auto, unfolding(model::specs::Load::rule_row, model::specs::Load::valueless))]
fn fits_rule(t: Place, valued: &[u8; 9], r: Row) -> bool
    ensures { result ≡ true → (k : ℕ) (c : List ℕ) → Fitting (scan_at t k valued.now c) r }
{
    match r.part {
        1 => (t.reasons < 4) && (r.op == 1) && (1 <= r.p),
        2 => (t.context < 6) && (!t.object || (r.op <= 2)) && crate::query(r),
        3 if t.object => (t.body < 8) && is_step(valued, r),
        3 => (t.body < 8) && is_action(valued, r),
        _ => false,
    }
}

#[tactic(auto, unfolding(model::specs::Load::give))]
fn give(valued: &mut [u8; 9], x: u32)
    ensures { valued.new ≡ given-one x valued.old }
{
    if (1 <= x) & (x <= 8) {
        valued[x as usize] = 1;
    }
}

// "a variable given a value by a reason, a positive context row or an earlier 21"
#[tactic(auto, unfolding(model::specs::Load::gives))]
pub fn gives(valued: &mut [u8; 9], r: Row)
    ensures { valued.new ≡ given-all r valued.old }
{
    if 14 < r.op {
        if r.op == 21 {
            give(valued, r.i);
        }
        return;
    }
    if r.op % 2 == 0 {
        return;
    }
    give(valued, r.b);
    give(valued, r.a);
    give(valued, r.i);
}

fn bit(b: bool) -> u32
    ensures { (result ≡ bit-of b) × (result ≤ 1) }
{
    b as u32
}

// The place after a row.
#[tactic(auto, unfolding(model::specs::Load::taken))]
pub fn counted(t: Place, r: Row) -> Place
    requires { Low t }
    ensures { (k : ℕ) (v c : List ℕ) → scan_at result (k + 1) (given-all r v) (with_ceiling r c) ≡ after_row (scan_at t k v c) r }
{
    Place {
        set: r.set,
        rule: r.rule,
        part: r.part,
        reasons: t.reasons + bit(r.part == 1),
        context: t.context + bit(r.part == 2),
        body: t.body + bit(r.part == 3),
        atoms: t.atoms + bit((r.set == 0) & (r.op == 41)),
        ..t
    }
}

// A row of a rule.
fn in_rule(t: Place, valued: &mut [u8; 9], r: Row) -> Option<Place>
    requires { Low t × (r.set ≢ 0) }
    ensures { IfSome result (λ u. FitsRule t valued.old r u valued.new) }
{
    if !fits_rule(t, valued, r) {
        return None;
    }
    gives(valued, r);
    Some(counted(t, r))
}

// A row of set 0: "op 41 an initial atom p, a, b" or a ceiling, with "rule 0, part 0".
fn in_set_0(t: Place, ceilings: &mut [u8; 256], r: Row) -> Option<Place>
    requires { Low t × (r.set ≡ 0) × (r.p ≤ 255) }
    ensures { IfSome result (λ u. FitsSet0 t ceilings.old r u ceilings.new) }
{
    if !((r.rule == 0) & (r.part == 0) & (1 <= r.p) & (r.i == 9)) {
        return None;
    }
    let fits = if r.op == 41 {
        (9 <= r.a) & (9 <= r.b) & (t.atoms < 256)
    } else {
        crate::ceiling_row(ceilings, r)
    };
    if !fits {
        return None;
    }
    crate::mark_ceiling(ceilings, r);
    Some(counted(t, r))
}

// "p runs 0 to 255", "i, a, b from -9"; the other columns are smaller in every row that passes.
fn is_bounded(r: Row) -> bool
    ensures { result ≡ true → Bounded r }
{
    (r.i <= 65544) & (r.a <= 65544) & (r.b <= 65544) & (r.p <= 255)
}

// The tests on a row in the order that decides soonest: most rows of a program pass them.
pub fn quick_row(s: Place, valued: &mut [u8; 9], ceilings: &mut [u8; 256], r: Row) -> Option<Place>
    requires { Low s }
    ensures long { length valued.new ≡ 9 }
    ensures passed { IfSome result (λ u. Passes s valued.old ceilings.old r u valued.new ceilings.new) }
{
    if !is_bounded(r) {
        return None;
    }
    if !follows(s, r) {
        return None;
    }
    let t = begun(s, valued, r);
    if r.set == 0 {
        return in_set_0(t, ceilings, r);
    }
    in_rule(t, valued, r)
}
