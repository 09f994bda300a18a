// Why a row is refused: the limit, the rule or the variable, so that a setter can mend the line.
#![tactic(auto)]

ghost use Rattle.std.specs.Prelude.{◌≡◌, true, false, ◌≤◌};
ghost use Rattle.model.specs.Load.{too_many, lacking, against_kind, breaks, valueless};
ghost use Rattle.rows.specs.Scanning.{Small};
ghost use Rattle.causes.specs.Checking.{InSetZero, Checks, Ordered, Stands, Unused, Given, Used, New, Constants, Faultless};
ghost use Rattle.causes.specs.Causes.{Exceeds, Lacks, Breaches, LacksValue, place_of, may_stand, must_be_predicate, must_be_flag, must_be_zero, must_be_given, names_atom, names_instance};

use model::{Row, Scan};

// 5: the limit that is exceeded.
#[derive(Clone, Copy)]
pub enum Limit {
    Set(u32),
    Rule(u32),
    Rows,
    Part(u32),
    Atoms,
}

// 3: what the rule of the last row lacks: a row of part 1 or 2, or a body.
#[derive(Clone, Copy)]
pub enum Lack {
    Condition,
    Body,
}

// Where a row stands: in set 0, among reasons, in the context or the body of a rule.
#[derive(Clone, Copy)]
pub enum Section {
    SetZero,
    Reasons,
    ObjectContext,
    MetaContext,
    ObjectBody,
    MetaBody,
}

// 3: the rule of op, part or order that a row breaks.
// kept: (d) columns by their number in the line: `explain` counts them, and the number is printed; an enum would be made from it and back
#[derive(Clone, Copy)]
pub enum Breach {
    SetOrder { last: u32, set: u32 },
    FirstRule { set: u32, rule: u32 },
    RuleOrder { last: u32, rule: u32 },
    PartOrder { last: u32, part: u32 },
    Kind { object: bool },
    SetZero(u32),
    NoPart(u32),
    Op { op: u32, place: Section },
    SecondCeiling(u32),
    NotZero { op: u32, column: u32 },
    NoPredicate(u32),
    NoFlag(u32),
    NoValue { op: u32, column: u32 },
    NotAny(u32),
    NotNew,
    NoConstant(u32),
    NoThreshold,
    NoCeiling,
}

// 4: the variable, 1 to 8, and the column that it stands in.
#[derive(Clone, Copy)]
pub struct Unvalued {
    pub column: u32,
    pub variable: u32,
}

// 5: "set over 8, rule over 32, too many rows (in all or of a part) or initial atoms"
#[tactic(auto, using(crate::proofs::Tests::part_left))]
pub fn limit_of(s: Scan, r: Row) -> Limit
    requires { too_many s r ≡ true }
    ensures { Exceeds s r result }
{
    if 8 < r.set {
        return Limit::Set(r.set);
    }
    if 32 < r.rule {
        return Limit::Rule(r.rule);
    }
    if 512 <= s.count {
        return Limit::Rows;
    }
    let initial = (r.set == 0) & (r.op == 41) & (256 <= s.atoms);
    if initial {
        return Limit::Atoms;
    }
    Limit::Part(r.part)
}

// 3: "a rule lacking rows"
#[tactic(auto, using(crate::proofs::Tests::in_a_rule, crate::proofs::Tests::no_reason, crate::proofs::Tests::no_body))]
pub fn lack_of(s: Scan) -> Lack
    requires { lacking s ≡ true }
    ensures { Lacks s result }
{
    if s.context == 0 {
        return Lack::Condition;
    }
    Lack::Body
}

// 3: "both numbered from 1 without gaps, rows by set, rule, part"
fn order(s: Scan, t: Scan, r: Row) -> Result<(), Breach>
    requires small { Small s }
    requires in_set_zero { InSetZero s }
    ensures { Checks s t r (Ordered s r) result }
{
    if r.set != s.set {
        if r.set != s.set + 1 {
            return Err(Breach::SetOrder {
                last: s.set,
                set: r.set,
            });
        }
        if r.rule != 1 {
            return Err(Breach::FirstRule {
                set: r.set,
                rule: r.rule,
            });
        }
        return Ok(());
    }
    if r.set < 1 {
        return Ok(());
    }
    if r.rule == s.rule {
        if r.part < s.part {
            return Err(Breach::PartOrder {
                last: s.part,
                part: r.part,
            });
        }
        return Ok(());
    }
    if r.rule != s.rule + 1 {
        return Err(Breach::RuleOrder {
            last: s.rule,
            rule: r.rule,
        });
    }
    Ok(())
}

// 3: "A set holds one kind, that of its first rule; a row against it is 3."
fn kind(s: Scan, t: Scan, r: Row) -> Result<(), Breach>
    ensures { Checks s t r (against_kind s r ≡ false) result }
{
    let against = (r.set == s.set)
        & !((r.set == s.set) & (r.rule == s.rule))
        & (s.object & !(r.part == 1) | !s.object & (r.part == 1));
    if against {
        return Err(Breach::Kind { object: s.object });
    }
    Ok(())
}

fn place_of(t: Scan, r: Row) -> Section
    ensures { result ≡ place_of t r }
{
    if r.set == 0 {
        return Section::SetZero;
    }
    match r.part {
        1 => Section::Reasons,
        2 if t.object => Section::ObjectContext,
        2 => Section::MetaContext,
        _ if t.object => Section::ObjectBody,
        _ => Section::MetaBody,
    }
}

fn may_stand(place: Section, op: u32) -> bool
    ensures { result ≡ may_stand place op }
{
    match place {
        Section::SetZero => (40 <= op) & (op <= 41),
        Section::Reasons => op == 1,
        Section::ObjectContext => (1 <= op) & (op <= 2),
        Section::MetaContext => (1 <= op) & (op <= 14),
        Section::ObjectBody => (31 <= op) & (op <= 36),
        Section::MetaBody => (21 <= op) & (op <= 25),
    }
}

// 3: the row's set, part and op.
fn standing(s: Scan, t: Scan, r: Row) -> Result<(), Breach>
    ensures { Checks s t r (Stands t r) result }
{
    let has_rule = (r.set == 0) & !(r.rule == 0);
    if has_rule {
        return Err(Breach::SetZero(2));
    }
    let has_part = (r.set == 0) & !(r.part == 0);
    if has_part {
        return Err(Breach::SetZero(3));
    }
    let no_part = (1 <= r.set) & !((1 <= r.part) & (r.part <= 3));
    if no_part {
        return Err(Breach::NoPart(r.part));
    }
    let place = place_of(t, r);
    if !may_stand(place, r.op) {
        return Err(Breach::Op { op: r.op, place });
    }
    Ok(())
}

// "p is 1 to 255 in ops 1, 2, 21, 31 to 34, 36 and 41, and in 40."
fn must_be_predicate(op: u32, p: u32) -> bool
    ensures { result ≡ must_be_predicate op p }
{
    ((1 <= op) & (op <= 2)
        | (op == 21)
        | (31 <= op) & (op <= 34)
        | (op == 36)
        | (40 <= op) & (op <= 41))
        & (p == 0)
}

// "a a constant flag 1 to 16"
fn must_be_flag(op: u32, a: u32) -> bool
    ensures { result ≡ must_be_flag op a }
{
    ((11 <= op) & (op <= 12) | (23 <= op) & (op <= 24)) & !((10 <= a) & (a <= 25))
}

fn names_instance(op: u32) -> bool
    ensures { result ≡ names_instance op }
{
    (22 <= op) & (op <= 25) | (op == 35)
}

// "Unused columns are 0."
fn must_be_zero(op: u32, column: u32, x: u32) -> bool
    ensures { result ≡ must_be_zero op column x }
{
    let instance = names_instance(op);
    ((column == 5) & ((13 <= op) & (op <= 14) | (31 <= op) & (op <= 33) | (40 <= op) & (op <= 41))
        | (column == 6) & ((3 <= op) & (op <= 14) | instance)
        | (column == 7) & ((op == 22) | (op == 25) | (op == 35))
        | (column == 8) & ((5 <= op) & (op <= 14) | instance))
        & !(x == 9)
}

fn names_atom(op: u32) -> bool
    ensures { result ≡ names_atom op }
{
    (op == 21) | (31 <= op) & (op <= 34) | (op == 36)
}

// "Each other body operand that is used is a constant or a variable"
fn must_be_given(op: u32, column: u32, x: u32) -> bool
    ensures { result ≡ must_be_given op column x }
{
    let instance = names_instance(op);
    let atom = names_atom(op);
    ((column == 5) & instance | (column == 7) & atom | (column == 8) & atom) & (x == 0)
}

// 3: the first column that must be 0 and is not.
fn not_zero(s: Scan, t: Scan, r: Row) -> Result<(), Breach>
    requires { r.p ≤ 255 }
    ensures { Checks s t r (Unused r) result }
{
    if must_be_zero(r.op, 5, r.i) {
        return Err(Breach::NotZero {
            op: r.op,
            column: 5,
        });
    }
    if must_be_zero(r.op, 6, r.p + 9) {
        return Err(Breach::NotZero {
            op: r.op,
            column: 6,
        });
    }
    if must_be_zero(r.op, 7, r.a) {
        return Err(Breach::NotZero {
            op: r.op,
            column: 7,
        });
    }
    if must_be_zero(r.op, 8, r.b) {
        return Err(Breach::NotZero {
            op: r.op,
            column: 8,
        });
    }
    Ok(())
}

// 3: the first column that must be a constant or a variable and is any.
fn no_value(s: Scan, t: Scan, r: Row) -> Result<(), Breach>
    ensures { Checks s t r (Given r) result }
{
    if must_be_given(r.op, 5, r.i) {
        return Err(Breach::NoValue {
            op: r.op,
            column: 5,
        });
    }
    if must_be_given(r.op, 7, r.a) {
        return Err(Breach::NoValue {
            op: r.op,
            column: 7,
        });
    }
    if must_be_given(r.op, 8, r.b) {
        return Err(Breach::NoValue {
            op: r.op,
            column: 8,
        });
    }
    Ok(())
}

// 3: a predicate, a flag, or an i that must be any.
fn used(s: Scan, t: Scan, r: Row) -> Result<(), Breach>
    ensures { Checks s t r (Used r) result }
{
    if must_be_predicate(r.op, r.p) {
        return Err(Breach::NoPredicate(r.op));
    }
    if must_be_flag(r.op, r.a) {
        return Err(Breach::NoFlag(r.op));
    }
    let made = ((r.op == 34) | (r.op == 36)) & !(r.i == 0);
    if made {
        return Err(Breach::NotAny(r.op));
    }
    Ok(())
}

// 3: "its id going to variable i, which has no value yet, or i = -9"
fn not_new(s: Scan, t: Scan, r: Row) -> Result<(), Breach>
    ensures { Checks s t r (New t r) result }
{
    if r.op != 21 {
        return Ok(());
    }
    if r.i == 0 {
        return Ok(());
    }
    if rows::new_variable(&t.valued, r.i) {
        return Ok(());
    }
    Err(Breach::NotNew)
}

// 3: the constants of set 0.
fn constants(s: Scan, t: Scan, r: Row) -> Result<(), Breach>
    ensures { Checks s t r (Constants r) result }
{
    let first = (r.op == 41) & !(9 <= r.a);
    if first {
        return Err(Breach::NoConstant(7));
    }
    let second = (r.op == 41) & !(9 <= r.b);
    if second {
        return Err(Breach::NoConstant(8));
    }
    let threshold = (r.op == 40) & !((10 <= r.a) & (r.a <= 65544));
    if threshold {
        return Err(Breach::NoThreshold);
    }
    let ceiling = (r.op == 40) & !((10 <= r.b) & (r.b <= 264));
    if ceiling {
        return Err(Breach::NoCeiling);
    }
    Ok(())
}

// 3: the tests in their order. They leave a second ceiling alone.
fn tested(s: Scan, t: Scan, r: Row) -> Result<(), Breach>
    requires small { Small s }
    requires in_set_zero { InSetZero s }
    requires p_bound { r.p ≤ 255 }
    ensures { Checks s t r (Faultless s t r) result }
{
    order(s, t, r)?;
    kind(s, t, r)?;
    standing(s, t, r)?;
    not_zero(s, t, r)?;
    no_value(s, t, r)?;
    used(s, t, r)?;
    not_new(s, t, r)?;
    constants(s, t, r)?;
    Ok(())
}

// 3: "row breaks a rule of its op, part or order": s is the scan before the row, t as the row finds it.
pub fn breach_of(s: Scan, t: Scan, r: Row) -> Breach
    requires small { Small s }
    requires in_set_zero { InSetZero s }
    requires p_bound { r.p ≤ 255 }
    requires r_value { breaks s t r ≡ true }
    ensures { Breaches s t r result }
{
    match tested(s, t, r) {
        Err(breach) => breach,
        Ok(()) => Breach::SecondCeiling(r.p),
    }
}

// 4: "body variable without value"
#[tactic(auto, using(crate::proofs::Tests::i_left), unfolding(model::specs::Load::valueless, model::specs::Load::new_variable))]
pub fn unvalued_of(t: Scan, r: Row) -> Unvalued
    requires { valueless t r ≡ true }
    ensures { LacksValue t r result }
{
    if rows::new_variable(&t.valued, r.a) {
        return Unvalued {
            column: 7,
            variable: 9 - r.a,
        };
    }
    if rows::new_variable(&t.valued, r.b) {
        return Unvalued {
            column: 8,
            variable: 9 - r.b,
        };
    }
    Unvalued {
        column: 5,
        variable: 9 - r.i,
    }
}
