// Whether one plan is well formed: its links, its rule, its values and its first step.
#![tactic(auto)]

ghost use Rattle.std.specs.Prelude.{◌≡◌, true, false, not, ◌-◌, ◌/◌, ◌<◌, ◌≤◌, length};
ghost use Rattle.lists.specs.Lists.{Pairs, member};
ghost use Rattle.model.specs.Deletion.{node, graph};
ghost use Rattle.model.specs.WellFormed.{node_formed, makes_atom, is_subgoal_step, plan_formed};
ghost use Rattle.program.specs.Rows.{rows_of, rows_from};
ghost use Rattle.program_laws.specs.Lawful.{NotLater};
ghost use Rattle.state.specs.View.{atom_at, plan_at, config_of, atom_ids_of};
ghost use Rattle.plan_steps.specs.Bodies.{BodyAt};
ghost use Rattle.formed_plans.specs.Plans.{AtomsStand, alive_below, may_follow, justified, subgoal_alive, subgoal_first, acts_first, plan_fits};
ghost use Rattle.formed_plans.specs.Plans.{within_limits, Limits, Demanded, Limited, ClausesAt};

use model::Row;
use spans::Span;
use state::{Scalars, Words};

// Where the atoms of a plan's links are looked for first: any numbers will do, and those of the plan before it are near most often.
#[derive(Clone, Copy)]
pub struct Near {
    pub place: usize,
    pub first: usize,
    pub second: usize,
    pub third: usize,
    pub fourth: usize,
    pub subgoal: usize,
}

// The id is above that of every atom, as a plan's often is.
#[tactic(auto, using(crate::proofs::Words::past_absent))]
fn is_past(words: &Words, atoms: u32, id: u32) -> bool
    requires { AtomsStand words.now atoms }
    ensures { result ≡ true → member id (atom_ids_of atoms words.now) ≡ false }
{
    let n = atoms as usize;
    if n == 0 {
        return true;
    }
    let last = state::atom_at(words, n - 1);
    last.id < id
}

// No atom has this id.
fn is_fresh(words: &Words, atoms: u32, id: u32, guess: usize) -> bool
    requires { AtomsStand words.now atoms }
    ensures { result ≡ not (member id (atom_ids_of atoms words.now)) }
{
    if is_past(words, atoms, id) {
        return true;
    }
    state::is_free(words, atoms, id, guess)
}

// Where the atom before this id stands, if there is one behind it.
fn place_of(words: &Words, atoms: u32, id: u32, guess: usize) -> usize
    requires { AtomsStand words.now atoms }
{
    // kept: no plainer otherwise. `is_fresh` tells and this guesses for a later call; one for both would give each caller a half to drop.
    if is_past(words, atoms, id) {
        return guess;
    }
    state::place_near(words, atoms, id, guess)
}

// Where the atom with this id stands, if there may be one.
fn near_to(words: &Words, atoms: u32, id: u32, guess: usize) -> usize
    requires { AtomsStand words.now atoms }
{
    if id == 0 {
        return guess;
    }
    state::find_near(words, atoms, id, guess).unwrap_or(guess)
}

pub fn near_of(words: &Words, atoms: u32, k: usize, near: Near) -> Near
    requires { AtomsStand words.now atoms × (k < 64) }
{
    let id = state::plan_id(words, k);
    let place = place_of(words, atoms, id, near.place);
    let j0 = state::plan_justification(words, k, 0);
    let j1 = state::plan_justification(words, k, 1);
    let j2 = state::plan_justification(words, k, 2);
    let j3 = state::plan_justification(words, k, 3);
    let made = state::plan_subgoal(words, k);
    let first = near_to(words, atoms, j0, near.first);
    let second = near_to(words, atoms, j1, near.second);
    let third = near_to(words, atoms, j2, near.third);
    let fourth = near_to(words, atoms, j3, near.fourth);
    let subgoal = near_to(words, atoms, made, near.subgoal);
    Near {
        place,
        first,
        second,
        third,
        fourth,
        subgoal,
    }
}

// An atom with this id lives.
#[tactic(auto, using(state::proofs::Near::found_is))]
fn is_atom(words: &Words, atoms: u32, id: u32, guess: usize) -> bool
    requires { AtomsStand words.now atoms }
    ensures { result ≡ member id (atom_ids_of atoms words.now) }
{
    state::find_near(words, atoms, id, guess).is_some()
}

// Word j may stand behind word i among the justifications of the plan with this id.
fn may_follow(words: &Words, atoms: u32, id: u32, i: u32, j: u32, guess: usize) -> bool
    requires { AtomsStand words.now atoms }
    ensures { result ≡ may_follow (alive_below (atom_ids_of atoms words.now) id) i j }
{
    if j == 0 {
        return true;
    }
    (0 < i) & ((i < j) & (is_atom(words, atoms, j, guess) & (j < id)))
}

// The justifications of plan k are 1 to 4 live atoms in rising id, made before it.
#[tactic(auto, using(crate::proofs::Words::plan_justified))]
fn justified(words: &Words, atoms: u32, k: usize, near: Near) -> bool
    requires { AtomsStand words.now atoms × (k < 64) }
    ensures { result ≡ justified (alive_below (atom_ids_of atoms words.now) (plan_at words.now k).id) (plan_at words.now k).justifications }
{
    let id = state::plan_id(words, k);
    let j0 = state::plan_justification(words, k, 0);
    let j1 = state::plan_justification(words, k, 1);
    let j2 = state::plan_justification(words, k, 2);
    let j3 = state::plan_justification(words, k, 3);
    let first = is_atom(words, atoms, j0, near.first) & (j0 < id);
    first
        & (may_follow(words, atoms, id, j0, j1, near.second)
            & (may_follow(words, atoms, id, j1, j2, near.third)
                & may_follow(words, atoms, id, j2, j3, near.fourth)))
}

// Plan k has no subgoal, or one that is alive and was made after it.
fn subgoal_alive(words: &Words, atoms: u32, k: usize, guess: usize) -> bool
    requires { AtomsStand words.now atoms × (k < 64) }
    ensures { result ≡ subgoal_alive (atom_ids_of atoms words.now) (plan_at words.now k) }
{
    let subgoal = state::plan_subgoal(words, k);
    if subgoal == 0 {
        return true;
    }
    is_atom(words, atoms, subgoal, guess) & (state::plan_id(words, k) < subgoal)
}

// The id and the links of plan k are well formed.
fn node_formed(words: &Words, scalars: Scalars, k: usize, near: Near) -> bool
    requires { AtomsStand words.now scalars.atoms × (k < 64) }
    ensures { result ≡ node_formed (graph (config_of words.now scalars)) (node (plan_at words.now k)) }
{
    let id = state::plan_id(words, k);
    let fresh = (1 <= id) & ((id < scalars.next) & is_fresh(words, scalars.atoms, id, near.place));
    fresh
        & (justified(words, scalars.atoms, k, near)
            & subgoal_alive(words, scalars.atoms, k, near.subgoal))
}

// The row, as a step of plan k, makes atom i.
#[tactic(auto, unfolding(model::specs::WellFormed::makes_atom))]
fn makes_atom(words: &Words, k: usize, row: Row, i: usize) -> bool
    requires { (k < 64) × (i < 256) }
    ensures { result ≡ makes_atom (plan_at words.now k).values row (atom_at words.now i) }
{
    let a = plan_steps::operand(words, k, row.a);
    let b = plan_steps::operand(words, k, row.b);
    state::is_equal(words, i, row.p, a, b)
}

// The row is a subgoal step, and as a step of plan k makes the atom that is the plan's subgoal.
#[tactic(auto, using(crate::proofs::Steps::subgoal_found, crate::proofs::Steps::subgoal_absent))]
fn is_subgoal_step(words: &Words, scalars: Scalars, k: usize, row: Row, guess: usize) -> bool
    requires { AtomsStand words.now scalars.atoms × (k < 64) }
    ensures { result ≡ is_subgoal_step (config_of words.now scalars) (plan_at words.now k) row }
{
    let atoms = scalars.atoms;
    let subgoal = state::plan_subgoal(words, k);
    match state::find_near(words, atoms, subgoal, guess) {
        Some(i) => (row.op == 36) & makes_atom(words, k, row, i),
        None => false,
    }
}

// "a plan with a subgoal has as first step a subgoal step equal to that atom"
#[tactic(auto, unfolding(lists::specs::Lists::some))]
fn subgoal_first(
    program: &[u32],
    words: &Words,
    scalars: Scalars,
    k: usize,
    span: Span,
    guess: usize,
) -> bool
    requires { AtomsStand words.now scalars.atoms × (k < 64) × BodyAt program.now (plan_at words.now k) span }
    ensures { result ≡ subgoal_first (rows_of program.now) (config_of words.now scalars) (plan_at words.now k) }
{
    if state::plan_subgoal(words, k) == 0 {
        return true;
    }
    match plan_steps::next_step(program, words, k, span) {
        Some(row) => is_subgoal_step(words, scalars, k, row, guess),
        None => false,
    }
}

// Where a rule's reasons and body stand, and the highest that each value of its plans may be: that of no value, or of a value
// where the body has the variable.
#[derive(Clone, Copy)]
pub struct Clauses {
    pub set: u32,
    pub rule: u32,
    pub reasons: Span,
    pub body: Span,
    pub limits: [u32; 8],
}

// Operand x of a body: where it is a variable, it must have a value.
#[tactic(auto, using(crate::proofs::Within::demanded_bounds, crate::proofs::Within::demanded_value))]
fn demand_value(limits: [u32; 8], x: u32) -> [u32; 8]
    requires { Limits limits }
    ensures { Limits result × Demanded limits x result }
{
    let mut r = limits;
    if x < 1 {
        return r;
    }
    if 8 < x {
        return r;
    }
    r[(8 - x) as usize] = state::NO_VALUE - 1;
    r
}

// The limits of values whose body stands in rows from..to.
fn limits_of(program: &[u32], from: usize, to: usize) -> [u32; 8]
    requires { to ≤ length program.now / 8 }
    ensures { Limited result (rows_from program.now from (to - from)) }
{
    let mut limits = [state::NO_VALUE; 8];
    for j in from..to {
        let row = program::row_at(program, j);
        let first = demand_value(limits, row.i);
        let second = demand_value(first, row.a);
        limits = demand_value(second, row.b);
    }
    limits
}

// No value of plan k is above its limit.
#[tactic(auto, unfolding(crate::specs::Plans::within_limits, lists::specs::Lists::every))]
fn within_limits(words: &Words, k: usize, limits: [u32; 8]) -> bool
    requires { k < 64 }
    ensures { result ≡ within_limits limits (plan_at words.now k).values }
{
    let v0 = state::plan_value(words, k, 0);
    let v1 = state::plan_value(words, k, 1);
    let v2 = state::plan_value(words, k, 2);
    let v3 = state::plan_value(words, k, 3);
    let v4 = state::plan_value(words, k, 4);
    let v5 = state::plan_value(words, k, 5);
    let v6 = state::plan_value(words, k, 6);
    let v7 = state::plan_value(words, k, 7);
    let low = (v0 <= limits[0]) & ((v1 <= limits[1]) & ((v2 <= limits[2]) & (v3 <= limits[3])));
    let high = (v4 <= limits[4]) & ((v5 <= limits[5]) & ((v6 <= limits[6]) & (v7 <= limits[7])));
    low & high
}

// One search by halves; the parts of a rule stand one behind the other.
pub fn clauses_of(program: &[u32], set: u32, rule: u32) -> Clauses
    requires { Pairs NotLater (rows_of program.now) }
    ensures { ClausesAt program.now result × (result.set ≡ set) × (result.rule ≡ rule) }
{
    let start = spans::first_from(program, set, rule, 1);
    let context = spans::part_end(program, start, set, rule, 1);
    let from = spans::part_end(program, context, set, rule, 2);
    let to = spans::part_end(program, from, set, rule, 3);
    let limits = limits_of(program, from, to);
    let reasons = Span {
        from: start,
        to: context,
    };
    let body = Span { from, to };
    Clauses {
        set,
        rule,
        reasons,
        body,
        limits,
    }
}

// Rule, values, remainder, flags and first step of plan k are well formed.
#[tactic(auto, using(crate::proofs::Tests::tests_formed, plan_steps::proofs::Bodies::span_body))]
fn plan_formed(
    program: &[u32],
    words: &Words,
    scalars: Scalars,
    k: usize,
    at: Clauses,
    guess: usize,
) -> bool
    requires { AtomsStand words.now scalars.atoms × (k < 64) × ClausesAt program.now at × (at.set ≡ (plan_at words.now k).set) × (at.rule ≡ (plan_at words.now k).rule) }
    ensures { result ≡ plan_formed (rows_of program.now) (config_of words.now scalars) (plan_at words.now k) }
{
    let reasons = at.reasons;
    let body = at.body;
    let object = reasons.from < reasons.to;
    let left = state::plan_left(words, k) as usize <= body.to - body.from;
    let limits = at.limits;
    let values = within_limits(words, k, limits);
    let flags = state::plan_flags(words, k) <= 65535;
    object & (left & (values & (flags & subgoal_first(program, words, scalars, k, body, guess))))
}

// Links and parts of plan k are well formed.
#[tactic(auto, unfolding(crate::specs::Plans::plan_fits))]
pub fn plan_fits(
    program: &[u32],
    words: &Words,
    scalars: Scalars,
    k: usize,
    at: Clauses,
    near: Near,
) -> bool
    requires { AtomsStand words.now scalars.atoms × (k < 64) × ClausesAt program.now at × (at.set ≡ (plan_at words.now k).set) × (at.rule ≡ (plan_at words.now k).rule) }
    ensures { result ≡ plan_fits (rows_of program.now) (config_of words.now scalars) (plan_at words.now k) }
{
    node_formed(words, scalars, k, near) & plan_formed(program, words, scalars, k, at, near.subgoal)
}

// The first step of plan k is an external action.
#[tactic(auto, unfolding(lists::specs::Lists::some))]
pub fn acts_first(program: &[u32], words: &Words, k: usize) -> bool
    requires { (k < 64) × Pairs NotLater (rows_of program.now) }
    ensures { result ≡ acts_first (rows_of program.now) (plan_at words.now k) }
{
    let body = plan_steps::body_of(program, words, k);
    match plan_steps::next_step(program, words, k, body) {
        Some(row) => row.op == 31,
        None => false,
    }
}
