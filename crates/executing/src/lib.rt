// The exec phase, in place: the lowest plan that is due takes its next step, or the cycle ends.
#![tactic(auto)]

ghost use Rattle.std.specs.Prelude.{◌≡◌, map, ℕ, ◌<◌, ◌≤◌, Ok, OnErr, IfSome, option_map, option_to_list};
ghost use Rattle.lists.specs.Lists.{Pairs, keep, first_of};
ghost use Rattle.model.specs.Log.{begin, and_then, answer_of};
ghost use Rattle.model.specs.Configuration.{remainder, with_flags};
ghost use Rattle.model.specs.Calls.{make_atom, is_due as is-due-by, end_cycle, succeed, fail, exists_atom, take_step, pass_over, execute_plan, execute as executed-by};
ghost use Rattle.program_laws.specs.Lawful.{NotLater};
ghost use Rattle.program.specs.Rows.{rows_of};
ghost use Rattle.state.specs.View.{plan_at, atoms_of, plans_of, config_of};
ghost use Rattle.stepping.specs.Steps.{how_of, answered_by, WellWords};
ghost use Rattle.executing.specs.Exec.{FlagsFit, cleared, Due, delete_step, subgoal_step, tested_step};

use model::{Refusal, Row};
use state::{Scalars, Words};
use stepping::{Did, How, Progress, SCHEDULED, STEPPED};

// "scheduled and not stepped": plan k.
#[tactic(auto, unfolding(model::specs::Calls::is_due))]
fn is_due(words: &Words, k: usize) -> bool
    requires { (k < 64) × ((plan_at words.now k).flags ≤ 65535) }
    ensures { result ≡ is-due-by (plan_at words.now k) }
{
    let flags = state::plan_flags(words, k) as u16;
    state::has_flag(flags, SCHEDULED) & !state::has_flag(flags, STEPPED)
}

// "the lowest live plan that is scheduled and not stepped": where it stands.
fn first_due(words: &Words, plans: u32) -> Option<usize>
    requires { (plans ≤ 64) × FlagsFit plans words.now }
    ensures is { first_of (keep is-due-by (plans_of plans words.now)) ≡ option_to_list (option_map (plan_at words.now) result) }
    ensures there { IfSome result (λ k. k < plans) }
{
    (0..plans as usize).find(|k| is_due(words, *k))
}

// "flags 2 and 3 of all plans are cleared"
#[tactic(auto, using(crate::proofs::Cleared::clearing))]
fn clear_flags(words: &mut Words, plans: u32)
    requires { (plans ≤ 64) × FlagsFit plans words.old }
    ensures atoms { (n : ℕ) → n ≤ 256 → atoms_of n words.new ≡ atoms_of n words.old }
    ensures plans { plans_of plans words.new ≡ map (with_flags cleared) (plans_of plans words.old) }
{
    for k in 0..plans as usize {
        let flags = state::plan_flags(words, k) as u16;
        let left = state::without_flag(state::without_flag(flags, SCHEDULED), STEPPED);
        state::put_plan_word(words, k, 4, left as u32);
    }
}

// "flags 2 and 3 of all plans are cleared, cycle rises by 1, phase is 0". Refusal 11.
#[tactic(auto, using(crate::proofs::Cleared::cycle_next, crate::proofs::Taken::ending), unfolding(model::specs::Log::answer_of))]
fn end_cycle(words: &mut Words, scalars: Scalars) -> Result<Progress, Refusal>
    requires { (scalars.atoms ≤ 256) × (scalars.plans ≤ 64) × (scalars.cycle ≤ 65535) × FlagsFit scalars.plans words.old }
    ensures result_after { answered_by scalars words.new result ≡ answer_of (config_of words.old scalars) (end_cycle (config_of words.old scalars)) }
    ensures untouched { OnErr result (words.new ≡ words.old) }
{
    if scalars.cycle == 65535 {
        return Err(Refusal::CyclesSpent);
    }
    clear_flags(words, scalars.plans);
    Ok(Progress {
        scalars: scalars.cycle_ended(),
        gone: 0,
        did: Did::CycleEnded,
    })
}

// Some atom p(a, b) is alive.
fn exists_atom(words: &Words, scalars: Scalars, p: u32, a: u32, b: u32) -> bool
    requires { scalars.atoms ≤ 256 }
    ensures { result ≡ exists_atom p a b (config_of words.now scalars) }
{
    (0..scalars.atoms as usize).any(|k| state::is_equal(words, k, p, a, b))
}

// "An empty remainder or a live subgoal: stepped is set and nothing else."
#[tactic(auto, using(crate::proofs::After::due_live), unfolding(model::specs::Calls::pass_over, model::specs::Log::answer_of))]
fn pass_over(words: &mut Words, scalars: Scalars, k: usize, how: How) -> Progress
    requires { Due words.old scalars k }
    ensures { answered_by scalars words.new (Ok result) ≡ answer_of (config_of words.old scalars) (pass_over (plan_at words.old k) (how_of how) (begin (config_of words.old scalars))) }
{
    let plan = state::plan_id(words, k);
    state::set_flag(words, scalars, k, STEPPED);
    Progress {
        scalars,
        gone: 0,
        did: Did::Executed { plan, how },
    }
}

// "the step is removed"
#[tactic(auto, using(crate::proofs::After::due_live), unfolding(model::specs::Calls::succeed, model::specs::Log::answer_of))]
fn done(words: &mut Words, scalars: Scalars, k: usize) -> Progress
    requires { Due words.old scalars k }
    ensures { answered_by scalars words.new (Ok result) ≡ answer_of (config_of words.old scalars) (succeed (plan_at words.old k).id (begin (config_of words.old scalars))) }
{
    let plan = state::plan_id(words, k);
    stepping::succeed(words, scalars, k);
    Progress {
        scalars,
        gone: 0,
        did: Did::Executed {
            plan,
            how: How::Done,
        },
    }
}

// "failed is set and the step stays"
#[tactic(auto, using(crate::proofs::After::due_live), unfolding(model::specs::Calls::fail, model::specs::Log::answer_of))]
fn failed(words: &mut Words, scalars: Scalars, k: usize) -> Progress
    requires { Due words.old scalars k }
    ensures { answered_by scalars words.new (Ok result) ≡ answer_of (config_of words.old scalars) (fail (plan_at words.old k).id (begin (config_of words.old scalars))) }
{
    let plan = state::plan_id(words, k);
    stepping::fail(words, scalars, k);
    Progress {
        scalars,
        gone: 0,
        did: Did::Executed {
            plan,
            how: How::Failed,
        },
    }
}

// "34: atom made, step removed". Refusals 8, 9.
#[tactic(auto, using(crate::proofs::Answers::adding), unfolding(model::specs::Log::answer_of))]
fn add_atom(
    words: &mut Words,
    scalars: Scalars,
    k: usize,
    p: u32,
    a: u32,
    b: u32,
) -> Result<Progress, Refusal>
    requires { Due words.old scalars k }
    ensures result_after { answered_by scalars words.new result ≡ answer_of (config_of words.old scalars) (and_then (make_atom p a b (begin (config_of words.old scalars))) (succeed (plan_at words.old k).id)) }
    ensures untouched { OnErr result (words.new ≡ words.old) }
{
    state::room_for_atom(scalars)?;
    let made = state::append_atom(words, scalars, p, a, b);
    Ok(done(words, made, k))
}

// "35: step removed, then the deletion, which may take the plan itself; if i is no live atom, failed is set and the step stays."
#[tactic(auto, using(crate::proofs::After::stepped, crate::proofs::Taken::deleting), unfolding(model::specs::Log::answer_of))]
fn delete_atom(words: &mut Words, scalars: Scalars, k: usize, id: u32) -> Progress
    requires { Due words.old scalars k }
    ensures { answered_by scalars words.new (Ok result) ≡ answer_of (config_of words.old scalars) (delete_step (plan_at words.old k).id id (begin (config_of words.old scalars))) }
{
    if state::find_atom(words, scalars.atoms, id).is_none() {
        return failed(words, scalars, k);
    }
    let plan = state::plan_id(words, k);
    stepping::succeed(words, scalars, k);
    let r = deletion::remove(words, scalars, id);
    Progress {
        scalars: r.scalars,
        gone: r.gone,
        did: Did::Executed {
            plan,
            how: How::Done,
        },
    }
}

// "36: atom made and linked; the step stays while the link does." Refusals 8, 9.
#[tactic(auto, using(crate::proofs::After::linked, crate::proofs::Taken::linking), unfolding(model::specs::Log::answer_of))]
fn add_subgoal(
    words: &mut Words,
    scalars: Scalars,
    k: usize,
    p: u32,
    a: u32,
    b: u32,
) -> Result<Progress, Refusal>
    requires { Due words.old scalars k }
    ensures result_after { answered_by scalars words.new result ≡ answer_of (config_of words.old scalars) (subgoal_step (plan_at words.old k).id p a b (begin (config_of words.old scalars))) }
    ensures untouched { OnErr result (words.new ≡ words.old) }
{
    state::room_for_atom(scalars)?;
    let plan = state::plan_id(words, k);
    let made = state::add_subgoal(words, scalars, k, p, a, b);
    state::set_flag(words, made, k, STEPPED);
    Ok(Progress {
        scalars: made,
        gone: 0,
        did: Did::Executed {
            plan,
            how: How::Done,
        },
    })
}

// "32: done if some atom p(a, b) is alive, else failed"; 33 the other way round.
fn test(words: &mut Words, scalars: Scalars, k: usize, holds: bool) -> Progress
    requires { Due words.old scalars k }
    ensures { answered_by scalars words.new (Ok result) ≡ answer_of (config_of words.old scalars) (tested_step (plan_at words.old k).id holds (begin (config_of words.old scalars))) }
{
    if holds {
        done(words, scalars, k)
    } else {
        failed(words, scalars, k)
    }
}

// The step of plan k, by its op.
#[tactic(auto, using(crate::proofs::Taken::taking), unfolding(model::specs::Log::answer_of))]
fn take_step(words: &mut Words, scalars: Scalars, k: usize, row: Row) -> Result<Progress, Refusal>
    requires { Due words.old scalars k }
    ensures result_after { answered_by scalars words.new result ≡ answer_of (config_of words.old scalars) (take_step (plan_at words.old k) row (begin (config_of words.old scalars))) }
    ensures untouched { OnErr result (words.new ≡ words.old) }
{
    let op = row.op;
    let a = plan_steps::operand(words, k, row.a);
    let b = plan_steps::operand(words, k, row.b);
    if op == 31 {
        let plan = state::plan_id(words, k);
        return Ok(Progress {
            scalars: scalars.with_waiting(plan),
            gone: 0,
            did: Did::Waits {
                plan,
                p: row.p,
                a,
                b,
            },
        });
    }
    if op == 32 {
        let there = exists_atom(words, scalars, row.p, a, b);
        return Ok(test(words, scalars, k, there));
    }
    if op == 33 {
        let there = exists_atom(words, scalars, row.p, a, b);
        return Ok(test(words, scalars, k, !there));
    }
    if op == 34 {
        return add_atom(words, scalars, k, row.p, a, b);
    }
    if op == 35 {
        let id = plan_steps::operand(words, k, row.i);
        return Ok(delete_atom(words, scalars, k, id));
    }
    add_subgoal(words, scalars, k, row.p, a, b)
}

// Plan k is taken.
#[tactic(auto, using(crate::proofs::Taken::planned))]
fn execute_plan(
    program: &[u32],
    words: &mut Words,
    scalars: Scalars,
    k: usize,
) -> Result<Progress, Refusal>
    requires { Due words.old scalars k × Pairs NotLater (rows_of program.now) }
    ensures result_after { answered_by scalars words.new result ≡ answer_of (config_of words.old scalars) (execute_plan (plan_at words.old k) (remainder (rows_of program.now) (plan_at words.old k)) (begin (config_of words.old scalars))) }
    ensures untouched { OnErr result (words.new ≡ words.old) }
{
    let body = plan_steps::body_of(program, words, k);
    let Some(row) = plan_steps::next_step(program, words, k, body) else {
        return Ok(pass_over(words, scalars, k, How::Empty));
    };
    if state::plan_subgoal(words, k) != 0 {
        return Ok(pass_over(words, scalars, k, How::Held));
    }
    take_step(words, scalars, k, row)
}

// "step, phase k+1". Refusals 8, 9, 11.
#[tactic(auto, using(crate::proofs::After::ready, crate::proofs::Taken::choosing))]
pub fn execute(program: &[u32], words: &mut Words, scalars: Scalars) -> Result<Progress, Refusal>
    requires { WellWords program.now words.old scalars }
    ensures result_after { answered_by scalars words.new result ≡ answer_of (config_of words.old scalars) (executed-by (rows_of program.now) (config_of words.old scalars) (keep is-due-by (config_of words.old scalars).plans)) }
    ensures untouched { OnErr result (words.new ≡ words.old) }
{
    match first_due(words, scalars.plans) {
        Some(k) => execute_plan(program, words, scalars, k),
        None => end_cycle(words, scalars),
    }
}
