// The calls in place: each works on the words and the scalars that it is lent. A refused call leaves them as they were.
#![tactic(auto)]

ghost use Rattle.std.specs.Prelude.{◌≡◌, ◌||◌, ◌/◌, ◌≤◌, length, OnErr};
ghost use Rattle.model.specs.Claims.{to_sense, to_step, to_answer, to_delete, reply};
ghost use Rattle.model.specs.Run.{run as run-of-steps};
ghost use Rattle.model.specs.Configuration.{atom_alive, plan_alive};
ghost use Rattle.program.specs.Rows.{rows_of};
ghost use Rattle.state.specs.View.{config_of, SoundWords};
ghost use Rattle.sensing.specs.Sensing.{readings_from, Ready, SensesRows};
ghost use Rattle.in_place.specs.Given.{given_rows, admitted, Admitted, readings_of};
ghost use Rattle.in_place.specs.Answers.{answered, step_answered, run_answered, TestedBy};

use deletion::Removal;
use model::Refusal;
use running::Stop;
use state::{Scalars, Words};
use stepping::Did;

// What a call tells: "made and gone".
#[derive(Clone, Copy)]
pub struct Counts {
    pub made: u32,
    pub gone: u32,
}

// What a step tells: also what it did.
#[derive(Clone, Copy)]
pub struct Stepped {
    pub made: u32,
    pub gone: u32,
    pub did: Did,
}

// What a run tells: "the steps taken, their made and gone summed, and which", with the cause of a refusal.
#[derive(Clone, Copy)]
pub struct Ran {
    pub steps: u32,
    pub made: u32,
    pub gone: u32,
    pub stop: Stop,
}

// Refusal 1: the program and the configuration are well formed.
#[tactic(auto, using(crate::proofs::Outcomes::admitting))]
pub fn admits(program: &[u32], words: &Words, scalars: Scalars) -> bool
    ensures { result ≡ admitted program.now (config_of words.now scalars) }
{
    program::well_formed(program) && formed::config_formed(program, words, scalars)
}

// The same as a test of a call.
fn test(program: &[u32], words: &Words, scalars: Scalars) -> Result<(), Refusal>
    ensures { TestedBy (admitted program.now (config_of words.now scalars)) result }
{
    if !admits(program, words, scalars) {
        return Err(Refusal::NotWellFormed);
    }
    Ok(())
}

// The id of a live atom or plan.
#[tactic(auto, using(crate::proofs::Waiting::finding))]
fn is_alive(words: &Words, scalars: Scalars, id: u32) -> bool
    requires { SoundWords words.now scalars }
    ensures { result ≡ (atom_alive (config_of words.now scalars) id || plan_alive (config_of words.now scalars) id) }
{
    state::find_atom(words, scalars.atoms, id).is_some()
        || state::find_plan(words, scalars.plans, id).is_some()
}

// "delete, not while waiting: an id, atom or plan." Refusals 1, 6, 12.
#[tactic(auto, using(crate::proofs::Outcomes::untested), unfolding(crate::specs::Given::admitted))]
pub fn delete(
    program: &[u32],
    words: &mut Words,
    scalars: &mut Scalars,
    id: u32,
) -> Result<Counts, Refusal>
    ensures result_after { answered (config_of words.new scalars.new) result ≡ reply (to_delete (given_rows program.now) id) (config_of words.old scalars.old) }
    ensures untouched { OnErr result ((words.new ≡ words.old) × (scalars.new ≡ scalars.old)) }
{
    test(program, words, *scalars)?;
    delete_admitted(program, words, scalars, id)
}

// The same for a pair that is well formed, as what a load or a call left is: so nothing is tested again.
#[tactic(auto, using(crate::proofs::Deleted::deleting))]
pub fn delete_admitted(
    program: &[u32],
    words: &mut Words,
    scalars: &mut Scalars,
    id: u32,
) -> Result<Counts, Refusal>
    requires { Admitted program.now words.old scalars.old }
    ensures result_after { answered (config_of words.new scalars.new) result ≡ reply (to_delete (given_rows program.now) id) (config_of words.old scalars.old) }
    ensures untouched { OnErr result ((words.new ≡ words.old) × (scalars.new ≡ scalars.old)) }
    ensures stays { Admitted program.now words.new scalars.new }
{
    if scalars.waiting != 0 {
        return Err(Refusal::OutOfTurn);
    }
    if !is_alive(words, *scalars, id) {
        return Err(Refusal::NotAlive);
    }
    let r = deletion::remove(words, *scalars, id);
    *scalars = r.scalars;
    Ok(Counts {
        made: 0,
        gone: r.gone,
    })
}

// "answer, only while waiting ..: 1 removes the step, 0 sets failed". Refusals 1, 6, 7.
#[tactic(auto, using(crate::proofs::Outcomes::untested), unfolding(crate::specs::Given::admitted))]
pub fn answer(
    program: &[u32],
    words: &mut Words,
    scalars: &mut Scalars,
    n: u32,
) -> Result<Counts, Refusal>
    ensures result_after { answered (config_of words.new scalars.new) result ≡ reply (to_answer (given_rows program.now) n) (config_of words.old scalars.old) }
    ensures untouched { OnErr result ((words.new ≡ words.old) × (scalars.new ≡ scalars.old)) }
{
    test(program, words, *scalars)?;
    answer_admitted(program, words, scalars, n)
}

// The same for a pair that is well formed, as what a load or a call left is: so nothing is tested again.
#[tactic(auto, using(crate::proofs::Waiting::answering))]
pub fn answer_admitted(
    program: &[u32],
    words: &mut Words,
    scalars: &mut Scalars,
    n: u32,
) -> Result<Counts, Refusal>
    requires { Admitted program.now words.old scalars.old }
    ensures result_after { answered (config_of words.new scalars.new) result ≡ reply (to_answer (given_rows program.now) n) (config_of words.old scalars.old) }
    ensures untouched { OnErr result ((words.new ≡ words.old) × (scalars.new ≡ scalars.old)) }
    ensures stays { Admitted program.now words.new scalars.new }
{
    let id = scalars.waiting;
    if id == 0 {
        return Err(Refusal::OutOfTurn);
    }
    if 1 < n {
        return Err(Refusal::OutOfRange);
    }
    let k = state::find_plan(words, scalars.plans, id).unwrap();
    let idle = scalars.with_waiting(0);
    if n == 1 {
        stepping::succeed(words, idle, k);
    } else {
        stepping::fail(words, idle, k);
    }
    *scalars = idle;
    Ok(Counts { made: 0, gone: 0 })
}

// "a refused call undoes its earlier part": where a row could meet a limit the words are kept beside, and put back if one does. None can
// where as many atoms could be made as there are rows.
#[tactic(auto, using(crate::proofs::Limits::restoring))]
fn sense_or_restore(
    program: &[u32],
    words: &mut Words,
    scalars: Scalars,
    rows: &[u32],
) -> Result<Removal, Refusal>
    requires { Ready words.old scalars × (length rows.now ≤ 256) }
    ensures senses_rows { SensesRows (rows_of program.now) (readings_from rows.now 0 (length rows.now / 4)) (config_of words.old scalars) words.new result }
    ensures untouched { OnErr result (words.new ≡ words.old) }
{
    let n = (rows.len() / 4) as u32;
    if (scalars.next <= 65536 - n) & (scalars.atoms <= 256 - n) {
        return sensing::sense_rows(program, words, scalars, rows);
    }
    let saved = *words;
    let result = sensing::sense_rows(program, words, scalars, rows);
    if result.is_err() {
        *words = saved;
    }
    result
}

// "sense, phase 0 only: 0 to 64 rows of sign (1 add, 2 withdraw), p, a, b." Four words a row. Refusals 1, 6, 7, 8, 9.
#[tactic(auto, using(crate::proofs::Outcomes::untested), unfolding(crate::specs::Given::admitted))]
pub fn sense(
    program: &[u32],
    words: &mut Words,
    scalars: &mut Scalars,
    rows: &[u32],
) -> Result<Counts, Refusal>
    ensures result_after { answered (config_of words.new scalars.new) result ≡ reply (to_sense (given_rows program.now) (readings_of rows.now)) (config_of words.old scalars.old) }
    ensures untouched { OnErr result ((words.new ≡ words.old) × (scalars.new ≡ scalars.old)) }
{
    test(program, words, *scalars)?;
    sense_admitted(program, words, scalars, rows)
}

// The same for a pair that is well formed, as what a load or a call left is: so nothing is tested again.
#[tactic(auto, using(crate::proofs::Sensed::sensing))]
pub fn sense_admitted(
    program: &[u32],
    words: &mut Words,
    scalars: &mut Scalars,
    rows: &[u32],
) -> Result<Counts, Refusal>
    requires { Admitted program.now words.old scalars.old }
    ensures result_after { answered (config_of words.new scalars.new) result ≡ reply (to_sense (given_rows program.now) (readings_of rows.now)) (config_of words.old scalars.old) }
    ensures untouched { OnErr result ((words.new ≡ words.old) × (scalars.new ≡ scalars.old)) }
    ensures stays { Admitted program.now words.new scalars.new }
{
    if scalars.phase != 0 {
        return Err(Refusal::OutOfTurn);
    }
    if scalars.waiting != 0 {
        return Err(Refusal::OutOfTurn);
    }
    if 256 < rows.len() {
        return Err(Refusal::OutOfRange);
    }
    if rows.len() % 4 != 0 {
        return Err(Refusal::OutOfRange);
    }
    if !sensing::rows_in_range(rows) {
        return Err(Refusal::OutOfRange);
    }
    let left = sense_or_restore(program, words, *scalars, rows)?;
    let made = left.scalars.next - scalars.next;
    *scalars = left.scalars.with_phase(1);
    Ok(Counts {
        made,
        gone: left.gone,
    })
}

// "step": a rule of the phase's set fires, or a plan is executed. Refusals 1, 6, 8, 9, 10, 11.
#[tactic(auto, using(crate::proofs::Outcomes::untested), unfolding(crate::specs::Given::admitted))]
pub fn step(program: &[u32], words: &mut Words, scalars: &mut Scalars) -> Result<Stepped, Refusal>
    ensures result_after { step_answered (config_of words.new scalars.new) result ≡ reply (to_step (given_rows program.now)) (config_of words.old scalars.old) }
    ensures untouched { OnErr result ((words.new ≡ words.old) × (scalars.new ≡ scalars.old)) }
{
    test(program, words, *scalars)?;
    step_admitted(program, words, scalars)
}

// The same for a pair that is well formed, as what a load or a call left is: so nothing is tested again.
#[tactic(auto, using(crate::proofs::StepAnswered::stepping))]
pub fn step_admitted(
    program: &[u32],
    words: &mut Words,
    scalars: &mut Scalars,
) -> Result<Stepped, Refusal>
    requires { Admitted program.now words.old scalars.old }
    ensures result_after { step_answered (config_of words.new scalars.new) result ≡ reply (to_step (given_rows program.now)) (config_of words.old scalars.old) }
    ensures untouched { OnErr result ((words.new ≡ words.old) × (scalars.new ≡ scalars.old)) }
    ensures stays { Admitted program.now words.new scalars.new }
{
    if scalars.phase == 0 {
        return Err(Refusal::OutOfTurn);
    }
    if scalars.waiting != 0 {
        return Err(Refusal::OutOfTurn);
    }
    let p = running::advance(program, words, *scalars)?;
    let made = p.scalars.next - scalars.next;
    *scalars = p.scalars;
    Ok(Stepped {
        made,
        gone: p.gone,
        did: p.did,
    })
}

// "run, with a limit of 1 to 10,000, outside phase 0 and not waiting (else 6)": steps in turn. Refusals 1, 6, 7.
#[tactic(auto, using(crate::proofs::RunAnswered::run_untested))]
pub fn run(
    program: &[u32],
    words: &mut Words,
    scalars: &mut Scalars,
    limit: u32,
) -> Result<Ran, Refusal>
    ensures result_after { run_answered (config_of words.new scalars.new) result ≡ run-of-steps (given_rows program.now) (config_of words.old scalars.old) limit }
    ensures untouched { OnErr result ((words.new ≡ words.old) × (scalars.new ≡ scalars.old)) }
{
    test(program, words, *scalars)?;
    run_admitted(program, words, scalars, limit)
}

// The same for a pair that is well formed, as what a load or a call left is: so nothing is tested again.
#[tactic(auto, using(crate::proofs::RunAnswered::running))]
pub fn run_admitted(
    program: &[u32],
    words: &mut Words,
    scalars: &mut Scalars,
    limit: u32,
) -> Result<Ran, Refusal>
    requires { Admitted program.now words.old scalars.old }
    ensures result_after { run_answered (config_of words.new scalars.new) result ≡ run-of-steps (given_rows program.now) (config_of words.old scalars.old) limit }
    ensures untouched { OnErr result ((words.new ≡ words.old) × (scalars.new ≡ scalars.old)) }
    ensures stays { Admitted program.now words.new scalars.new }
{
    if scalars.phase == 0 {
        return Err(Refusal::OutOfTurn);
    }
    if scalars.waiting != 0 {
        return Err(Refusal::OutOfTurn);
    }
    if limit < 1 {
        return Err(Refusal::OutOfRange);
    }
    if 10000 < limit {
        return Err(Refusal::OutOfRange);
    }
    let course = running::run_on(program, words, *scalars, limit);
    *scalars = course.scalars;
    Ok(Ran {
        steps: course.steps,
        made: course.made,
        gone: course.gone,
        stop: course.stop,
    })
}
