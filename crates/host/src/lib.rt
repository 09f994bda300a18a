// The calls for hosts in other languages: the program, the words and the scalars of a configuration and a report are lent as slices, and
// the work is done on them in place. A call gives the refusal's number or 0, and then the report tells the rest. A refused call leaves
// every lent word as it was; slices of other lengths than these are no configuration, refusal 1:
//   words 2,432: 256 atoms by columns (ids, p, a, b, cycles), then 64 plans of 18 (id set rule left flags subgoal, four justifications, eight values)
//   scalars 6: phase, cycle, next id, waiting, atoms, plans
//   report 8
// The calls named trusted test neither lengths nor words: for languages whose types guarantee that nothing is handed in but what a load or
// a call left, or what jq_check found well formed. The tested ones are the default.
#![tactic(auto)]

ghost use Rattle.std.specs.Prelude.{◌≡◌, ◌≢◌, ◌&&◌, ◌*◌, eqb, length, take, get_or, MatchResult};
ghost use Rattle.model.specs.Refusals.{number_of};
ghost use Rattle.model.specs.Claims.{to_sense, to_step, to_answer, to_delete};
ghost use Rattle.model.specs.Log.{fired, executed, called};
ghost use Rattle.stepping.specs.Steps.{made_of, how_of, did_of};
ghost use Rattle.running.specs.Running.{stop_of};
ghost use Rattle.in_place.specs.Given.{given_rows, readings_of};
ghost use Rattle.host.specs.Layout.{scalars_of, scalar_words, sized, report_of, run_report};
ghost use Rattle.host.specs.Calls.{seen, reply_seen, run_seen, load_seen, checked, Trusted};

use in_place::{Counts, Ran, Stepped};
use model::Refusal;
use running::Stop;
use state::{Config, Scalars};
use stepping::{Did, How, Made};

// The lengths of what is lent.
#[tactic(auto, unfolding(crate::specs::Layout::sized))]
fn is_sized<'a>(words: &'a [u32], scalars: &'a [u32], report: &'a [u32]) -> bool
    ensures { result ≡ sized words.now scalars.now report.now }
{
    (words.len() == 2432) & ((scalars.len() == 6) & (report.len() == 8))
}

// What the trusted calls ask for.
fn is_formed<'a>(
    program: &'a [u32],
    words: &'a [u32],
    scalars: &'a [u32],
    report: &'a [u32],
) -> bool
    ensures { result ≡ sized words.now scalars.now report.now && eqb (checked program.now words.now scalars.now) 0 }
{
    is_sized(words, scalars, report) && jq_check(program, words, scalars) == 0
}

fn scalars_of(scalars: &[u32]) -> Scalars
    requires { length scalars.now ≡ 6 }
    ensures { result ≡ scalars_of scalars.now }
{
    Scalars {
        phase: scalars[0],
        cycle: scalars[1],
        next: scalars[2],
        waiting: scalars[3],
        atoms: scalars[4],
        plans: scalars[5],
    }
}

fn scalar_words(s: Scalars) -> [u32; 6]
    ensures { result ≡ scalar_words s }
{
    [s.phase, s.cycle, s.next, s.waiting, s.atoms, s.plans]
}

// What an accepted call leaves beside the words, and 0; a refused one leaves all as it was, and gives its number.
fn settle<'a>(
    scalars: &'a mut [u32],
    report: &'a mut [u32],
    left: Scalars,
    told: Result<[u32; 8], Refusal>,
) -> u32
    requires { (length scalars.old ≡ 6) × (length report.old ≡ 8) }
    ensures { MatchResult told (λ r. (result ≡ 0) × (scalars.new ≡ scalar_words left) × (report.new ≡ r)) (λ e. (result ≡ number_of e) × (scalars.new ≡ scalars.old) × (report.new ≡ report.old)) }
{
    match told {
        Ok(told) => {
            scalars.copy_from_slice(&scalar_words(left));
            report.copy_from_slice(&told);
            0
        }
        Err(refusal) => refusal.number(),
    }
}

// What a call tells that tells made and gone alone.
#[tactic(auto, unfolding(crate::specs::Layout::padded, model::specs::Numbers::did_numbers))]
fn counts_report(told: Counts) -> [u32; 8]
    ensures { result ≡ report_of told.made told.gone called }
{
    [told.made, told.gone, 0, 0, 0, 0, 0, 0]
}

// "fired (set, rule, and the plan or last atom made, or none)"
#[tactic(auto, unfolding(crate::specs::Layout::padded, model::specs::Numbers::did_numbers, model::specs::Numbers::made_numbers))]
fn fired_report(made: u32, gone: u32, set: u32, rule: u32, what: Made) -> [u32; 8]
    ensures { result ≡ report_of made gone (fired set rule (made_of what)) }
{
    match what {
        Made::Nothing => [made, gone, 1, set, rule, 0, 0, 0],
        Made::Atom(id) => [made, gone, 1, set, rule, 1, id, 0],
        Made::Plan(id) => [made, gone, 1, set, rule, 2, id, 0],
    }
}

// "executed (plan; how: empty, held by its subgoal, done, failed)"
#[tactic(auto, unfolding(crate::specs::Layout::padded, model::specs::Numbers::did_numbers, model::specs::Numbers::how_number))]
fn executed_report(made: u32, gone: u32, plan: u32, how: How) -> [u32; 8]
    ensures { result ≡ report_of made gone (executed plan (how_of how)) }
{
    match how {
        How::Empty => [made, gone, 3, plan, 1, 0, 0, 0],
        How::Held => [made, gone, 3, plan, 2, 0, 0, 0],
        How::Done => [made, gone, 3, plan, 3, 0, 0, 0],
        How::Failed => [made, gone, 3, plan, 4, 0, 0, 0],
    }
}

// What a step did.
#[tactic(auto, unfolding(crate::specs::Layout::padded, model::specs::Numbers::did_numbers))]
fn step_report(told: Stepped) -> [u32; 8]
    ensures { result ≡ report_of told.made told.gone (did_of told.did) }
{
    let made = told.made;
    let gone = told.gone;
    match told.did {
        Did::Fired {
            set,
            rule,
            made: what,
        } => fired_report(made, gone, set, rule, what),
        Did::MovedOn => [made, gone, 2, 0, 0, 0, 0, 0],
        Did::Executed { plan, how } => executed_report(made, gone, plan, how),
        Did::Waits { plan, p, a, b } => [made, gone, 4, plan, p, a, b, 0],
        Did::CycleEnded => [made, gone, 5, 0, 0, 0, 0, 0],
    }
}

// Why a run stopped, and after how many steps.
#[tactic(auto, unfolding(crate::specs::Layout::padded, model::specs::Numbers::stop_number, model::specs::Numbers::stop_refusal))]
fn run_report(told: Ran) -> [u32; 8]
    ensures { result ≡ run_report told.made told.gone told.steps (stop_of told.stop) }
{
    let made = told.made;
    let gone = told.gone;
    let steps = told.steps;
    match told.stop {
        Stop::Phase0 => [made, gone, 1, steps, 0, 0, 0, 0],
        Stop::Waiting => [made, gone, 2, steps, 0, 0, 0, 0],
        Stop::Limit => [made, gone, 3, steps, 0, 0, 0, 0],
        Stop::Refused(refusal) => [made, gone, 4, steps, refusal.number(), 0, 0, 0],
    }
}

// kept: the C interface has each of these calls under its name, tested and trusted; what they share stands in `is_formed` and `settle`.

// "delete, not while waiting: an id, atom or plan."
#[tactic(auto, using(crate::proofs::Settled::may_trust, crate::proofs::Settled::refused_seen))]
pub fn jq_delete(
    program: &[u32],
    words: &mut [u32],
    scalars: &mut [u32],
    id: u32,
    report: &mut [u32],
) -> u32
    ensures report_after { seen result words.new scalars.new report.new ≡ reply_seen (to_delete (given_rows program.now) id) words.old scalars.old report.old }
    ensures untouched { result ≢ 0 → (words.new ≡ words.old) × (scalars.new ≡ scalars.old) × (report.new ≡ report.old) }
{
    if !is_formed(program, words, scalars, report) {
        return 1;
    }
    jq_trusted_delete(program, words, scalars, id, report)
}

// "answer, only while waiting ..: 1 removes the step, 0 sets failed"
#[tactic(auto, using(crate::proofs::Settled::may_trust, crate::proofs::Settled::refused_seen))]
pub fn jq_answer(
    program: &[u32],
    words: &mut [u32],
    scalars: &mut [u32],
    n: u32,
    report: &mut [u32],
) -> u32
    ensures report_after { seen result words.new scalars.new report.new ≡ reply_seen (to_answer (given_rows program.now) n) words.old scalars.old report.old }
    ensures untouched { result ≢ 0 → (words.new ≡ words.old) × (scalars.new ≡ scalars.old) × (report.new ≡ report.old) }
{
    if !is_formed(program, words, scalars, report) {
        return 1;
    }
    jq_trusted_answer(program, words, scalars, n, report)
}

// "sense, phase 0 only: 0 to 64 rows of sign (1 add, 2 withdraw), p, a, b." Four words a row.
#[tactic(auto, using(crate::proofs::Settled::may_trust, crate::proofs::Settled::refused_seen))]
pub fn jq_sense(
    program: &[u32],
    words: &mut [u32],
    scalars: &mut [u32],
    rows: &[u32],
    report: &mut [u32],
) -> u32
    ensures report_after { seen result words.new scalars.new report.new ≡ reply_seen (to_sense (given_rows program.now) (readings_of rows.now)) words.old scalars.old report.old }
    ensures untouched { result ≢ 0 → (words.new ≡ words.old) × (scalars.new ≡ scalars.old) × (report.new ≡ report.old) }
{
    if !is_formed(program, words, scalars, report) {
        return 1;
    }
    jq_trusted_sense(program, words, scalars, rows, report)
}

// "step": a rule of the phase's set fires, or a plan is executed.
#[tactic(auto, using(crate::proofs::Settled::may_trust, crate::proofs::Settled::refused_seen))]
pub fn jq_step(program: &[u32], words: &mut [u32], scalars: &mut [u32], report: &mut [u32]) -> u32
    ensures report_after { seen result words.new scalars.new report.new ≡ reply_seen (to_step (given_rows program.now)) words.old scalars.old report.old }
    ensures untouched { result ≢ 0 → (words.new ≡ words.old) × (scalars.new ≡ scalars.old) × (report.new ≡ report.old) }
{
    if !is_formed(program, words, scalars, report) {
        return 1;
    }
    jq_trusted_step(program, words, scalars, report)
}

// "run, with a limit of 1 to 10,000, outside phase 0 and not waiting (else 6)": steps in turn.
#[tactic(auto, using(crate::proofs::Settled::may_trust, crate::proofs::Settled::run_refused_seen))]
pub fn jq_run(
    program: &[u32],
    words: &mut [u32],
    scalars: &mut [u32],
    limit: u32,
    report: &mut [u32],
) -> u32
    ensures report_after { seen result words.new scalars.new report.new ≡ run_seen (given_rows program.now) limit words.old scalars.old report.old }
    ensures untouched { result ≢ 0 → (words.new ≡ words.old) × (scalars.new ≡ scalars.old) × (report.new ≡ report.old) }
{
    if !is_formed(program, words, scalars, report) {
        return 1;
    }
    jq_trusted_run(program, words, scalars, limit, report)
}

// Whether the words and the scalars are a configuration of the program, so that the trusted calls may take them: 0, else 1.
#[tactic(auto, using(crate::proofs::Checked::check_words, crate::proofs::Checked::check_scalars, crate::proofs::Checked::check_pair, crate::proofs::Checked::check_well))]
pub fn jq_check(program: &[u32], words: &[u32], scalars: &[u32]) -> u32
    ensures { result ≡ checked program.now words.now scalars.now }
{
    let Some(words) = words.as_array::<2432>() else {
        return 1;
    };
    if scalars.len() != 6 {
        return 1;
    }
    if !in_place::admits(program, words, scalars_of(scalars)) {
        return 1;
    }
    0
}

// jq_delete for what is well formed; nothing is tested again.
#[tactic(auto, using(crate::proofs::Settled::words_long, crate::proofs::Settled::scalars_long, crate::proofs::Settled::report_long))]
pub fn jq_trusted_delete(
    program: &[u32],
    words: &mut [u32],
    scalars: &mut [u32],
    id: u32,
    report: &mut [u32],
) -> u32
    requires { Trusted program.now words.old scalars.old report.old }
    ensures report_after { seen result words.new scalars.new report.new ≡ reply_seen (to_delete (given_rows program.now) id) words.old scalars.old report.old }
    ensures untouched { result ≢ 0 → (words.new ≡ words.old) × (scalars.new ≡ scalars.old) × (report.new ≡ report.old) }
    ensures stays { Trusted program.now words.new scalars.new report.new }
{
    let words = words.as_mut_array::<2432>().unwrap();
    let mut left = scalars_of(scalars);
    let told = in_place::delete_admitted(program, words, &mut left, id);
    settle(scalars, report, left, told.map(counts_report))
}

// jq_answer for what is well formed; nothing is tested again.
#[tactic(auto, using(crate::proofs::Settled::words_long, crate::proofs::Settled::scalars_long, crate::proofs::Settled::report_long))]
pub fn jq_trusted_answer(
    program: &[u32],
    words: &mut [u32],
    scalars: &mut [u32],
    n: u32,
    report: &mut [u32],
) -> u32
    requires { Trusted program.now words.old scalars.old report.old }
    ensures report_after { seen result words.new scalars.new report.new ≡ reply_seen (to_answer (given_rows program.now) n) words.old scalars.old report.old }
    ensures untouched { result ≢ 0 → (words.new ≡ words.old) × (scalars.new ≡ scalars.old) × (report.new ≡ report.old) }
    ensures stays { Trusted program.now words.new scalars.new report.new }
{
    let words = words.as_mut_array::<2432>().unwrap();
    let mut left = scalars_of(scalars);
    let told = in_place::answer_admitted(program, words, &mut left, n);
    settle(scalars, report, left, told.map(counts_report))
}

// jq_sense for what is well formed; nothing is tested again.
#[tactic(auto, using(crate::proofs::Settled::words_long, crate::proofs::Settled::scalars_long, crate::proofs::Settled::report_long))]
pub fn jq_trusted_sense(
    program: &[u32],
    words: &mut [u32],
    scalars: &mut [u32],
    rows: &[u32],
    report: &mut [u32],
) -> u32
    requires { Trusted program.now words.old scalars.old report.old }
    ensures report_after { seen result words.new scalars.new report.new ≡ reply_seen (to_sense (given_rows program.now) (readings_of rows.now)) words.old scalars.old report.old }
    ensures untouched { result ≢ 0 → (words.new ≡ words.old) × (scalars.new ≡ scalars.old) × (report.new ≡ report.old) }
    ensures stays { Trusted program.now words.new scalars.new report.new }
{
    let words = words.as_mut_array::<2432>().unwrap();
    let mut left = scalars_of(scalars);
    let told = in_place::sense_admitted(program, words, &mut left, rows);
    settle(scalars, report, left, told.map(counts_report))
}

// jq_step for what is well formed; nothing is tested again.
#[tactic(auto, using(crate::proofs::Settled::words_long, crate::proofs::Settled::scalars_long, crate::proofs::Settled::report_long))]
pub fn jq_trusted_step(
    program: &[u32],
    words: &mut [u32],
    scalars: &mut [u32],
    report: &mut [u32],
) -> u32
    requires { Trusted program.now words.old scalars.old report.old }
    ensures report_after { seen result words.new scalars.new report.new ≡ reply_seen (to_step (given_rows program.now)) words.old scalars.old report.old }
    ensures untouched { result ≢ 0 → (words.new ≡ words.old) × (scalars.new ≡ scalars.old) × (report.new ≡ report.old) }
    ensures stays { Trusted program.now words.new scalars.new report.new }
{
    let words = words.as_mut_array::<2432>().unwrap();
    let mut left = scalars_of(scalars);
    let told = in_place::step_admitted(program, words, &mut left);
    settle(scalars, report, left, told.map(step_report))
}

// jq_run for what is well formed; nothing is tested again.
#[tactic(auto, using(crate::proofs::Settled::words_long, crate::proofs::Settled::scalars_long, crate::proofs::Settled::report_long))]
pub fn jq_trusted_run(
    program: &[u32],
    words: &mut [u32],
    scalars: &mut [u32],
    limit: u32,
    report: &mut [u32],
) -> u32
    requires { Trusted program.now words.old scalars.old report.old }
    ensures report_after { seen result words.new scalars.new report.new ≡ run_seen (given_rows program.now) limit words.old scalars.old report.old }
    ensures untouched { result ≢ 0 → (words.new ≡ words.old) × (scalars.new ≡ scalars.old) × (report.new ≡ report.old) }
    ensures stays { Trusted program.now words.new scalars.new report.new }
{
    let words = words.as_mut_array::<2432>().unwrap();
    let mut left = scalars_of(scalars);
    let told = in_place::run_admitted(program, words, &mut left, limit);
    settle(scalars, report, left, told.map(run_report))
}

// "Load tests lines in order": the program and its fresh configuration, or the first refusal with its line.
#[tactic(auto, using(crate::proofs::Loads::short_program, crate::proofs::Loads::short_words, crate::proofs::Settled::long))]
pub fn jq_load(
    text: &[u8],
    program: &mut [u32],
    words: &mut [u32],
    scalars: &mut [u32],
    report: &mut [u32],
) -> u64
    ensures program_after { record { seen_of = seen result words.new scalars.new report.new; program = program.new } ≡ load_seen text.now program.old words.old scalars.old report.old }
    ensures untouched { result ≢ 0 → (program.new ≡ program.old) × (words.new ≡ words.old) × (scalars.new ≡ scalars.old) × (report.new ≡ report.old) }
    ensures formed { result ≡ 0 → Trusted (take (get_or report.new 0 0 * 8) program.new) words.new scalars.new report.new }
{
    if !is_sized(words, scalars, report) {
        return 1;
    }
    let Some(program) = program.as_mut_array::<4096>() else {
        return 1;
    };
    let mut config = Config::fresh();
    match loading::load(text, program, &mut config) {
        Ok(rows) => {
            words.copy_from_slice(&config.words);
            scalars.copy_from_slice(&scalar_words(config.scalars));
            report.copy_from_slice(&[rows, 0, 0, 0, 0, 0, 0, 0]);
            0
        }
        Err(error) => error.line as u64 * 4294967296 + error.refusal.number() as u64,
    }
}
