// The calls of `host` under their names in C: each lends what it was lent, and its clauses are those of `host`.
#![tactic(auto)]

ghost use Rattle.std.specs.Prelude.{◌≡◌, ◌≢◌, ◌*◌, take, get_or};
ghost use Rattle.model.specs.Claims.{to_sense, to_step, to_answer, to_delete};
ghost use Rattle.in_place.specs.Given.{given_rows, readings_of};
ghost use Rattle.host.specs.Calls.{seen, reply_seen, run_seen, load_seen, checked, Trusted};

// "delete, not while waiting: an id, atom or plan."
#[unsafe(no_mangle)]
pub extern "C" fn jq_delete(
    program: &[u32],
    words: &mut [u32],
    scalars: &mut [u32],
    id: u32,
    report: &mut [u32],
) -> u32
    ensures report_after { seen result words.new scalars.new report.new ≡ reply_seen (to_delete (given_rows program.now) id) words.old scalars.old report.old }
    ensures untouched { result ≢ 0 → (words.new ≡ words.old) × (scalars.new ≡ scalars.old) × (report.new ≡ report.old) }
{
    host::jq_delete(program, words, scalars, id, report)
}

// "answer, only while waiting ..: 1 removes the step, 0 sets failed"
#[unsafe(no_mangle)]
pub extern "C" fn jq_answer(
    program: &[u32],
    words: &mut [u32],
    scalars: &mut [u32],
    n: u32,
    report: &mut [u32],
) -> u32
    ensures report_after { seen result words.new scalars.new report.new ≡ reply_seen (to_answer (given_rows program.now) n) words.old scalars.old report.old }
    ensures untouched { result ≢ 0 → (words.new ≡ words.old) × (scalars.new ≡ scalars.old) × (report.new ≡ report.old) }
{
    host::jq_answer(program, words, scalars, n, report)
}

// "sense, phase 0 only: 0 to 64 rows of sign (1 add, 2 withdraw), p, a, b." Four words a row.
#[unsafe(no_mangle)]
pub extern "C" fn jq_sense(
    program: &[u32],
    words: &mut [u32],
    scalars: &mut [u32],
    rows: &[u32],
    report: &mut [u32],
) -> u32
    ensures report_after { seen result words.new scalars.new report.new ≡ reply_seen (to_sense (given_rows program.now) (readings_of rows.now)) words.old scalars.old report.old }
    ensures untouched { result ≢ 0 → (words.new ≡ words.old) × (scalars.new ≡ scalars.old) × (report.new ≡ report.old) }
{
    host::jq_sense(program, words, scalars, rows, report)
}

// "step": a rule of the phase's set fires, or a plan is executed.
#[unsafe(no_mangle)]
pub extern "C" fn jq_step(
    program: &[u32],
    words: &mut [u32],
    scalars: &mut [u32],
    report: &mut [u32],
) -> u32
    ensures report_after { seen result words.new scalars.new report.new ≡ reply_seen (to_step (given_rows program.now)) words.old scalars.old report.old }
    ensures untouched { result ≢ 0 → (words.new ≡ words.old) × (scalars.new ≡ scalars.old) × (report.new ≡ report.old) }
{
    host::jq_step(program, words, scalars, report)
}

// "run, with a limit of 1 to 10,000, outside phase 0 and not waiting (else 6)": steps in turn.
#[unsafe(no_mangle)]
pub extern "C" fn jq_run(
    program: &[u32],
    words: &mut [u32],
    scalars: &mut [u32],
    limit: u32,
    report: &mut [u32],
) -> u32
    ensures report_after { seen result words.new scalars.new report.new ≡ run_seen (given_rows program.now) limit words.old scalars.old report.old }
    ensures untouched { result ≢ 0 → (words.new ≡ words.old) × (scalars.new ≡ scalars.old) × (report.new ≡ report.old) }
{
    host::jq_run(program, words, scalars, limit, report)
}

// Whether the words and the scalars are a configuration of the program, so that the trusted calls may take them: 0, else 1.
#[unsafe(no_mangle)]
pub extern "C" fn jq_check(program: &[u32], words: &[u32], scalars: &[u32]) -> u32
    ensures { result ≡ checked program.now words.now scalars.now }
{
    host::jq_check(program, words, scalars)
}

// jq_delete for what is well formed; nothing is tested again.
#[unsafe(no_mangle)]
pub extern "C" fn jq_trusted_delete(
    program: &[u32],
    words: &mut [u32],
    scalars: &mut [u32],
    id: u32,
    report: &mut [u32],
) -> u32
    requires { Trusted program.now words.old scalars.old report.old }
    ensures report_after { seen result words.new scalars.new report.new ≡ reply_seen (to_delete (given_rows program.now) id) words.old scalars.old report.old }
    ensures untouched { result ≢ 0 → (words.new ≡ words.old) × (scalars.new ≡ scalars.old) × (report.new ≡ report.old) }
    ensures stays { Trusted program.now words.new scalars.new report.new }
{
    host::jq_trusted_delete(program, words, scalars, id, report)
}

// jq_answer for what is well formed; nothing is tested again.
#[unsafe(no_mangle)]
pub extern "C" fn jq_trusted_answer(
    program: &[u32],
    words: &mut [u32],
    scalars: &mut [u32],
    n: u32,
    report: &mut [u32],
) -> u32
    requires { Trusted program.now words.old scalars.old report.old }
    ensures report_after { seen result words.new scalars.new report.new ≡ reply_seen (to_answer (given_rows program.now) n) words.old scalars.old report.old }
    ensures untouched { result ≢ 0 → (words.new ≡ words.old) × (scalars.new ≡ scalars.old) × (report.new ≡ report.old) }
    ensures stays { Trusted program.now words.new scalars.new report.new }
{
    host::jq_trusted_answer(program, words, scalars, n, report)
}

// jq_sense for what is well formed; nothing is tested again.
#[unsafe(no_mangle)]
pub extern "C" fn jq_trusted_sense(
    program: &[u32],
    words: &mut [u32],
    scalars: &mut [u32],
    rows: &[u32],
    report: &mut [u32],
) -> u32
    requires { Trusted program.now words.old scalars.old report.old }
    ensures report_after { seen result words.new scalars.new report.new ≡ reply_seen (to_sense (given_rows program.now) (readings_of rows.now)) words.old scalars.old report.old }
    ensures untouched { result ≢ 0 → (words.new ≡ words.old) × (scalars.new ≡ scalars.old) × (report.new ≡ report.old) }
    ensures stays { Trusted program.now words.new scalars.new report.new }
{
    host::jq_trusted_sense(program, words, scalars, rows, report)
}

// jq_step for what is well formed; nothing is tested again.
#[unsafe(no_mangle)]
pub extern "C" fn jq_trusted_step(
    program: &[u32],
    words: &mut [u32],
    scalars: &mut [u32],
    report: &mut [u32],
) -> u32
    requires { Trusted program.now words.old scalars.old report.old }
    ensures report_after { seen result words.new scalars.new report.new ≡ reply_seen (to_step (given_rows program.now)) words.old scalars.old report.old }
    ensures untouched { result ≢ 0 → (words.new ≡ words.old) × (scalars.new ≡ scalars.old) × (report.new ≡ report.old) }
    ensures stays { Trusted program.now words.new scalars.new report.new }
{
    host::jq_trusted_step(program, words, scalars, report)
}

// jq_run for what is well formed; nothing is tested again.
#[unsafe(no_mangle)]
pub extern "C" fn jq_trusted_run(
    program: &[u32],
    words: &mut [u32],
    scalars: &mut [u32],
    limit: u32,
    report: &mut [u32],
) -> u32
    requires { Trusted program.now words.old scalars.old report.old }
    ensures report_after { seen result words.new scalars.new report.new ≡ run_seen (given_rows program.now) limit words.old scalars.old report.old }
    ensures untouched { result ≢ 0 → (words.new ≡ words.old) × (scalars.new ≡ scalars.old) × (report.new ≡ report.old) }
    ensures stays { Trusted program.now words.new scalars.new report.new }
{
    host::jq_trusted_run(program, words, scalars, limit, report)
}

// "Load tests lines in order": the program and its fresh configuration, or the first refusal with its line.
#[unsafe(no_mangle)]
pub extern "C" fn jq_load(
    text: &[u8],
    program: &mut [u32],
    words: &mut [u32],
    scalars: &mut [u32],
    report: &mut [u32],
) -> u64
    ensures program_after { record { seen_of = seen result words.new scalars.new report.new; program = program.new } ≡ load_seen text.now program.old words.old scalars.old report.old }
    ensures untouched { result ≢ 0 → (program.new ≡ program.old) × (words.new ≡ words.old) × (scalars.new ≡ scalars.old) × (report.new ≡ report.old) }
    ensures formed { result ≡ 0 → Trusted (take (get_or report.new 0 0 * 8) program.new) words.new scalars.new report.new }
{
    host::jq_load(text, program, words, scalars, report)
}
