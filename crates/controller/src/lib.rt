// "The machine's control program holds one configuration and changes it in place": each call takes it by `&mut`, passes it to the call
// by value (`interpreter`), and leaves the next one in its place. A refused call leaves the very configuration that it found.
#![tactic(auto)]

ghost use Rattle.std.specs.Prelude.{◌≡◌, OnErr};
ghost use Rattle.model.specs.Claims.{to_sense, to_step, to_answer, to_delete, reply};
ghost use Rattle.model.specs.Run.{run as run-of-steps};
ghost use Rattle.loading.specs.Starting.{seen, starting};
ghost use Rattle.in_place.specs.Given.{given_rows, readings_of};
ghost use Rattle.in_place.specs.Answers.{answered, step_answered, run_answered};
ghost use Rattle.interpreter.specs.Calls.{conf, Obeys};

use in_place::{Counts, Ran, Stepped};
use model::{LoadError, Refusal};
use state::Config;

// The program goes to the lent words, its fresh configuration in place of the one that was held: how many rows it has. A refusal leaves
// both as they were.
pub fn load(text: &[u8], program: &mut [u32; 4096], config: &mut Config) -> Result<u32, LoadError>
    ensures program_after { seen (conf config.new) result program.new ≡ starting text.now program.old (conf config.old) }
    ensures untouched { OnErr result (config.new ≡ config.old) }
{
    loading::load(text, program, config)
}

// Rows of four words: sign (1 add, 2 withdraw), p, a, b. Refusals 1, 6, 7, 8, 9.
pub fn sense(program: &[u32], config: &mut Config, rows: &[u32]) -> Result<Counts, Refusal>
    ensures config_after { answered (conf config.new) result ≡ reply (to_sense (given_rows program.now) (readings_of rows.now)) (conf config.old) }
    ensures untouched { OnErr result (config.new ≡ config.old) }
{
    let r = interpreter::sense(program, *config, rows);
    *config = r.config;
    r.answer
}

// Refusals 1, 6, 8, 9, 10, 11.
pub fn step(program: &[u32], config: &mut Config) -> Result<Stepped, Refusal>
    ensures config_after { step_answered (conf config.new) result ≡ reply (to_step (given_rows program.now)) (conf config.old) }
    ensures untouched { OnErr result (config.new ≡ config.old) }
    ensures obeys { Obeys (given_rows program.now) (conf config.old) (record { config = config.new; answer = result }) }
{
    let r = interpreter::step(program, *config);
    *config = r.config;
    r.answer
}

// 1 removes the step of the plan that waits, 0 sets failed. Refusals 1, 6, 7.
pub fn answer(program: &[u32], config: &mut Config, n: u32) -> Result<Counts, Refusal>
    ensures config_after { answered (conf config.new) result ≡ reply (to_answer (given_rows program.now) n) (conf config.old) }
    ensures untouched { OnErr result (config.new ≡ config.old) }
{
    let r = interpreter::answer(program, *config, n);
    *config = r.config;
    r.answer
}

// An id, atom or plan, with all that it reaches. Refusals 1, 6, 12.
pub fn delete(program: &[u32], config: &mut Config, id: u32) -> Result<Counts, Refusal>
    ensures config_after { answered (conf config.new) result ≡ reply (to_delete (given_rows program.now) id) (conf config.old) }
    ensures untouched { OnErr result (config.new ≡ config.old) }
{
    let r = interpreter::delete(program, *config, id);
    *config = r.config;
    r.answer
}

// Steps in turn, 1 to 10,000. Refusals 1, 6, 7.
pub fn run(program: &[u32], config: &mut Config, limit: u32) -> Result<Ran, Refusal>
    ensures config_after { run_answered (conf config.new) result ≡ run-of-steps (given_rows program.now) (conf config.old) limit }
    ensures untouched { OnErr result (config.new ≡ config.old) }
{
    let r = interpreter::run(program, *config, limit);
    *config = r.config;
    r.answer
}
