// The calls by value: each takes a program and a configuration and gives its answer with the next configuration. A refused call gives
// back the very configuration that it was given.
#![tactic(auto)]

ghost use Rattle.std.specs.Prelude.{◌≡◌, ◌≢◌, ◌+◌, ◌-◌, ◌<◌, ◌≤◌, eqb, length, OnErr, if◌then◌else◌};
ghost use Rattle.model.specs.Claims.{to_sense, to_step, to_answer, to_delete, reply};
ghost use Rattle.model.specs.Run.{run as run-of-steps};
ghost use Rattle.in_place.specs.Given.{given_rows, admitted, readings_of};
ghost use Rattle.interpreter.specs.Playing.{call_size, SizeOf, call_by, first_call, calls_of, EveryList, after_calls, playing, outcome, and_counted, AccountedFor, call_answer, Begun};
ghost use Rattle.interpreter.specs.Calls.{conf, reported, step_reported, Obeys, run_reported};

use in_place::{Counts, Ran, Stepped};
use model::{LoadError, Refusal};
use state::Config;

// What a call by value gives back: its answer, and "the next configuration".
#[derive(Clone, Copy)]
pub struct Reply<T> {
    pub config: Config,
    pub answer: Result<T, Refusal>,
}

// Refusal 1: the program and the configuration are well formed.
pub fn admits(program: &[u32], config: Config) -> bool
    ensures { result ≡ admitted program.now (conf config) }
{
    in_place::admits(program, &config.words, config.scalars)
}

// kept: five calls of one shape. One function over a closure is no plainer: it would say of the closure what each call says of itself.

// "delete, not while waiting: an id, atom or plan." Refusals 1, 6, 12.
pub fn delete(program: &[u32], config: Config, id: u32) -> Reply<Counts>
    ensures result_value { reported result ≡ reply (to_delete (given_rows program.now) id) (conf config) }
    ensures untouched { OnErr result.answer (result.config ≡ config) }
{
    let mut next = config;
    let answer = in_place::delete(program, &mut next.words, &mut next.scalars, id);
    Reply {
        config: next,
        answer,
    }
}

// "answer, only while waiting ..: 1 removes the step, 0 sets failed". Refusals 1, 6, 7.
pub fn answer(program: &[u32], config: Config, n: u32) -> Reply<Counts>
    ensures result_value { reported result ≡ reply (to_answer (given_rows program.now) n) (conf config) }
    ensures untouched { OnErr result.answer (result.config ≡ config) }
{
    let mut next = config;
    let answer = in_place::answer(program, &mut next.words, &mut next.scalars, n);
    Reply {
        config: next,
        answer,
    }
}

// "sense, phase 0 only: 0 to 64 rows of sign (1 add, 2 withdraw), p, a, b." Four words a row. Refusals 1, 6, 7, 8, 9.
pub fn sense(program: &[u32], config: Config, rows: &[u32]) -> Reply<Counts>
    ensures result_value { reported result ≡ reply (to_sense (given_rows program.now) (readings_of rows.now)) (conf config) }
    ensures untouched { OnErr result.answer (result.config ≡ config) }
{
    let mut next = config;
    let answer = in_place::sense(program, &mut next.words, &mut next.scalars, rows);
    Reply {
        config: next,
        answer,
    }
}

// "step": a rule of the phase's set fires, or a plan is executed. Refusals 1, 6, 8, 9, 10, 11.
#[tactic(auto, using(crate::proofs::Replies::obeys))]
pub fn step(program: &[u32], config: Config) -> Reply<Stepped>
    ensures result_value { step_reported result ≡ reply (to_step (given_rows program.now)) (conf config) }
    ensures untouched { OnErr result.answer (result.config ≡ config) }
    ensures obeys { Obeys (given_rows program.now) (conf config) result }
{
    let mut next = config;
    let answer = in_place::step(program, &mut next.words, &mut next.scalars);
    Reply {
        config: next,
        answer,
    }
}

// "run, with a limit of 1 to 10,000, outside phase 0 and not waiting (else 6)": steps in turn. Refusals 1, 6, 7.
pub fn run(program: &[u32], config: Config, limit: u32) -> Reply<Ran>
    ensures result_value { run_reported result ≡ run-of-steps (given_rows program.now) (conf config) limit }
    ensures untouched { OnErr result.answer (result.config ≡ config) }
{
    let mut next = config;
    let answer = in_place::run(program, &mut next.words, &mut next.scalars, limit);
    Reply {
        config: next,
        answer,
    }
}

// How many calls were worked, "made" and "gone" of them all.
#[derive(Clone, Copy)]
pub struct Worked {
    pub calls: usize,
    pub made: u32,
    pub gone: u32,
}

// What a list of calls came to: the refusal and line of its load, or what its calls did.
#[derive(Clone, Copy)]
pub struct Played {
    pub config: Config,
    pub worked: Result<Worked, LoadError>,
}

// How many words a call's own program has.
fn own_words(own: u32) -> usize
    ensures { result ≡ own - 1 }
{
    own.saturating_sub(1) as usize
}

// kept: the kind of a call is a number in words from outside; any number may stand there.

// How many words a call's readings are.
fn reading_words(kind: u32, n: u32) -> usize
    ensures { result ≡ (if eqb kind 1 then n else 0) }
{
    if kind == 1 { n as usize } else { 0 }
}

// How many words the first call takes, if there is one.
fn call_size(words: &[u32]) -> Option<usize>
    ensures { SizeOf (call_size words.now) result }
{
    if words.len() < 3 {
        return None;
    }
    let kind = words[0];
    let size = 3 + own_words(words[1]) + reading_words(kind, words[2]);
    ((1 <= kind) & (kind <= 4) & (size <= words.len())).then_some(size)
}

// A step without what it did.
fn stepped(program: &[u32], config: Config) -> Reply<Counts>
    ensures { reported result ≡ call_answer (reply (to_step (given_rows program.now)) (conf config)) }
{
    let r = step(program, config);
    Reply {
        config: r.config,
        answer: r.answer.map(|t| Counts {
            made: t.made,
            gone: t.gone,
        }),
    }
}

// The call of this kind; a sense's readings stand first in the rest.
fn work_call(program: &[u32], config: Config, kind: u32, n: u32, rest: &[u32]) -> Reply<Counts>
    requires { kind ≡ 1 → n ≤ length rest.now }
    ensures { reported result ≡ call_answer (reply (call_by (given_rows program.now) kind n rest.now) (conf config)) }
{
    match kind {
        1 => sense(program, config, &rest[..n as usize]),
        2 => stepped(program, config),
        3 => answer(program, config, n),
        _ => delete(program, config, n),
    }
}

// The first call, with its own program or the loaded one.
fn play_call(program: &[u32], config: Config, words: &[u32]) -> Reply<Counts>
    requires { call_size words.now ≢ 0 }
    ensures { reported result ≡ call_answer (reply (first_call (given_rows program.now) words.now) (conf config)) }
{
    let kind = words[0];
    let own = words[1];
    let n = words[2];
    let end = 3 + own_words(own);
    let rest = &words[end..];
    if own == 0 {
        return work_call(program, config, kind, n, rest);
    }
    work_call(&words[3..end], config, kind, n, rest)
}

impl Worked {
    // One call more.
    fn and(self, told: Counts) -> Worked
        requires { (self.calls < 18446744073709551615) × (self.made + told.made ≤ 65536) × (self.gone + told.gone ≤ 65536) }
        ensures { result ≡ and_counted self told }
    {
        Worked {
            calls: self.calls + 1,
            made: self.made + told.made,
            gone: self.gone + told.gone,
        }
    }
}

// The calls, one after the other, until the words are no call.
fn play_calls(program: &[u32], config: Config, calls: &[u32]) -> Played
    requires { Begun program.now (conf config) }
    ensures { outcome result ≡ after_calls (given_rows program.now) (calls_of (given_rows program.now) calls.now) }
{
    let mut config = config;
    let mut worked = Worked {
        calls: 0,
        made: 0,
        gone: 0,
    };
    let mut at: usize = 0;
    // kept: no plainer otherwise. The place goes on by the size of the call.
    while let Some(size) = call_size(&calls[at..]) {
        let r = play_call(program, config, &calls[at..]);
        config = r.config;
        worked = worked.and(r.answer.unwrap_or(Counts { made: 0, gone: 0 }));
        at += size;
    }
    Played {
        config,
        worked: Ok(worked),
    }
}

// Loads the text and works the calls, each with its own program or the loaded one (`specs/Playing` has their words).
pub fn play(text: &[u8], calls: &[u32]) -> Played
    ensures result_value { outcome result ≡ playing text.now calls.now }
    ensures accounted { AccountedFor text.now calls.now result }
    ensures every_list { EveryList }
{
    let mut rows = [0u32; 4096];
    let mut config = Config::fresh();
    match loading::load(text, &mut rows, &mut config) {
        Ok(n) => play_calls(&rows[..n as usize * 8], config, calls),
        Err(error) => Played {
            config,
            worked: Err(error),
        },
    }
}
