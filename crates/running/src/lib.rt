// A step by its phase, in place; and steps in turn.
#![tactic(auto)]

ghost use Rattle.std.specs.Prelude.{◌≡◌, ◌≤◌, OnErr};
ghost use Rattle.model.specs.Log.{answer_of};
ghost use Rattle.model.specs.Calls.{step};
ghost use Rattle.model.specs.Run.{steps_of};
ghost use Rattle.program.specs.Rows.{rows_of};
ghost use Rattle.state.specs.View.{config_of};
ghost use Rattle.stepping.specs.Steps.{answered_by};
ghost use Rattle.running.specs.Running.{InTurn, run_of};

use model::Refusal;
use state::{Scalars, Words};
use stepping::Progress;

// Why a run stopped: "phase 0, waiting, the limit, or a next step that would be refused", with its cause.
#[derive(Clone, Copy)]
pub enum Stop {
    Phase0,
    Waiting,
    Limit,
    Refused(Refusal),
}

// What a run leaves beside the words: the scalars, "the steps taken, their made and gone summed, and which".
#[derive(Clone, Copy)]
pub struct Course {
    pub scalars: Scalars,
    pub steps: u32,
    pub made: u32,
    pub gone: u32,
    pub stop: Stop,
}

// One step. Refusals 8, 9, 10, 11.
#[tactic(auto, using(crate::proofs::Advanced::by_its_phase))]
pub fn advance(program: &[u32], words: &mut Words, scalars: Scalars) -> Result<Progress, Refusal>
    requires { InTurn program.now words.old scalars }
    ensures result_after { answered_by scalars words.new result ≡ answer_of (config_of words.old scalars) (step (rows_of program.now) (config_of words.old scalars)) }
    ensures untouched { OnErr result (words.new ≡ words.old) }
{
    if scalars.phase <= formed::sets_of(program) {
        return firing::fire_first(program, words, scalars);
    }
    executing::execute(program, words, scalars)
}

// "takes steps until phase 0, waiting, the limit, or a next step that would be refused, tested in that order after each step (the last
// also before the first)". The configuration stays well formed, so that is not tested again.
#[tactic(auto, using(crate::proofs::Turns::made_fits))]
pub fn run_on(program: &[u32], words: &mut Words, scalars: Scalars, limit: u32) -> Course
    requires { InTurn program.now words.old scalars × (limit ≤ 10000) }
    ensures { run_of words.new result ≡ steps_of (rows_of program.now) limit (config_of words.old scalars) }
{
    let mut s = scalars;
    let mut made: u32 = 0;
    let mut gone: u32 = 0;
    for steps in 0..limit {
        let p = match advance(program, words, s) {
            Ok(p) => p,
            Err(refusal) => {
                return Course {
                    scalars: s,
                    steps,
                    made,
                    gone,
                    stop: Stop::Refused(refusal),
                };
            }
        };
        made += p.scalars.next - s.next;
        gone += p.gone;
        s = p.scalars;
        if s.phase == 0 {
            return Course {
                scalars: s,
                steps: steps + 1,
                made,
                gone,
                stop: Stop::Phase0,
            };
        }
        if s.waiting != 0 {
            return Course {
                scalars: s,
                steps: steps + 1,
                made,
                gone,
                stop: Stop::Waiting,
            };
        }
    }
    Course {
        scalars: s,
        steps: limit,
        made,
        gone,
        stop: Stop::Limit,
    }
}
