// The first rule of a set that has a match fires, in place; or the set is left.
#![tactic(auto)]

ghost use Rattle.std.specs.Prelude.{◌≡◌, ◌≤◌, OnErr};
ghost use Rattle.model.specs.Program.{sets};
ghost use Rattle.model.specs.Matching.{firing};
ghost use Rattle.model.specs.Log.{begin, answer_of};
ghost use Rattle.model.specs.Calls.{fire_first as fires_first};
ghost use Rattle.program.specs.Rows.{rows_of};
ghost use Rattle.state.specs.View.{config_of};
ghost use Rattle.stepping.specs.Steps.{answered_by, WellWords};
ghost use Rattle.firing.specs.Raising.{raised, Raises};

use matching::Choice;
use model::Refusal;
use state::{Scalars, Words};
use stepping::{Did, Made, Progress};

// "An object rule makes a plan with no flags." Refusals 8, 10.
#[tactic(auto, using(state::proofs::Room::plan_bar_free))]
fn fire_object(words: &mut Words, scalars: Scalars, x: Choice) -> Result<Progress, Refusal>
    requires { Raises words.old scalars x }
    ensures result_after { answered_by scalars words.new result ≡ answer_of (config_of words.old scalars) (raised x (begin (config_of words.old scalars))) }
    ensures untouched { OnErr result (words.new ≡ words.old) }
{
    state::room_for_plan(scalars)?;
    let rule = x.rule;
    let found = x.bindings;
    let reasons = matching::rising_set(found.matched, found.count);
    let left = (rule.end - rule.body) as u32;
    let id = scalars.next;
    let made = state::append_plan(
        words,
        scalars,
        rule.set,
        rule.number,
        left,
        reasons.ids,
        found.values,
    );
    Ok(Progress {
        scalars: made,
        gone: 0,
        did: Did::Fired {
            set: rule.set,
            rule: rule.number,
            made: Made::Plan(id),
        },
    })
}

// "the first rule in rising number that has a match fires once; if there is none the phase rises by 1". Refusals 8, 9, 10.
#[tactic(auto, using(stepping::proofs::Standing::lawful_rows, crate::proofs::Fired::well_limits))]
pub fn fire_first(program: &[u32], words: &mut Words, scalars: Scalars) -> Result<Progress, Refusal>
    requires { WellWords program.now words.old scalars × (scalars.waiting ≡ 0) × (scalars.phase ≤ sets (rows_of program.now)) }
    ensures result_after { answered_by scalars words.new result ≡ answer_of (config_of words.old scalars) (fires_first (rows_of program.now) (config_of words.old scalars) (firing (rows_of program.now) (config_of words.old scalars) scalars.phase)) }
    ensures untouched { OnErr result (words.new ≡ words.old) }
{
    let Some(x) = matching::choose(program, words, scalars, scalars.phase) else {
        return Ok(Progress {
            scalars: scalars.with_phase(scalars.phase + 1),
            gone: 0,
            did: Did::MovedOn,
        });
    };
    if x.rule.object {
        return fire_object(words, scalars, x);
    }
    acting::fire_meta(program, words, scalars, x.rule, x.bindings.values)
}
