// What a step did and what it leaves; a plan that was executed: done or failed, and stepped.
#![tactic(auto)]

ghost use Rattle.std.specs.Prelude.{◌≡◌, ◌≤◌};
ghost use Rattle.model.specs.Calls.{set_stepped, set_failed, remove_step};
ghost use Rattle.state.specs.View.{plan_at, config_of, LivePlan};

use state::{Scalars, Words};

// "the plan or last atom made, or none"
#[derive(Clone, Copy)]
pub enum Made {
    Nothing,
    Atom(u32),
    Plan(u32),
}

// "how: empty, held by its subgoal, done, failed"
#[derive(Clone, Copy)]
pub enum How {
    Empty,
    Held,
    Done,
    Failed,
}

// "What a step did is one of: fired .., moved on, executed .., waits .., cycle ended".
#[derive(Clone, Copy)]
pub enum Did {
    Fired { set: u32, rule: u32, made: Made },
    MovedOn,
    Executed { plan: u32, how: How },
    Waits { plan: u32, p: u32, a: u32, b: u32 },
    CycleEnded,
}

// What a step leaves beside the words: the scalars, how many instances went, what it did.
#[derive(Clone, Copy)]
pub struct Progress {
    pub scalars: Scalars,
    pub gone: u32,
    pub did: Did,
}

// "2 scheduled, 3 stepped, 4 failed"
pub const SCHEDULED: u32 = 2;

pub const STEPPED: u32 = 3;

pub const FAILED: u32 = 4;

// "the step is removed"; stepped is set.
#[tactic(auto, using(crate::proofs::Changed::ready_removed, crate::proofs::Changed::succeeded))]
pub fn succeed(words: &mut Words, scalars: Scalars, k: usize)
    requires { LivePlan words.old scalars k × ((plan_at words.old k).flags ≤ 65535) }
    ensures { config_of words.new scalars ≡ set_stepped (plan_at words.old k).id (remove_step (plan_at words.old k).id (config_of words.old scalars)) }
{
    state::remove_step(words, scalars, k);
    state::set_flag(words, scalars, k, STEPPED);
}

// "failed is set"; stepped is set.
#[tactic(auto, using(crate::proofs::Changed::ready_failed, crate::proofs::Changed::failed))]
pub fn fail(words: &mut Words, scalars: Scalars, k: usize)
    requires { LivePlan words.old scalars k × ((plan_at words.old k).flags ≤ 65535) }
    ensures { config_of words.new scalars ≡ set_stepped (plan_at words.old k).id (set_failed (plan_at words.old k).id (config_of words.old scalars)) }
{
    state::set_flag(words, scalars, k, FAILED);
    state::set_flag(words, scalars, k, STEPPED);
}
