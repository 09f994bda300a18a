// Well-formedness of a configuration with its program: one pass over the atoms, one over the plans.
#![tactic(auto)]

ghost use Rattle.std.specs.Prelude.{◌≡◌, map, ◌+◌, ◌≤◌, length};
ghost use Rattle.lists.specs.Lists.{Pairs};
ghost use Rattle.model.specs.Program.{sets};
ghost use Rattle.model.specs.Deletion.{node};
ghost use Rattle.model.specs.WellFormed.{waiting_formed, config_formed};
ghost use Rattle.program.specs.Rows.{rows_of};
ghost use Rattle.program_laws.specs.Lawful.{NotLater, Lawful};
ghost use Rattle.state.specs.View.{config_of, atoms_of, plans_of, PlansRise};
ghost use Rattle.formed_plans.specs.Plans.{AtomsStand, plan_fits};
ghost use Rattle.formed.specs.Passes.{in_order, atom_id, plan_id, atom_fits, SubgoalsAlive, subgoals_differ, limits_hold};

use formed_plans::Near;
use model::Atom;
use state::{Config, Scalars, Words};

// The atom is below the next id and within its limits.
#[tactic(auto, unfolding(model::specs::WellFormed::atom_formed))]
fn atom_fits(x: Atom, next: u32) -> bool
    ensures { result ≡ atom_fits next x }
{
    (x.id < next)
        & ((1 <= x.p) & ((x.p <= 255) & ((x.a <= 65535) & ((x.b <= 65535) & (x.cycle <= 65535)))))
}

// The atoms' ids rise from 1 on, and each atom fits.
#[tactic(auto, using(crate::proofs::Passes::testing))]
fn atoms_formed(words: &Words, atoms: u32, next: u32) -> bool
    requires { atoms ≤ 256 }
    ensures { result ≡ in_order atom_id (atom_fits next) (atoms_of atoms words.now) }
{
    let mut fits = true;
    let mut before: u32 = 0;
    for k in 0..atoms as usize {
        let x = state::atom_at(words, k);
        fits = fits & ((before < x.id) & atom_fits(x, next));
        before = x.id;
    }
    fits
}

// The plans' ids rise from 1 on, and each plan fits.
#[tactic(auto, using(crate::proofs::Passes::passing))]
fn plans_formed(program: &[u32], words: &Words, scalars: Scalars) -> bool
    requires { AtomsStand words.now scalars.atoms × (scalars.plans ≤ 64) × Pairs NotLater (rows_of program.now) }
    ensures { result ≡ in_order plan_id (plan_fits (rows_of program.now) (config_of words.now scalars)) (plans_of scalars.plans words.now) }
{
    let n = scalars.plans as usize;
    if n == 0 {
        return true;
    }
    let atoms = scalars.atoms;
    let first_set = state::plan_set(words, 0);
    let first_rule = state::plan_rule(words, 0);
    let mut at = formed_plans::clauses_of(program, first_set, first_rule);
    let mut near = Near {
        place: 0,
        first: 0,
        second: 0,
        third: 0,
        fourth: 0,
        subgoal: 0,
    };
    let mut before: u32 = 0;
    for k in 0..n {
        let set = state::plan_set(words, k);
        let rule = state::plan_rule(words, k);
        if (at.set != set) | (at.rule != rule) {
            at = formed_plans::clauses_of(program, set, rule);
        }
        near = formed_plans::near_of(words, atoms, k, near);
        let id = state::plan_id(words, k);
        let fits = (before < id) & formed_plans::plan_fits(program, words, scalars, k, at, near);
        if !fits {
            return false;
        }
        before = id;
    }
    true
}

// "no atom is the subgoal of two plans": a mark at each atom that is one.
#[tactic(auto, using(crate::proofs::Apart::marking))]
fn subgoals_differ(words: &Words, atoms: u32, plans: u32) -> bool
    requires { AtomsStand words.now atoms × (plans ≤ 64) × SubgoalsAlive atoms plans words.now }
    ensures { result ≡ subgoals_differ (map node (plans_of plans words.now)) }
{
    let mut marks = [false; 256];
    let mut guess: usize = 0;
    for k in 0..plans as usize {
        let subgoal = state::plan_subgoal(words, k);
        if subgoal != 0 {
            let Some(i) = state::find_near(words, atoms, subgoal, guess) else {
                return false;
            };
            if marks[i] {
                return false;
            }
            marks[i] = true;
            guess = i;
        }
    }
    true
}

// "a waiting plan is alive, in exec phase, with an external action first"
#[tactic(auto, unfolding(model::specs::WellFormed::waiting_formed), using(crate::proofs::Waiting::waiting_found, crate::proofs::Waiting::waiting_absent))]
fn waiting_formed(program: &[u32], words: &Words, scalars: Scalars, exec: u32) -> bool
    requires { (scalars.plans ≤ 64) × PlansRise scalars.plans words.now × Pairs NotLater (rows_of program.now) × (exec ≡ sets (rows_of program.now) + 1) }
    ensures { result ≡ waiting_formed (rows_of program.now) (config_of words.now scalars) }
{
    let waiting = scalars.waiting;
    if waiting == 0 {
        return true;
    }
    if scalars.phase != exec {
        return false;
    }
    let plans = scalars.plans;
    match state::find_plan(words, plans, waiting) {
        Some(k) => formed_plans::acts_first(program, words, k),
        None => false,
    }
}

// "k = number of rule sets": the set of the last row.
#[tactic(auto, using(crate::proofs::Sets::sets_none, crate::proofs::Sets::sets_last))]
pub fn sets_of(program: &[u32]) -> u32
    requires { Pairs NotLater (rows_of program.now) }
    ensures { result ≡ sets (rows_of program.now) }
{
    let rows = program.len() / 8;
    if rows == 0 {
        return 0;
    }
    let last = program::row_at(program, rows - 1);
    last.set
}

// "all limits above hold", where exec is the last phase.
fn limits_hold(scalars: Scalars, exec: u32) -> bool
    ensures { result ≡ limits_hold exec scalars }
{
    (scalars.atoms <= Config::MOST_ATOMS)
        & ((scalars.plans <= Config::MOST_PLANS)
            & ((scalars.phase <= exec)
                & ((scalars.cycle <= 65535)
                    & ((1 <= scalars.next) & (scalars.next <= Config::LAST_NEXT)))))
}

// "A configuration is [well formed] when ..": every clause of the paper, for a program that is well formed.
#[tactic(auto, using(crate::proofs::Clauses::clauses, crate::proofs::Clauses::few_atoms, crate::proofs::Clauses::few_plans, crate::proofs::Clauses::atoms_stand, crate::proofs::Clauses::plans_rise, crate::proofs::Clauses::subgoals_alive, program_laws::proofs::Sets::sets_few))]
pub fn config_formed(program: &[u32], words: &Words, scalars: Scalars) -> bool
    requires { Lawful (rows_of program.now) }
    ensures { result ≡ config_formed (rows_of program.now) (config_of words.now scalars) }
{
    let exec = sets_of(program) + 1;
    if !limits_hold(scalars, exec) {
        return false;
    }
    if !atoms_formed(words, scalars.atoms, scalars.next) {
        return false;
    }
    if !plans_formed(program, words, scalars) {
        return false;
    }
    if !subgoals_differ(words, scalars.atoms, scalars.plans) {
        return false;
    }
    waiting_formed(program, words, scalars, exec)
}
