// The actions of a meta rule, in place and in order.
#![tactic(auto)]

ghost use Rattle.std.specs.Prelude.{◌≡◌, ◌≤◌, OnErr, IfOk, IfSome};
ghost use Rattle.model.specs.Configuration.{operand as operand-of};
ghost use Rattle.model.specs.Log.{answer_of};
ghost use Rattle.state.specs.View.{config_of};
ghost use Rattle.stepping.specs.Steps.{answered_by};
ghost use Rattle.acting.specs.Actions.{with_value as with-value-of, Workable, FlagNumber, Acts, Deletes, Fires, Shown, meta_work};

use matching::Rule;
use model::{Refusal, Row};
use state::{Config, Scalars, Words};
use stepping::{Did, Made, Progress};

// What an action leaves: the scalars, the variables' values, how many instances went, the last atom made.
#[derive(Clone, Copy)]
pub struct Acted {
    pub scalars: Scalars,
    pub values: [u32; 8],
    pub gone: u32,
    pub made: Made,
}

// The number that an operand stands for.
#[tactic(auto, using(crate::proofs::Operands::operand_constant, crate::proofs::Operands::operand_any, crate::proofs::Operands::operand_variable))]
fn operand(values: [u32; 8], x: u32) -> u32
    ensures { result ≡ operand-of values x }
{
    match x {
        0 => state::NO_VALUE,
        1..=8 => values[(8 - x) as usize],
        _ => x - 9,
    }
}

// "its id going to variable i": the values afterwards.
#[tactic(auto, using(crate::proofs::Operands::value_taken, crate::proofs::Operands::value_left))]
fn with_value(values: [u32; 8], x: u32, id: u32) -> [u32; 8]
    ensures { result ≡ with-value-of values x id }
{
    let mut after = values;
    if let 1..=8 = x {
        after[(8 - x) as usize] = id;
    }
    after
}

// "21 add-atom p, a, b, its id going to variable i". Refusals 8, 9.
#[tactic(auto, using(state::proofs::Room::bar_free))]
fn add_atom(
    words: &mut Words,
    scalars: Scalars,
    row: Row,
    values: [u32; 8],
    made: Made,
) -> Result<Option<Acted>, Refusal>
    requires { Workable words.old scalars × (row.op ≡ 21) }
    ensures acts { Acts row values made scalars words.old words.new result }
    ensures workable { IfOk result (λ o. IfSome o (λ x. Workable words.new x.scalars × (x.gone ≤ 320))) }
{
    state::room_for_atom(scalars)?;
    let id = scalars.next;
    let a = operand(values, row.a);
    let b = operand(values, row.b);
    let left = state::append_atom(words, scalars, row.p, a, b);
    Ok(Some(Acted {
        scalars: left,
        values: with_value(values, row.i, id),
        gone: 0,
        made: Made::Atom(id),
    }))
}

// "22 delete-atom i", "25 delete-plan i": an id that lives goes, with all that it leads to.
#[tactic(auto, using(crate::proofs::Actions::deleted))]
fn delete(words: &mut Words, scalars: Scalars, values: [u32; 8], made: Made, id: u32) -> Acted
    requires { Workable words.old scalars }
    ensures deletes { Deletes id values made (config_of words.old scalars) (config_of words.new result.scalars) result }
    ensures workable { Workable words.new result.scalars × (result.gone ≤ 320) }
{
    let r = deletion::remove(words, scalars, id);
    Acted {
        scalars: r.scalars,
        values,
        gone: r.gone,
        made,
    }
}

// One action; none: the actions stop, "its id is not a live instance of its kind".
#[tactic(auto, using(state::proofs::Live::sound_atoms_rise, state::proofs::Live::sound_plans_rise, crate::proofs::Workable::can_flag))]
fn act(
    words: &mut Words,
    scalars: Scalars,
    row: Row,
    values: [u32; 8],
    made: Made,
) -> Result<Option<Acted>, Refusal>
    requires { Workable words.old scalars × FlagNumber row }
    ensures acts { Acts row values made scalars words.old words.new result }
    ensures workable { IfOk result (λ o. IfSome o (λ x. Workable words.new x.scalars × (x.gone ≤ 320))) }
{
    let op = row.op;
    if op == 21 {
        return add_atom(words, scalars, row, values, made);
    }
    let id = operand(values, row.i);
    if op == 22 {
        if state::find_atom(words, scalars.atoms, id).is_none() {
            return Ok(None);
        }
        return Ok(Some(delete(words, scalars, values, made, id)));
    }
    let Some(k) = state::find_plan(words, scalars.plans, id) else {
        return Ok(None);
    };
    match op {
        23 => state::set_flag(words, scalars, k, model::constant(row.a)),
        24 => state::clear_flag(words, scalars, k, model::constant(row.a)),
        _ => return Ok(Some(delete(words, scalars, values, made, id))),
    }
    Ok(Some(Acted {
        scalars,
        values,
        gone: 0,
        made,
    }))
}

// "A meta rule's actions run in order and stop at the first whose id is not a live instance of its kind; earlier ones stand." Where one
// meets a limit the words are left as they are then.
fn act_all(
    program: &[u32],
    words: &mut Words,
    scalars: Scalars,
    rule: Rule,
    values: [u32; 8],
) -> Result<Progress, Refusal>
    requires { Fires program.now words.old scalars rule }
    ensures { Shown (meta_work program.now (config_of words.old scalars) rule values) words.new result }
{
    let mut s = scalars;
    let mut v = values;
    let mut made = Made::Nothing;
    let mut gone: u32 = 0;
    for k in rule.body..rule.end {
        let row = program::row_at(program, k);
        let Some(x) = act(words, s, row, v, made)? else {
            break;
        };
        s = x.scalars;
        v = x.values;
        made = x.made;
        gone += x.gone;
    }
    Ok(Progress {
        scalars: s,
        gone,
        did: Did::Fired {
            set: rule.set,
            rule: rule.number,
            made,
        },
    })
}

// A meta rule fires. "a refused call undoes its earlier part": the words are saved, and put back if an action meets a limit. None can
// where eight more atoms could be made, since a body has eight rows at most.
pub fn fire_meta(
    program: &[u32],
    words: &mut Words,
    scalars: Scalars,
    rule: Rule,
    values: [u32; 8],
) -> Result<Progress, Refusal>
    requires { Fires program.now words.old scalars rule }
    ensures result_after { answered_by scalars words.new result ≡ answer_of (config_of words.old scalars) (meta_work program.now (config_of words.old scalars) rule values) }
    ensures untouched { OnErr result (words.new ≡ words.old) }
{
    if (scalars.next <= Config::LAST_NEXT - 8) & (scalars.atoms <= Config::MOST_ATOMS - 8) {
        return act_all(program, words, scalars, rule, values);
    }
    let saved = *words;
    let result = act_all(program, words, scalars, rule, values);
    if result.is_err() {
        *words = saved;
    }
    result
}
