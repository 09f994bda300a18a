// The work of sense, in place: readings added and withdrawn, row by row.
#![tactic(auto)]

ghost use Rattle.std.specs.Prelude.{◌≡◌, true, ◌+◌, ◌-◌, ◌*◌, ◌/◌, ◌<◌, ◌≤◌, length, IfOk};
ghost use Rattle.lists.specs.Lists.{every};
ghost use Rattle.program.specs.Rows.{row_at, rows_of};
ghost use Rattle.state.specs.View.{atom_at, config_of};
ghost use Rattle.model.specs.Calls.{in_range as is_in_range, applies as does-apply, taken_as};
ghost use Rattle.sensing.specs.Sensing.{reading_of, reading_at, readings_from, Ready, Withdraws, SensesRow, SensesRows, is_ceiling, Bare};

use deletion::Removal;
use model::{Refusal, Row};
use state::{Scalars, Words};

// A row of sense.
#[derive(Clone, Copy)]
pub struct Reading {
    pub sign: u32,
    pub p: u32,
    pub a: u32,
    pub b: u32,
}

// The row is a ceiling that applies to the reading.
#[tactic(auto, unfolding(model::specs::Calls::applies))]
fn applies(r: Row, reading: Reading) -> bool
    ensures { result ≡ does-apply (reading_of reading) r }
{
    let a = model::constant(r.a);
    (r.set == 0) & ((r.op == 40) & ((r.p == reading.p) & (a <= reading.b)))
}

// Where ceilings stand: none stands before `from` or from `to` on.
#[derive(Clone, Copy)]
pub struct Bounds {
    pub from: usize,
    pub to: usize,
}

// The row is a ceiling.
fn is_ceiling(program: &[u32], k: usize) -> bool
    requires { k * 8 + 8 ≤ length program.now }
    ensures { result ≡ is_ceiling (row_at program.now k) }
{
    let set = table::read(program, 8, k, 0);
    let op = table::read(program, 8, k, 3);
    (set == 0) & (op == 40)
}

// From the first ceiling up to behind the last.
fn ceilings_of(program: &[u32]) -> Bounds
    ensures { Bare program.now result.from result.to }
{
    let mut from: usize = 0;
    let mut to: usize = 0;
    for k in 0..program.len() / 8 {
        if is_ceiling(program, k) {
            if to == 0 {
                from = k;
            }
            to = k + 1;
        }
    }
    Bounds { from, to }
}

// "a sensed p whose second argument is at least a (1 to 65,535) is taken as predicate b (1 to 255), once"
#[tactic(auto, using(crate::proofs::Ceilings::taking))]
pub fn taken_as(program: &[u32], at: Bounds, reading: Reading) -> u32
    requires { Bare program.now at.from at.to }
    ensures { result ≡ taken_as (rows_of program.now) (reading_of reading) }
{
    for k in at.from..at.to {
        let r = program::row_at(program, k);
        if applies(r, reading) {
            return model::constant(r.b);
        }
    }
    reading.p
}

// "A withdrawal deletes each live equal atom, lowest id first."
#[tactic(auto, using(crate::proofs::Withdrawals::withdrawing))]
pub fn withdraw(words: &mut Words, scalars: Scalars, p: u32, a: u32, b: u32) -> Removal
    requires { Ready words.old scalars }
    ensures withdraws { Withdraws p a b (config_of words.old scalars) (config_of words.new result.scalars) result.gone }
    ensures ready { Ready words.new result.scalars × (result.gone ≤ 320) }
{
    let mut s = scalars;
    let mut gone: u32 = 0;
    let mut k: usize = 0;
    // kept: no plainer otherwise. The index stands where an atom went, and jumps past those that are not equal; their number falls.
    while k < s.atoms as usize {
        if state::is_equal(words, k, p, a, b) {
            let x = state::atom_at(words, k);
            let r = deletion::remove(words, s, x.id);
            s = r.scalars;
            gone += r.gone;
        } else {
            k = state::pass_unequal(words, p, a, b, k + 1, s.atoms as usize);
        }
    }
    Removal { scalars: s, gone }
}

// One row of sense.
#[tactic(auto, using(crate::proofs::Readings::sensing))]
pub fn sense_row(
    program: &[u32],
    at: Bounds,
    words: &mut Words,
    scalars: Scalars,
    reading: Reading,
) -> Result<Removal, Refusal>
    requires { Ready words.old scalars × Bare program.now at.from at.to }
    ensures senses_row { SensesRow (rows_of program.now) (reading_of reading) (config_of words.old scalars) words.new result }
    ensures ready { IfOk result (λ r. Ready words.new r.scalars × (r.gone ≤ 320)) }
{
    let p = taken_as(program, at, reading);
    if reading.sign == 1 {
        state::room_for_atom(scalars)?;
        return Ok(Removal {
            scalars: state::append_atom(words, scalars, p, reading.a, reading.b),
            gone: 0,
        });
    }
    Ok(withdraw(words, scalars, p, reading.a, reading.b))
}

// Row k of sense.
fn reading_at(rows: &[u32], k: usize) -> Reading
    requires { k * 4 + 4 ≤ length rows.now }
    ensures { reading_of result ≡ reading_at rows.now k }
{
    Reading {
        sign: table::read(rows, 4, k, 0),
        p: table::read(rows, 4, k, 1),
        a: table::read(rows, 4, k, 2),
        b: table::read(rows, 4, k, 3),
    }
}

// "Rows in order": all rows, or the refusal that one of them meets.
#[tactic(auto, using(crate::proofs::Readings::in_turn))]
pub fn sense_rows(
    program: &[u32],
    words: &mut Words,
    scalars: Scalars,
    rows: &[u32],
) -> Result<Removal, Refusal>
    requires { Ready words.old scalars × (length rows.now ≤ 256) }
    ensures senses_rows { SensesRows (rows_of program.now) (readings_from rows.now 0 (length rows.now / 4)) (config_of words.old scalars) words.new result }
    ensures ready { IfOk result (λ r. Ready words.new r.scalars) }
{
    let at = ceilings_of(program);
    let mut s = scalars;
    let mut gone: u32 = 0;
    for k in 0..rows.len() / 4 {
        let w = sense_row(program, at, words, s, reading_at(rows, k))?;
        s = w.scalars;
        gone += w.gone;
    }
    Ok(Removal { scalars: s, gone })
}

// "sign (1 add, 2 withdraw), p, a, b" in their ranges.
#[tactic(auto, unfolding(model::specs::Calls::in_range))]
fn in_range(r: Reading) -> bool
    ensures { result ≡ is_in_range (reading_of r) }
{
    ((1 <= r.sign) & (r.sign <= 2))
        & (((1 <= r.p) & (r.p <= 255)) & ((r.a <= 65535) & (r.b <= 65535)))
}

// "sense row .. out of range": every row is in range.
pub fn rows_in_range(rows: &[u32]) -> bool
    ensures { result ≡ every is_in_range (readings_from rows.now 0 (length rows.now / 4)) }
{
    (0..rows.len() / 4).all(|k| in_range(reading_at(rows, k)))
}
