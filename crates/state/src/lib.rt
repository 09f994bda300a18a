// The configuration: atoms and plans as two tables in one slice of words, the scalars beside it by value.
#![tactic(auto)]

ghost use Rattle.std.specs.Prelude.{◌≡◌, false, not, ℕ, ◌+◌, ◌-◌, ◌*◌, ◌<◌, ◌≤◌, length, get_or};
ghost use Rattle.lists.specs.Lists.{member};
ghost use Rattle.lists.specs.Tables.{PlaceOf, trimmed};
ghost use Rattle.model.specs.Refusals.{RefusedBy, number_of};
ghost use Rattle.model.specs.Configuration.{empty, no_value, with_flag, without_flag, has_flag, equal_to, with_flags, step_removed, change_plan, add_atom, add_plan, add_subgoal};
ghost use Rattle.state.specs.View.{atom_at, plan_at, config_of, atom_ids_of, plan_ids_of, AtomsRise, PlansRise, LivePlan, atom_counted, plan_counted, phase_put, cycle_put, waiting_put, counts_put, one_more, plan_by_value, plan_word, with_plan_word, plan_words, bar, atom_bar, plan_bar};

use model::{Atom, Refusal};

// The value of a variable that has none.
pub const NO_VALUE: u32 = 65536;

// Where each column of the atoms begins among the words, behind that of the ids; and where the plans begin.
pub const ATOM_P: usize = 256;

pub const ATOM_A: usize = 512;

pub const ATOM_B: usize = 768;

pub const ATOM_CYCLE: usize = 1024;

pub const PLANS_AT: usize = 1280;

// Phase, cycle, next id, the plan waiting for an answer or 0, how many atoms and how many plans live.
#[derive(Clone, Copy)]
pub struct Scalars {
    pub phase: u32,
    pub cycle: u32,
    pub next: u32,
    pub waiting: u32,
    pub atoms: u32,
    pub plans: u32,
}

// 256 atoms by columns (ids, p, a, b, cycles), then 64 plans of 18 (id set rule left flags subgoal, four justifications, eight values).
pub type Words = [u32; 2432];

// The words go by reference and the scalars by value, side by side: the C interface lends them as two tables, and what a refused call
// was given is still in its caller's hands.
#[derive(Clone, Copy)]
pub struct Config {
    pub words: Words,
    pub scalars: Scalars,
}

// A plan by value: its justifications rise, with zeros behind.
#[derive(Clone, Copy)]
pub struct Plan {
    pub id: u32,
    pub set: u32,
    pub rule: u32,
    pub left: u32,
    pub flags: u32,
    pub subgoal: u32,
    pub justifications: [u32; 4],
    pub values: [u32; 8],
}

impl Config {
    pub const MOST_ATOMS: u32 = 256;

    pub const MOST_PLANS: u32 = 64;

    pub const LAST_NEXT: u32 = 65536;

    // "A fresh configuration has phase 0, cycle 0, next id 1"
    pub fn fresh() -> Config
        ensures { config_of result.words result.scalars ≡ empty }
    {
        Config {
            words: [0; 2432],
            scalars: Scalars {
                phase: 0,
                cycle: 0,
                next: 1,
                waiting: 0,
                atoms: 0,
                plans: 0,
            },
        }
    }
}

// "The sixteen flags of a plan instance are one 16-bit number, flag f having weight 2^(f-1)": set, cleared, tested.
#[tactic(auto, using(crate::proofs::Flags::sets_flag))]
pub fn with_flag(flags: u16, f: u32) -> u16
    requires { (1 ≤ f) × (f ≤ 16) }
    ensures { result ≡ with_flag f flags }
{
    flags | (1 << (f - 1))
}

#[tactic(auto, using(crate::proofs::Flags::clears_flag))]
pub fn without_flag(flags: u16, f: u32) -> u16
    requires { (1 ≤ f) × (f ≤ 16) }
    ensures { result ≡ without_flag f flags }
{
    flags & !(1 << (f - 1))
}

#[tactic(auto, using(crate::proofs::Flags::tests_flag))]
pub fn has_flag(flags: u16, f: u32) -> bool
    requires { (1 ≤ f) × (f ≤ 16) }
    ensures { result ≡ has_flag f flags }
{
    (flags >> (f - 1)) & 1 == 1
}

impl Scalars {
    // One more was made, so that these live.
    fn with_one_more(self, atoms: u32, plans: u32) -> Scalars
        requires { self.next < 65536 }
        ensures { result ≡ one_more atoms plans self }
    {
        Scalars {
            next: self.next + 1,
            ..self.with_counts(atoms, plans)
        }
    }

    pub fn with_phase(self, phase: u32) -> Scalars
        ensures { result ≡ phase_put phase self }
    {
        Scalars { phase, ..self }
    }

    // "cycle rises by 1, phase is 0"
    pub fn cycle_ended(self) -> Scalars
        requires { self.cycle < 65535 }
        ensures { result ≡ cycle_put self }
    {
        Scalars {
            phase: 0,
            cycle: self.cycle + 1,
            ..self
        }
    }

    pub fn with_counts(self, atoms: u32, plans: u32) -> Scalars
        ensures { result ≡ counts_put atoms plans self }
    {
        Scalars {
            atoms,
            plans,
            ..self
        }
    }

    pub fn with_waiting(self, id: u32) -> Scalars
        ensures { result ≡ waiting_put id self }
    {
        Scalars {
            waiting: id,
            ..self
        }
    }
}

// Atom k.
#[tactic(auto, unfolding(crate::specs::View::atom_at))]
pub fn atom_at(words: &Words, k: usize) -> Atom
    requires { k < 256 }
    ensures { result ≡ atom_at words.now k }
{
    Atom {
        id: words[k],
        p: words[ATOM_P + k],
        a: words[ATOM_A + k],
        b: words[ATOM_B + k],
        cycle: words[ATOM_CYCLE + k],
    }
}

// Atom k is p(a, b).
pub fn is_equal(words: &Words, k: usize, p: u32, a: u32, b: u32) -> bool
    requires { k < 256 }
    ensures { result ≡ equal_to p a b (atom_at words.now k) }
{
    let x = atom_at(words, k);
    (x.p == p) & ((x.a == a) & (x.b == b))
}

// One of eight atoms from k on is p(a, b): without a branch, so that they are compared side by side.
fn any_equal(words: &Words, k: usize, p: u32, a: u32, b: u32) -> bool
    requires { k + 8 ≤ 256 }
    ensures { result ≡ false → ((i : ℕ) → k ≤ i → i < k + 8 → equal_to p a b (atom_at words.now i) ≡ false) }
{
    let mut any = false;
    for i in k..k + 8 {
        any |= is_equal(words, i, p, a, b);
    }
    any
}

// From `from` on, past eights of n atoms that have no p(a, b).
pub fn pass_unequal(words: &Words, p: u32, a: u32, b: u32, from: usize, n: usize) -> usize
    requires { (from ≤ n) × (n ≤ 256) }
    ensures { (from ≤ result) × (result ≤ n) × ((i : ℕ) → from ≤ i → i < result → equal_to p a b (atom_at words.now i) ≡ false) }
{
    for k in (from..n).step_by(8) {
        if n < k + 8 || any_equal(words, k, p, a, b) {
            return k;
        }
    }
    n
}

// A word of plan k.
#[tactic(auto, using(crate::proofs::View::plans_lent))]
fn plan_word(words: &Words, k: usize, column: usize) -> u32
    requires { (k < 64) × (column < 18) }
    ensures { result ≡ plan_word words.now k column }
{
    table::read(&words[PLANS_AT..], 18, k, column)
}

// What stands in plan k, column by column.
#[tactic(auto, unfolding(crate::specs::View::plan_at))]
pub fn plan_id(words: &Words, k: usize) -> u32
    requires { k < 64 }
    ensures { result ≡ (plan_at words.now k).id }
{
    plan_word(words, k, 0)
}

#[tactic(auto, unfolding(crate::specs::View::plan_at))]
pub fn plan_set(words: &Words, k: usize) -> u32
    requires { k < 64 }
    ensures { result ≡ (plan_at words.now k).set }
{
    plan_word(words, k, 1)
}

#[tactic(auto, unfolding(crate::specs::View::plan_at))]
pub fn plan_rule(words: &Words, k: usize) -> u32
    requires { k < 64 }
    ensures { result ≡ (plan_at words.now k).rule }
{
    plan_word(words, k, 2)
}

#[tactic(auto, unfolding(crate::specs::View::plan_at))]
pub fn plan_left(words: &Words, k: usize) -> u32
    requires { k < 64 }
    ensures { result ≡ (plan_at words.now k).left }
{
    plan_word(words, k, 3)
}

#[tactic(auto, unfolding(crate::specs::View::plan_at))]
pub fn plan_flags(words: &Words, k: usize) -> u32
    requires { k < 64 }
    ensures { result ≡ (plan_at words.now k).flags }
{
    plan_word(words, k, 4)
}

#[tactic(auto, unfolding(crate::specs::View::plan_at))]
pub fn plan_subgoal(words: &Words, k: usize) -> u32
    requires { k < 64 }
    ensures { result ≡ (plan_at words.now k).subgoal }
{
    plan_word(words, k, 5)
}

// Justification j of plan k, 0 past the last.
#[tactic(auto, using(crate::proofs::View::plan_justification_is))]
pub fn plan_justification(words: &Words, k: usize, j: usize) -> u32
    requires { (k < 64) × (j < 4) }
    ensures { result ≡ get_or (plan_at words.now k).justifications j 0 }
{
    plan_word(words, k, 6 + j)
}

// The value of the variable in place i.
#[tactic(auto, using(crate::proofs::View::plan_value_is))]
pub fn plan_value(words: &Words, k: usize, i: usize) -> u32
    requires { (k < 64) × (i < 8) }
    ensures { result ≡ get_or (plan_at words.now k).values i no_value }
{
    plan_word(words, k, 10 + i)
}

fn plan_justifications(words: &Words, k: usize) -> [u32; 4]
    requires { k < 64 }
    ensures { trimmed result ≡ (plan_at words.now k).justifications }
{
    std::array::from_fn(|j| plan_justification(words, k, j))
}

fn plan_values(words: &Words, k: usize) -> [u32; 8]
    requires { k < 64 }
    ensures { result ≡ (plan_at words.now k).values }
{
    std::array::from_fn(|i| plan_value(words, k, i))
}

// Plan k, whole.
pub fn plan_at(words: &Words, k: usize) -> Plan
    requires { k < 64 }
    ensures { plan_by_value result ≡ plan_at words.now k }
{
    Plan {
        id: plan_id(words, k),
        set: plan_set(words, k),
        rule: plan_rule(words, k),
        left: plan_left(words, k),
        flags: plan_flags(words, k),
        subgoal: plan_subgoal(words, k),
        justifications: plan_justifications(words, k),
        values: plan_values(words, k),
    }
}

// Where the atom with this id stands, if it is alive.
#[tactic(auto, using(crate::proofs::View::atom_keys, crate::proofs::View::atom_keys_rise))]
pub fn find_atom(words: &Words, atoms: u32, id: u32) -> Option<usize>
    requires { (atoms ≤ 256) × AtomsRise atoms words.now }
    ensures { PlaceOf atoms id (atom_ids_of atoms words.now) result }
{
    table::find(words, 1, atoms as usize, id)
}

// The same behind a call, so that a guess that is right costs no more than its look.
#[inline(never)]
fn find_far(words: &Words, atoms: u32, id: u32) -> Option<usize>
    requires { (atoms ≤ 256) × AtomsRise atoms words.now }
    ensures { PlaceOf atoms id (atom_ids_of atoms words.now) result }
{
    find_atom(words, atoms, id)
}

// The same by a guess: the place that is guessed and the one behind it are looked at first. Any guess gives the same answer.
#[inline(always)]
#[tactic(auto, using(crate::proofs::Near::near_is))]
pub fn find_near(words: &Words, atoms: u32, id: u32, guess: usize) -> Option<usize>
    requires { (atoms ≤ 256) × AtomsRise atoms words.now }
    ensures { PlaceOf atoms id (atom_ids_of atoms words.now) result }
{
    let n = atoms as usize;
    if n <= guess {
        return find_far(words, atoms, id);
    }
    if words[guess] == id {
        return Some(guess);
    }
    let next = guess + 1;
    if n <= next {
        return find_far(words, atoms, id);
    }
    if words[next] == id {
        return Some(next);
    }
    find_far(words, atoms, id)
}

// No atom has this id, by a guess of the atom before it.
#[tactic(auto, using(crate::proofs::Near::found_is, crate::proofs::Near::gap_free))]
pub fn is_free(words: &Words, atoms: u32, id: u32, guess: usize) -> bool
    requires { (atoms ≤ 256) × AtomsRise atoms words.now }
    ensures { result ≡ not (member id (atom_ids_of atoms words.now)) }
{
    let n = atoms as usize;
    if n <= guess {
        return find_atom(words, atoms, id).is_none();
    }
    let next = guess + 1;
    if n <= next {
        return find_atom(words, atoms, id).is_none();
    }
    if (words[guess] < id) & (id < words[next]) {
        return true;
    }
    find_atom(words, atoms, id).is_none()
}

// A guess of the atom before an id that no atom has: any number, and it is right where an earlier guess stands near.
pub fn place_near(words: &Words, atoms: u32, id: u32, guess: usize) -> usize
    requires { atoms ≤ 256 }
{
    let n = atoms as usize;
    if n <= guess {
        return one_before(words, n, id);
    }
    let next = guess + 1;
    if n <= next {
        return one_before(words, n, id);
    }
    if (words[guess] < id) & (id < words[next]) {
        return guess;
    }
    let after = next + 1;
    if n <= after {
        return one_before(words, n, id);
    }
    if (words[next] < id) & (id < words[after]) {
        return next;
    }
    one_before(words, n, id)
}

// By halves: the last of n atoms whose id is lower, as far as the ids rise.
fn one_before(words: &Words, n: usize, id: u32) -> usize
    requires { n ≤ 256 }
{
    words[..n].partition_point(|x| *x < id).saturating_sub(1)
}

// Where the plan with this id stands, if it is alive.
#[tactic(auto, using(crate::proofs::View::plans_lent, crate::proofs::View::plan_keys, crate::proofs::View::plan_keys_rise))]
pub fn find_plan(words: &Words, plans: u32, id: u32) -> Option<usize>
    requires { (plans ≤ 64) × PlansRise plans words.now }
    ensures { PlaceOf plans id (plan_ids_of plans words.now) result }
{
    table::find(&words[PLANS_AT..], 18, plans as usize, id)
}

// A word of plan k becomes v.
#[tactic(auto, unfolding(crate::specs::View::with_plan_word))]
pub fn put_plan_word(words: &mut Words, k: usize, column: usize, v: u32)
    requires { (k < 64) × (column < 18) }
    ensures { words.new ≡ with_plan_word words.old k column v }
{
    words[PLANS_AT + (k * 18 + column)] = v;
}

// "one more needed", where n live of the most that may: 8 before the refusal that they are full.
fn room_for(next: u32, n: u32, most: u32, full: Refusal) -> Result<(), Refusal>
    ensures { RefusedBy (bar most (number_of full) next n) result }
{
    if next == Config::LAST_NEXT {
        return Err(Refusal::IdsSpent);
    }
    if most <= n {
        return Err(full);
    }
    Ok(())
}

// "8 before 9"
pub fn room_for_atom(scalars: Scalars) -> Result<(), Refusal>
    ensures { RefusedBy (atom_bar scalars.next scalars.atoms) result }
{
    room_for(
        scalars.next,
        scalars.atoms,
        Config::MOST_ATOMS,
        Refusal::AtomsFull,
    )
}

// "8 before .. 10"
pub fn room_for_plan(scalars: Scalars) -> Result<(), Refusal>
    ensures { RefusedBy (plan_bar scalars.next scalars.plans) result }
{
    room_for(
        scalars.next,
        scalars.plans,
        Config::MOST_PLANS,
        Refusal::PlansFull,
    )
}

// An atom is made. There is room for it.
#[tactic(auto, using(crate::proofs::Made::atom_appended), unfolding(crate::proofs::Made::with_atom))]
pub fn append_atom(words: &mut Words, scalars: Scalars, p: u32, a: u32, b: u32) -> Scalars
    requires { (scalars.atoms < 256) × (scalars.next < 65536) }
    ensures counted { result ≡ atom_counted scalars }
    ensures made { config_of words.new result ≡ add_atom p a b (config_of words.old scalars) }
{
    let n = scalars.atoms as usize;
    words[n] = scalars.next;
    words[ATOM_P + n] = p;
    words[ATOM_A + n] = a;
    words[ATOM_B + n] = b;
    words[ATOM_CYCLE + n] = scalars.cycle;
    scalars.with_one_more(scalars.atoms + 1, scalars.plans)
}

// The eighteen words of a plan.
#[tactic(auto, unfolding(crate::specs::View::plan_words))]
fn plan_words(q: Plan) -> [u32; 18]
    ensures { result ≡ plan_words q }
{
    let js = q.justifications;
    let vs = q.values;
    [
        q.id, q.set, q.rule, q.left, q.flags, q.subgoal, js[0], js[1], js[2], js[3], vs[0], vs[1],
        vs[2], vs[3], vs[4], vs[5], vs[6], vs[7],
    ]
}

// A plan is made: it has the next id, no flags and no subgoal. Its justifications rise, with zeros behind. There is room for it.
#[tactic(auto, using(crate::proofs::Made::plan_appended))]
pub fn append_plan(
    words: &mut Words,
    scalars: Scalars,
    set: u32,
    rule: u32,
    left: u32,
    justifications: [u32; 4],
    values: [u32; 8],
) -> Scalars
    requires { (scalars.atoms ≤ 256) × (scalars.plans < 64) × (scalars.next < 65536) }
    ensures counted { result ≡ plan_counted scalars }
    ensures made { config_of words.new result ≡ add_plan set rule values left (trimmed justifications) (config_of words.old scalars) }
{
    let n = scalars.plans as usize;
    let q = Plan {
        id: scalars.next,
        set,
        rule,
        left,
        flags: 0,
        subgoal: 0,
        justifications,
        values,
    };
    let numbers = plan_words(q);
    table::write(&mut words[PLANS_AT..], 18, n, &numbers);
    scalars.with_one_more(scalars.atoms, scalars.plans + 1)
}

// Flag f of plan k is set, is cleared.
#[tactic(auto, using(crate::proofs::Changed::flags_changed))]
pub fn set_flag(words: &mut Words, scalars: Scalars, k: usize, f: u32)
    requires { LivePlan words.old scalars k × ((plan_at words.old k).flags ≤ 65535) × (1 ≤ f) × (f ≤ 16) }
    ensures { config_of words.new scalars ≡ change_plan (plan_at words.old k).id (with_flags (with_flag f)) (config_of words.old scalars) }
{
    let flags = plan_flags(words, k) as u16;
    put_plan_word(words, k, 4, with_flag(flags, f) as u32);
}

#[tactic(auto, using(crate::proofs::Changed::flags_changed))]
pub fn clear_flag(words: &mut Words, scalars: Scalars, k: usize, f: u32)
    requires { LivePlan words.old scalars k × ((plan_at words.old k).flags ≤ 65535) × (1 ≤ f) × (f ≤ 16) }
    ensures { config_of words.new scalars ≡ change_plan (plan_at words.old k).id (with_flags (without_flag f)) (config_of words.old scalars) }
{
    let flags = plan_flags(words, k) as u16;
    put_plan_word(words, k, 4, without_flag(flags, f) as u32);
}

pub fn one_less(x: u32) -> u32
    ensures { result ≡ x - 1 }
{
    x.saturating_sub(1)
}

// Plan k loses its first step.
#[tactic(auto, using(crate::proofs::Changed::left_changed))]
pub fn remove_step(words: &mut Words, scalars: Scalars, k: usize)
    requires { LivePlan words.old scalars k }
    ensures { config_of words.new scalars ≡ change_plan (plan_at words.old k).id step_removed (config_of words.old scalars) }
{
    let left = plan_left(words, k);
    put_plan_word(words, k, 3, one_less(left));
}

// An atom is made and linked as the subgoal of plan k. There is room for it.
#[tactic(auto, using(crate::proofs::Changed::subgoal_linked))]
pub fn add_subgoal(words: &mut Words, scalars: Scalars, k: usize, p: u32, a: u32, b: u32) -> Scalars
    requires { LivePlan words.old scalars k × (scalars.atoms < 256) × (scalars.next < 65536) }
    ensures counted { result ≡ atom_counted scalars }
    ensures made { config_of words.new result ≡ add_subgoal (plan_at words.old k).id p a b (config_of words.old scalars) }
{
    let r = append_atom(words, scalars, p, a, b);
    put_plan_word(words, k, 5, scalars.next);
    r
}
