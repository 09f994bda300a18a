// Deletion in place: what a target reaches is marked in one pass over the plans in rising id, then both tables are compacted.
#![tactic(auto)]

ghost use Rattle.std.specs.Prelude.{◌≡◌, true, false, map, ℕ, ◌+◌, ◌-◌, ◌<◌, ◌≤◌, length, get_or, drop};
ghost use Rattle.lists.specs.Tables.{PlaceOf, keep_by};
ghost use Rattle.model.specs.Graph.{links, reached};
ghost use Rattle.model.specs.Events.{gone_by, deletion};
ghost use Rattle.model.specs.Deletion.{graph, links_in, remove};
ghost use Rattle.state.specs.View.{atoms_of, plans_of, config_of, atom_ids_of, AtomsRise, PlansRise, SoundWords};
ghost use Rattle.deletion.specs.Marks.{Marked, without_atom, without_plan, atom_gone, plan_goes, visited, unlinked_from, subgoals_of};
ghost use Rattle.deletion.specs.Moves.{Moved, AtomsMoved};

use state::{Scalars, Words};

// A mark for each place of both tables: 256 of atoms, then 64 of plans.
type Marks = [bool; 320];

// The scalars afterwards, and how many instances went.
#[derive(Clone, Copy)]
pub struct Removal {
    pub scalars: Scalars,
    pub gone: u32,
}

// Where the last plan that went had its first justification and its subgoal among the atoms: guesses for the next.
#[derive(Clone, Copy)]
pub struct Near {
    pub first: usize,
    pub subgoal: usize,
}

// The atom with this id is left no more. Where it stands, by a guess.
#[tactic(auto, unfolding(crate::specs::Marks::without_atom))]
fn mark_atom(words: &Words, atoms: u32, left: &mut Marks, id: u32, guess: usize) -> usize
    requires { (atoms ≤ 256) × AtomsRise atoms words.now }
    ensures { left.new ≡ without_atom words.now atoms id left.old }
{
    let Some(k) = state::find_near(words, atoms, id, guess) else {
        return guess;
    };
    left[k] = false;
    k
}

// The plan with this id is left no more.
#[tactic(auto, unfolding(crate::specs::Marks::without_plan))]
fn mark_plan(words: &Words, plans: u32, left: &mut Marks, id: u32)
    requires { (plans ≤ 64) × PlansRise plans words.now }
    ensures { left.new ≡ without_plan words.now plans id left.old }
{
    if let Some(k) = state::find_plan(words, plans, id) {
        left[256 + k] = false;
    }
}

// Whether the atom with this id is gone. Nothing made before the target is.
#[tactic(auto, unfolding(crate::specs::Marks::atom_gone))]
fn atom_gone(words: &Words, atoms: u32, target: u32, left: &Marks, id: u32, guess: usize) -> bool
    requires { (atoms ≤ 256) × AtomsRise atoms words.now }
    ensures { result ≡ atom_gone words.now atoms target left.now id }
{
    if id < target {
        return false;
    }
    match state::find_near(words, atoms, id, guess) {
        Some(place) => !left[place],
        None => false,
    }
}

// Whether plan i goes: it is the target, or one of its justifications is gone. Most that go have the first where it is guessed.
#[tactic(auto, unfolding(crate::specs::Marks::plan_goes))]
fn plan_goes(words: &Words, atoms: u32, target: u32, left: &Marks, i: usize, guess: usize) -> bool
    requires { (atoms ≤ 256) × AtomsRise atoms words.now × (i < 64) }
    ensures { result ≡ plan_goes words.now atoms target left.now i }
{
    if state::plan_id(words, i) < target {
        return false;
    }
    if !left[256 + i] {
        return true;
    }
    let first = state::plan_justification(words, i, 0);
    let second = state::plan_justification(words, i, 1);
    if atom_gone(words, atoms, target, left, first, guess) {
        return true;
    }
    if atom_gone(words, atoms, target, left, second, guess) {
        return true;
    }
    let third = state::plan_justification(words, i, 2);
    if atom_gone(words, atoms, target, left, third, guess) {
        return true;
    }
    let fourth = state::plan_justification(words, i, 3);
    atom_gone(words, atoms, target, left, fourth, guess)
}

// Plan i goes or stays; if it goes, its subgoal goes with it.
#[tactic(auto, unfolding(crate::specs::Marks::visited))]
fn visit(words: &Words, atoms: u32, target: u32, left: &mut Marks, i: usize, near: Near) -> Near
    requires { (atoms ≤ 256) × AtomsRise atoms words.now × (i < 64) }
    ensures { left.new ≡ visited words.now atoms target i left.old }
{
    if !plan_goes(words, atoms, target, left, i, near.first) {
        return near;
    }
    left[256 + i] = false;
    let justification = state::plan_justification(words, i, 0);
    let first = state::find_near(words, atoms, justification, near.first).unwrap_or(near.first);
    let id = state::plan_subgoal(words, i);
    let subgoal = mark_atom(words, atoms, left, id, near.subgoal);
    Near { first, subgoal }
}

// What the target reaches is left no more: the target itself, then plan by plan in rising id.
#[tactic(auto, using(crate::proofs::Pass::marking))]
fn mark(words: &Words, scalars: Scalars, target: u32, left: &mut Marks)
    requires { SoundWords words.now scalars × ((k : ℕ) → k < 320 → get_or left.old k false ≡ true) }
    ensures { Marked words.now scalars (reached (links_in (config_of words.now scalars)) target) left.new }
{
    let place = mark_atom(words, scalars.atoms, left, target, 0);
    mark_plan(words, scalars.plans, left, target);
    let mut near = Near {
        first: place,
        subgoal: place,
    };
    for i in 0..scalars.plans as usize {
        near = visit(words, scalars.atoms, target, left, i, near);
    }
}

// Where the first plan stands whose subgoal is the target, if there is one.
fn find_owner(words: &Words, plans: u32, target: u32) -> Option<usize>
    requires { plans ≤ 64 }
    ensures { PlaceOf plans target (subgoals_of plans words.now) result }
{
    (0..plans as usize).find(|k| state::plan_subgoal(words, *k) == target)
}

// The plan whose subgoal is the target loses it, and its first step. No other surviving plan loses its subgoal.
#[tactic(auto, using(crate::proofs::Unlinked::unlinking))]
fn unlink(words: &mut Words, scalars: Scalars, target: u32)
    requires { SoundWords words.old scalars }
    ensures atoms { atoms_of scalars.atoms words.new ≡ atoms_of scalars.atoms words.old }
    ensures plans { plans_of scalars.plans words.new ≡ map (unlinked_from target) (plans_of scalars.plans words.old) }
{
    if target == 0 {
        return;
    }
    if let Some(k) = find_owner(words, scalars.plans, target) {
        let left = state::plan_left(words, k);
        state::put_plan_word(words, k, 3, state::one_less(left));
        state::put_plan_word(words, k, 5, 0);
    }
}

// Some words, from `from` on, go down to `to`.
fn move_down(words: &mut Words, from: usize, to: usize, n: usize)
    requires { (to ≤ from) × (from + n ≤ length words.old) }
    ensures { Moved words.old from to n words.new }
{
    words.copy_within(from..from + n, to);
}

// A run of atoms goes down, column by column.
#[tactic(auto, using(crate::proofs::Moves::five_moved))]
fn move_atoms(words: &mut Words, from: usize, to: usize, n: usize)
    requires { (to ≤ from) × (from + n ≤ 256) }
    ensures { AtomsMoved words.old from to n words.new }
{
    move_down(words, from, to, n);
    move_down(words, state::ATOM_P + from, state::ATOM_P + to, n);
    move_down(words, state::ATOM_A + from, state::ATOM_A + to, n);
    move_down(words, state::ATOM_B + from, state::ATOM_B + to, n);
    move_down(words, state::ATOM_CYCLE + from, state::ATOM_CYCLE + to, n);
}

// Eight atoms from k on are left: without a branch, so that they are looked at side by side.
fn all_left(left: &[bool], k: usize) -> bool
    requires { k + 8 ≤ length left.now }
    ensures { result ≡ true → ((i : ℕ) → k ≤ i → i < k + 8 → get_or left.now i false ≡ true) }
{
    let mut all = true;
    for i in k..k + 8 {
        all &= left[i];
    }
    all
}

// From `from` on, past eights of atoms that are left.
fn pass_left(left: &[bool], from: usize, n: usize) -> usize
    requires { (from ≤ n) × (n ≤ length left.now) }
    ensures { (from ≤ result) × (result ≤ n) × ((k : ℕ) → from ≤ k → k < result → get_or left.now k false ≡ true) }
{
    let end = n - (n - from) % 8;
    for k in (from..end).step_by(8) {
        if !all_left(left, k) {
            return k;
        }
    }
    end
}

// Where a run of atoms that are left ends.
fn run_end(left: &[bool], from: usize, n: usize) -> usize
    requires { (from ≤ n) × (n ≤ length left.now) }
    ensures { (from ≤ result) × (result ≤ n) × ((k : ℕ) → from ≤ k → k < result → get_or left.now k false ≡ true) }
{
    for k in pass_left(left, from, n)..n {
        if !left[k] {
            return k;
        }
    }
    n
}

// The atoms that are left, in their order; their number. The plans stand. Runs are moved whole.
#[tactic(auto, using(crate::proofs::Moves::compacting))]
fn keep_atoms(words: &mut Words, atoms: u32, left: &Marks) -> u32
    requires { atoms ≤ 256 }
    ensures kept { (result ≤ atoms) × (atoms_of result words.new ≡ keep_by left.now (atoms_of atoms words.old)) }
    ensures plans { (m : ℕ) → plans_of m words.new ≡ plans_of m words.old }
{
    let n = atoms as usize;
    let mut i = run_end(left, 0, n);
    let mut j = i;
    // kept: no plainer otherwise. The index jumps to the end of each run that was moved.
    while i < n {
        if !left[i] {
            i += 1;
            continue;
        }
        let end = run_end(left, i + 1, n);
        move_atoms(words, i, j, end - i);
        j += end - i;
        i = end;
    }
    j as u32
}

// The plans that are left, in their order; their number. The atoms stand.
#[tactic(auto, using(crate::proofs::Kept::plans_kept, state::proofs::Made::atoms_stand))]
fn keep_plans(words: &mut Words, plans: u32, left: &Marks) -> u32
    requires { plans ≤ 64 }
    ensures kept { (result ≤ plans) × (plans_of result words.new ≡ keep_by (drop 256 left.now) (plans_of plans words.old)) }
    ensures atoms { (n : ℕ) → n ≤ 256 → atoms_of n words.new ≡ atoms_of n words.old }
{
    table::keep(
        &mut words[state::PLANS_AT..],
        18,
        plans as usize,
        &left[256..],
    ) as u32
}

// "Deleting a target removes exactly the instances reached from it by zero or more links, and every link with an end among them."
#[tactic(auto, using(crate::proofs::Removed::left_sound, crate::proofs::Removed::removed))]
pub fn remove(words: &mut Words, scalars: Scalars, target: u32) -> Removal
    requires { SoundWords words.old scalars }
    ensures sound { SoundWords words.new result.scalars }
    ensures removed { config_of words.new result.scalars ≡ remove target (config_of words.old scalars) }
    ensures counted { result.gone ≡ gone_by (graph (config_of words.old scalars)) (deletion target) }
{
    let mut left = [true; 320];
    mark(words, scalars, target, &mut left);
    unlink(words, scalars, target);
    let atoms = keep_atoms(words, scalars.atoms, &left);
    let plans = keep_plans(words, scalars.plans, &left);
    Removal {
        scalars: scalars.with_counts(atoms, plans),
        gone: (scalars.atoms - atoms) + (scalars.plans - plans),
    }
}
