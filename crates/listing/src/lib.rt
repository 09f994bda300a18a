// The listing of a configuration, as bytes of a page.
#![tactic(auto)]

ghost use Rattle.std.specs.Prelude.{◌≡◌, [], ◌∷◌, ◌++◌, ◌+◌, ◌<◌, ◌≤◌, length};
ghost use Rattle.arrayvec.specs.ArrayVec.{array_vec_len};
ghost use Rattle.model.specs.Render.{decimal};
ghost use Rattle.model.specs.Run.{atom_line, plan_line, instances, as_text, listing as listing-of, refusal as refusal-of};
ghost use Rattle.state.specs.View.{atom_at, plan_at, config_of};
ghost use Rattle.listing.specs.Listing.{line, is_atom_next, Listable};

use arrayvec::ArrayVec;
use state::{Scalars, Words};

// More than a listing fills: its first line, and at most 320 lines of at most 36 bytes.
pub type Page = ArrayVec<u8, 16384>;

fn put_bytes(out: &mut Page, bytes: &[u8])
    requires { array_vec_len out.old + length bytes.now ≤ 16384 }
    ensures { out.new.items ≡ out.old.items ++ bytes.now }
{
    out.try_extend_from_slice(bytes).unwrap();
}

// "Integers are in base ten": a number of at most so many digits, the digits before the last, then the last.
fn put_decimal(out: &mut Page, n: u32, digits: usize)
    requires { array_vec_len out.old + digits ≤ 16384 }
    ensures { out.new.items ≡ out.old.items ++ decimal digits n }
{
    if digits == 0 {
        return;
    }
    if n < 10 {
        return out.push(n as u8 + 48);
    }
    put_decimal(out, n / 10, digits - 1);
    out.push((n % 10) as u8 + 48);
}

// A number and the byte that ends it.
fn put_number(out: &mut Page, n: u32, end: u8)
    requires { array_vec_len out.old + 6 ≤ 16384 }
    ensures puts { out.new.items ≡ out.old.items ++ (decimal 5 n ++ (end ∷ [])) }
    ensures short { array_vec_len out.new ≤ array_vec_len out.old + 6 }
{
    put_decimal(out, n, 5);
    out.push(end);
}

// A line of six numbers, one space between, ended by byte 10.
fn put_line(out: &mut Page, numbers: [u32; 6])
    requires { array_vec_len out.old + 36 ≤ 16384 }
    ensures puts { out.new.items ≡ out.old.items ++ line numbers }
    ensures short { array_vec_len out.new ≤ array_vec_len out.old + 36 }
{
    for k in 0..5 {
        put_number(out, numbers[k], 32);
    }
    put_number(out, numbers[5], 10);
}

// "kind 1 atom (sub 0)"
fn put_atom(words: &Words, k: usize, out: &mut Page)
    requires { (k < 256) × (array_vec_len out.old + 36 ≤ 16384) }
    ensures puts { out.new.items ≡ out.old.items ++ line (atom_line (atom_at words.now k)) }
    ensures short { array_vec_len out.new ≤ array_vec_len out.old + 36 }
{
    let x = state::atom_at(words, k);
    put_line(out, [1, x.id, x.p, x.a, x.b, 0]);
}

// "kind 2 plan (set, rule, steps left, subgoal id or 0)"
fn put_plan(words: &Words, k: usize, out: &mut Page)
    requires { (k < 64) × (array_vec_len out.old + 36 ≤ 16384) }
    ensures puts { out.new.items ≡ out.old.items ++ line (plan_line (plan_at words.now k)) }
    ensures short { array_vec_len out.new ≤ array_vec_len out.old + 36 }
{
    let id = state::plan_id(words, k);
    let set = state::plan_set(words, k);
    let rule = state::plan_rule(words, k);
    let left = state::plan_left(words, k);
    let subgoal = state::plan_subgoal(words, k);
    put_line(out, [2, id, set, rule, left, subgoal]);
}

// Of atoms from i on and plans from j on the lowest id is atom i's.
fn is_atom_next(words: &Words, scalars: Scalars, i: usize, j: usize) -> bool
    requires { (scalars.atoms ≤ 256) × (scalars.plans ≤ 64) }
    ensures { result ≡ is_atom_next words.now scalars i j }
{
    if scalars.atoms as usize <= i {
        return false;
    }
    if scalars.plans as usize <= j {
        return true;
    }
    let x = state::atom_at(words, i);
    let plan = state::plan_id(words, j);
    x.id < plan
}

// "live instances by id": of the first k, i are atoms.
fn put_instances(words: &Words, scalars: Scalars, out: &mut Page)
    requires { Listable words.now scalars × (array_vec_len out.old + 11520 ≤ 16384) }
    ensures { out.new.items ≡ out.old.items ++ as_text (instances (config_of words.now scalars)) }
{
    let mut i: usize = 0;
    for k in 0..scalars.atoms as usize + scalars.plans as usize {
        if is_atom_next(words, scalars, i, k - i) {
            put_atom(words, i, out);
            i += 1;
        } else {
            put_plan(words, k - i, out);
        }
    }
}

// "prints `kind id p a b sub`, then live instances by id"
pub fn listing(words: &Words, scalars: Scalars) -> Page
    requires { Listable words.now scalars }
    ensures { result.items ≡ listing-of (config_of words.now scalars) }
{
    let mut out = Page::new();
    put_bytes(&mut out, b"kind id p a b sub\n");
    put_instances(words, scalars, &mut out);
    out
}

// "A refused call prints its number alone instead." kept: any number, as whoever has it from outside may print it.
#[tactic(auto, using(crate::proofs::Lines::refusal_is))]
pub fn refusal(number: u32) -> Page
    ensures { result.items ≡ refusal-of number }
{
    let mut out = Page::new();
    put_number(&mut out, number, 10);
    out
}
