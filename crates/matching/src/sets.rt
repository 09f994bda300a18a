// Sets of the eight variables and of the ids, as bits: what a failing search hangs on.
ghost use Rattle.std.specs.Prelude.{◌≡◌, true, ℕ, ◌/◌, ◌<◌, ◌≤◌, length, IfSome};
ghost use Rattle.model.specs.Configuration.{no_value, place, value_of};
ghost use Rattle.nogoods.specs.Nogoods.{has as has-bit, all_sets};
ghost use Rattle.matching.specs.Sets.{Member, Joined, OfRow, OfBody, Changed, Settled};

use model::Row;

// The part whose rows note the ids of their candidates: the reasons.
const NOTED: u32 = 1;

// The variable of an operand, if it is one.
#[tactic(auto, using(crate::proofs::Bits::bit_at))]
pub fn bit(x: u32) -> u32
    ensures { (result < all_sets) × Member result x }
{
    if x == 0 {
        return 0;
    }
    if 9 <= x {
        return 0;
    }
    1 << (8 - x)
}

// What either set has.
#[tactic(auto, using(crate::proofs::Bits::joined))]
pub fn union(a: u32, b: u32) -> u32
    requires { (a < all_sets) × (b < all_sets) }
    ensures { Joined a b result }
{
    a | b
}

// The variables that a row looks at.
pub fn operands(r: Row) -> u32
    ensures { OfRow r result }
{
    let i = bit(r.i);
    let a = bit(r.a);
    let b = bit(r.b);
    union(i, union(a, b))
}

// What it hangs on whether a match counts: the variables of the body, and the ids.
pub fn of_body(program: &[u32], from: usize, to: usize) -> u32
    requires { to ≤ length program.now / 8 }
    ensures { OfBody program.now from to result }
{
    let mut set: u32 = 256;
    for j in from..to {
        set = union(set, operands(program::row_at(program, j)));
    }
    set
}

// The variable of an operand that takes a value.
#[tactic(auto, using(crate::proofs::Bits::settled_valued))]
fn open(x: u32, values: &[u32; 8]) -> u32
    ensures { (result < all_sets) × (1 ≤ x → x ≤ 8 → value_of values.now x ≡ no_value → has-bit result (place x) ≡ true) }
{
    if queries::settles(x, values) {
        return 0;
    }
    bit(x)
}

// What a row changes: the variables that take a value, and a reason the ids. A negation changes nothing.
pub fn changed(r: Row, values: &[u32; 8]) -> u32
    ensures { Changed r values.now result }
{
    if r.op % 2 == 0 {
        return 0;
    }
    let i = open(r.i, values);
    let a = open(r.a, values);
    let b = open(r.b, values);
    let set = union(i, union(a, b));
    if r.part != NOTED {
        return set;
    }
    union(set, 256)
}

// The same, asked once: known if it was asked already.
pub fn asked(known: Option<u32>, r: Row, values: &[u32; 8]) -> u32
    requires { IfSome known (Changed r values.now) }
    ensures { Changed r values.now result }
{
    match known {
        Some(set) => set,
        None => changed(r, values),
    }
}

// Whether two sets have nothing in common.
#[tactic(auto, using(crate::proofs::Bits::nothing_common))]
pub fn are_apart(a: u32, b: u32) -> bool
    ensures { result ≡ true → (j : ℕ) → has-bit a j ≡ true → has-bit b j ≡ true → ⊥ }
{
    a & b == 0
}

// Whether no operand of a row takes a value any more, and it gives no id: then it answers now as it will later.
pub fn is_settled(r: Row, values: &[u32; 8]) -> bool
    ensures { result ≡ true → Settled r values.now }
{
    if r.part == NOTED {
        return false;
    }
    let i = queries::settles(r.i, values);
    let a = queries::settles(r.a, values);
    let b = queries::settles(r.b, values);
    i & (a & b)
}
