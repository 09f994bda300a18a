// A table of nogoods: what failing searches tell later ones. Of two that claim the same place the newer stays; a lost one costs time alone.
#![tactic(auto)]

ghost use Rattle.std.specs.Prelude.{◌≡◌, true, ℕ, ◌<◌, ◌≤◌, get_or, IfSome};
ghost use Rattle.table.specs.Rows.{row};
ghost use Rattle.nogoods.specs.Nogoods.{has, width, places, nogood, values_in, count_in, ids_in, Recalled, Replaced};

// The numbers of a nogood.
const WIDTH: usize = 15;

// The numbers of a table: 512 nogoods.
pub const SIZE: usize = 7680;

// Where a nogood stands: by the rows to go and the values that they look at. Every fourth row has 128 places, so that those of later rows, which
// are many, do not displace those of earlier ones. 1009 keeps the variables apart; 40503 is 65536 divided by the golden ratio, and spreads the
// values of one variable at equal distances, whatever the distance.
fn place(rest: usize, looked: u32, values: [u32; 8]) -> usize
    ensures { result < places }
{
    let mut sum = (rest % 65536) as u32;
    for k in 0..8 {
        if (looked >> k) % 2 == 1 {
            sum = (sum * 1009 + values[k] % 65536) % 65536;
        }
    }
    rest % 4 * 128 + (sum * 40503 % 65536 / 512) as usize
}

// Whether a nogood's set has these values as it has.
#[tactic(auto, using(crate::proofs::Laws::same_more))]
fn same_values(nogoods: &[u32; SIZE], at: usize, set: u32, values: [u32; 8]) -> bool
    requires { at < places }
    ensures { result ≡ true → (j : ℕ) → j < 8 → has set j ≡ true → get_or (values_in (row width nogoods.now at)) j 0 ≡ get_or values j 0 }
{
    for j in 0..8 {
        if ((set >> j) % 2 == 1) & (table::read(nogoods, WIDTH, at, j + 2) != values[j]) {
            return false;
        }
    }
    true
}

// Whether its ids are these.
#[tactic(auto, using(crate::proofs::Laws::ids_at))]
fn same_ids(nogoods: &[u32; SIZE], at: usize, count: usize, ids: [u32; 4]) -> bool
    requires { at < places }
    ensures { result ≡ true → (count_in (row width nogoods.now at) ≡ count) × (ids_in (row width nogoods.now at) ≡ ids) }
{
    if table::read(nogoods, WIDTH, at, 10) as usize != count {
        return false;
    }
    let first = at * WIDTH + 11;
    &nogoods[first..first + 4] == &ids[..]
}

// The set of a nogood that speaks of these values and ids, if one is found. `looked` is what the rows to go look at: a wrong one costs time
// alone.
#[tactic(auto, using(crate::proofs::Laws::no_ids))]
pub fn recall(
    nogoods: &[u32; SIZE],
    rest: usize,
    looked: u32,
    values: [u32; 8],
    count: usize,
    ids: [u32; 4],
) -> Option<u32>
    ensures { IfSome result (λ set. Recalled nogoods.now rest set values count ids) }
{
    let at = place(rest, looked, values);
    if table::read(nogoods, WIDTH, at, 0) as usize != rest {
        return None;
    }
    let set = table::read(nogoods, WIDTH, at, 1);
    if !same_values(nogoods, at, set, values) {
        return None;
    }
    if set / 256 % 2 == 0 {
        return Some(set);
    }
    if same_ids(nogoods, at, count, ids) {
        return Some(set);
    }
    None
}

// A nogood in its numbers.
fn numbers(rest: u32, set: u32, values: [u32; 8], count: u32, ids: [u32; 4]) -> [u32; WIDTH]
    ensures { result ≡ nogood rest set values count ids }
{
    [
        rest, set, values[0], values[1], values[2], values[3], values[4], values[5], values[6],
        values[7], count, ids[0], ids[1], ids[2], ids[3],
    ]
}

// One more nogood.
pub fn note(
    nogoods: &mut [u32; SIZE],
    rest: usize,
    looked: u32,
    set: u32,
    values: [u32; 8],
    count: usize,
    ids: [u32; 4],
)
    requires { (rest < 16) × (count ≤ 4) }
    ensures { Replaced nogoods.old nogoods.new (nogood rest set values count ids) }
{
    let e = numbers(rest as u32, set, values, count as u32, ids);
    table::write(nogoods, WIDTH, place(rest, looked, values), &e);
}
