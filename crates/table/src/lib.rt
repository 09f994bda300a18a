// Records of one width, one after the other in lent words. The width is a parameter; every table of the state is such a table.
#![tactic(auto)]

ghost use Rattle.std.specs.Prelude.{◌≡◌, ◌*◌, ◌+◌, ◌<◌, ◌≤◌, length, drop, get_or};
ghost use Rattle.lists.specs.Lists.{Pairs};
ghost use Rattle.lists.specs.Tables.{keep_by, PlaceOf};
ghost use Rattle.table.specs.Rows.{row, rows, keys, placed};

// The number in a column of record k.
pub fn read(words: &[u32], width: usize, k: usize, column: usize) -> u32
    requires { (column < width) × (k * width + width ≤ length words.now) }
    ensures { result ≡ get_or (row width words.now k) column 0 }
{
    words[k * width + column]
}

// Record k becomes the given numbers.
pub fn write(words: &mut [u32], width: usize, k: usize, numbers: &[u32])
    requires { (length numbers.now ≡ width) × (k * width + width ≤ length words.old) }
    ensures { words.new ≡ placed width words.old k numbers.now }
{
    let at = k * width;
    words[at..at + width].copy_from_slice(numbers);
}

// Record k becomes a copy of record i, which does not stand before it.
pub fn copy_down(words: &mut [u32], width: usize, i: usize, k: usize)
    requires { (k ≤ i) × (i * width + width ≤ length words.old) }
    ensures { words.new ≡ placed width words.old k (row width words.old i) }
{
    if k == i {
        return;
    }
    let from = i * width;
    words.copy_within(from..from + width, k * width);
}

// Of the first n records those whose mark is true, in their order; their number. What lies behind the n records stays.
pub fn keep(words: &mut [u32], width: usize, n: usize, marks: &[bool]) -> usize
    requires { (n * width ≤ length words.old) × (n ≤ length marks.now) }
    ensures { (result ≤ n) × (rows width result words.new ≡ keep_by marks.now (rows width n words.old)) × (drop (n * width) words.new ≡ drop (n * width) words.old) }
{
    let mut j: usize = 0;
    for i in 0..n {
        if marks[i] {
            copy_down(words, width, i, j);
            j += 1;
        }
    }
    j
}

// Where the record stands whose first number is id, if there is one: by halves, since the first numbers rise.
pub fn find(words: &[u32], width: usize, n: usize, id: u32) -> Option<usize>
    requires { (0 < width) × (n * width ≤ length words.now) × Pairs (λ x y. x < y) (keys width n words.now) }
    ensures { PlaceOf n id (keys width n words.now) result }
{
    // kept: the library searches the elements of a slice by halves; these records have a width known only at run time
    let mut low: usize = 0;
    let mut high = n;
    while low < high {
        let middle = low + (high - low) / 2;
        if words[middle * width] < id {
            low = middle + 1;
        } else {
            high = middle;
        }
    }
    if low < n && words[low * width] == id {
        return Some(low);
    }
    None
}
