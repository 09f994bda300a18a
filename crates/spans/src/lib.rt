// Where the rows of a rule's part stand in a program: by halves, since rows stand by set, rule and part.
#![tactic(auto)]

ghost use Rattle.std.specs.Prelude.{◌≡◌, ◌&&◌, ◌+◌, ◌*◌, ◌/◌, ◌-◌, ◌<◌, ◌≤◌, eqb, length};
ghost use Rattle.lists.specs.Lists.{Pairs};
ghost use Rattle.model.specs.Program.{part_of};
ghost use Rattle.program.specs.Rows.{row_at, row_of, rows_of, rows_from};
ghost use Rattle.program_laws.specs.Lawful.{NotLater};
ghost use Rattle.spans.specs.Spans.{before, Bound};

// Rows from..to of a program.
#[derive(Clone, Copy)]
pub struct Span {
    pub from: usize,
    pub to: usize,
}

// The row stands before every row of this part.
fn is_before(row: &[u32; 8], set: u32, rule: u32, part: u32) -> bool
    ensures { result ≡ before set rule part (row_of row.now) }
{
    (row[0], row[1], row[2]) < (set, rule, part)
}

// The first row that does not stand before the part, or how many rows there are.
pub fn first_from(program: &[u32], set: u32, rule: u32, part: u32) -> usize
    requires { Pairs NotLater (rows_of program.now) }
    ensures { Bound program.now set rule part result }
{
    let (rows, _) = program.as_chunks::<8>();
    rows.partition_point(|row| is_before(row, set, rule, part))
}

// The rows of a part of a rule: its first by halves, its end from there, since a part has few rows.
pub fn span_of(program: &[u32], set: u32, rule: u32, part: u32) -> Span
    requires { (part ≤ 3) × Pairs NotLater (rows_of program.now) }
    ensures bounded { (result.from ≤ result.to) × (result.to ≤ length program.now / 8) }
    ensures from_value { rows_from program.now result.from (result.to - result.from) ≡ part_of (rows_of program.now) set rule part }
{
    let from = first_from(program, set, rule, part);
    let to = part_end(program, from, set, rule, part);
    Span { from, to }
}

// Whether row k is one of this part.
fn is_part(program: &[u32], k: usize, set: u32, rule: u32, part: u32) -> bool
    requires { k * 8 + 8 ≤ length program.now }
    ensures { result ≡ (eqb (row_at program.now k).set set
        && (eqb (row_at program.now k).rule rule && eqb (row_at program.now k).part part)) }
{
    let r = program::row_at(program, k);
    (r.set, r.rule, r.part) == (set, rule, part)
}

// Where a part's rows end that begin at `from`.
pub fn part_end(program: &[u32], from: usize, set: u32, rule: u32, part: u32) -> usize
    requires { Pairs NotLater (rows_of program.now) × Bound program.now set rule part from }
    ensures { Bound program.now set rule (part + 1) result }
{
    let n = program.len() / 8;
    for k in from..n {
        if !is_part(program, k, set, rule, part) {
            return k;
        }
    }
    n
}
