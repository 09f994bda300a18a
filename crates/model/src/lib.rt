// The plain data that text, program and interpreter share. What they mean stands in specs/.
#![tactic(auto)]

pub mod refusal;

ghost use Rattle.std.specs.Prelude.{◌≡◌};
ghost use Rattle.model.specs.Program.{constant as constant_of};
ghost use Rattle.model.specs.Tables.{KeysHold, CasesHold};

pub use refusal::{LoadError, Refusal};

// A row of a program text. Columns i, a and b hold operands, each 9 higher than written, so that no number is negative.
#[derive(Clone, Copy)]
pub struct Row {
    pub set: u32,
    pub rule: u32,
    pub part: u32,
    pub op: u32,
    pub i: u32,
    pub p: u32,
    pub a: u32,
    pub b: u32,
}

// An atom instance.
#[derive(Clone, Copy)]
pub struct Atom {
    pub id: u32,
    pub p: u32,
    pub a: u32,
    pub b: u32,
    pub cycle: u32,
}

// Where a load stands after the rows so far: how many rows and initial atoms; set, rule and part of the last row; that
// rule's rows by part; whether its set is of object rules; a 1 at each variable of the rule that has a value (by operand)
// and at each predicate that has a ceiling.
#[derive(Clone, Copy)]
pub struct Scan {
    pub count: u32,
    pub atoms: u32,
    pub set: u32,
    pub rule: u32,
    pub part: u32,
    pub reasons: u32,
    pub context: u32,
    pub body: u32,
    pub object: bool,
    pub valued: [u8; 9],
    pub ceilings: [u8; 256],
}

// "0 and up a constant": the number that a constant operand stands for.
pub fn constant(x: u32) -> u32
    ensures { result ≡ constant_of x }
{
    x.saturating_sub(9)
}

// Does nothing: it promises the tables, so that no check passes without their facts.
pub fn tables_hold(x: u32) -> u32
    ensures keys { KeysHold }
    ensures cases { CasesHold }
{
    x
}
