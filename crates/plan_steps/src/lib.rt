// A plan with its rule: what its operands stand for, and its next step.
#![tactic(auto)]

ghost use Rattle.std.specs.Prelude.{◌≡◌, ◌<◌, ◌≤◌, length, option_to_list};
ghost use Rattle.lists.specs.Lists.{Pairs, first_of};
ghost use Rattle.model.specs.Configuration.{value_of, operand, remainder};
ghost use Rattle.program.specs.Rows.{rows_of};
ghost use Rattle.program_laws.specs.Lawful.{NotLater};
ghost use Rattle.state.specs.View.{plan_at};
ghost use Rattle.plan_steps.specs.Bodies.{BodyAt, remainder_at};

use model::Row;
use spans::Span;
use state::Words;

// The value of operand x, which is no constant, in plan k.
#[tactic(auto, using(lists::proofs::Counted::get_past, state::proofs::View::values_long))]
pub fn value_of(words: &Words, k: usize, x: u32) -> u32
    requires { (k < 64) × (x ≤ 8) }
    ensures { result ≡ value_of (plan_at words.now k).values x }
{
    if x == 0 {
        return state::NO_VALUE;
    }
    state::plan_value(words, k, (8 - x) as usize)
}

// The number that operand x stands for in plan k.
#[tactic(auto, unfolding(model::specs::Configuration::operand))]
pub fn operand(words: &Words, k: usize, x: u32) -> u32
    requires { k < 64 }
    ensures { result ≡ operand (plan_at words.now k).values x }
{
    if 9 <= x {
        return x - 9;
    }
    value_of(words, k, x)
}

// The rows of the body that plan k came from.
#[tactic(auto, using(crate::proofs::Bodies::span_body))]
pub fn body_of(program: &[u32], words: &Words, k: usize) -> Span
    requires { (k < 64) × Pairs NotLater (rows_of program.now) }
    ensures { BodyAt program.now (plan_at words.now k) result }
{
    let set = state::plan_set(words, k);
    let rule = state::plan_rule(words, k);
    spans::span_of(program, set, rule, 3)
}

// The row of a body where its last rows begin, as many as are left; the body's end if none is.
fn remainder_at(span: Span, left: u32) -> usize
    requires { span.from ≤ span.to }
    ensures { result ≡ remainder_at span left }
{
    span.from + (span.to - span.from).saturating_sub(left as usize)
}

// The next step of plan k, whose body stands in the span, if one is left.
#[tactic(auto, using(crate::proofs::Bodies::first_step, crate::proofs::Bodies::no_step))]
pub fn next_step(program: &[u32], words: &Words, k: usize, span: Span) -> Option<Row>
    requires { (k < 64) × BodyAt program.now (plan_at words.now k) span }
    ensures { option_to_list result ≡ first_of (remainder (rows_of program.now) (plan_at words.now k)) }
{
    let j = remainder_at(span, state::plan_left(words, k));
    if span.to <= j {
        return None;
    }
    Some(program::row_at(program, j))
}
