// The cause of a refusal in plain words, by its number in document 01's table.
#![tactic(auto)]

ghost use Rattle.std.specs.Prelude.{◌≡◌};
ghost use Rattle.model.specs.Refusals.{number_of};
ghost use Rattle.refusals.specs.Table.{words};

use model::Refusal;

// The table. kept: a number from outside, which may be none of its.
pub fn refusal_words(number: u32) -> &'static [u8]
    ensures { result.now ≡ words number }
{
    match number {
        1 => b"program or configuration not well formed",
        2 => b"text not as laid out",
        3 => b"row breaks a rule of its op, part or order",
        4 => b"body variable without value",
        5 => b"set over 8, rule over 32, too many rows or initial atoms",
        6 => b"call out of turn",
        7 => b"sense row, number of sense rows, answer or run limit out of range",
        8 => b"next id 65536 and one more needed",
        9 => b"256 atoms alive and one more needed",
        10 => b"64 plans alive and one more needed",
        11 => b"cycle 65535 would end",
        12 => b"delete of an id not alive",
        _ => b"unknown",
    }
}

pub fn cause(refusal: Refusal) -> &'static [u8]
    ensures { result.now ≡ words (number_of refusal) }
{
    refusal_words(refusal.number())
}
