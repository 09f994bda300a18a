// Why a call is refused: the causes of the paper's table, in its order.
ghost use Rattle.std.specs.Prelude.{◌≡◌};
ghost use Rattle.model.specs.Refusals.{number_of};

#[derive(Clone, Copy, PartialEq, Eq)]
pub enum Refusal {
    // 1, "program or configuration not well formed"
    NotWellFormed,
    // 2, "text not as laid out"
    Layout,
    // 3, "row breaks a rule of its op, part or order"
    Row,
    // 4, "body variable without value"
    Valueless,
    // 5, "set over 8, rule over 32, too many rows or initial atoms"
    TooMany,
    // 6, "call out of turn"
    OutOfTurn,
    // 7, "sense row, number of sense rows, answer or run limit out of range"
    OutOfRange,
    // 8, "next id 65536 and one more needed"
    IdsSpent,
    // 9, "256 atoms alive and one more needed"
    AtomsFull,
    // 10, "64 plans alive and one more needed"
    PlansFull,
    // 11, "cycle 65535 would end"
    CyclesSpent,
    // 12, "delete of an id not alive"
    NotAlive,
}

impl Refusal {
    // Its number in the table.
    pub fn number(self) -> u32
        ensures { result ≡ number_of self }
    {
        match self {
            Refusal::NotWellFormed => 1,
            Refusal::Layout => 2,
            Refusal::Row => 3,
            Refusal::Valueless => 4,
            Refusal::TooMany => 5,
            Refusal::OutOfTurn => 6,
            Refusal::OutOfRange => 7,
            Refusal::IdsSpent => 8,
            Refusal::AtomsFull => 9,
            Refusal::PlansFull => 10,
            Refusal::CyclesSpent => 11,
            Refusal::NotAlive => 12,
        }
    }
}

// Why a text does not load, and at which of its lines.
#[derive(Clone, Copy, PartialEq, Eq)]
pub struct LoadError {
    pub refusal: Refusal,
    pub line: u32,
}
