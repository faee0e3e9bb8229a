// Why an input is turned down: one case for each row of document 01's table "Turned down" and for each number of document 02, in
// their order, so that a number is its case's place and one more, and no table is laid out for it. No entry gives 13, 14, 16 or 18
// to 20 yet.
ghost use Rattle.std.specs.Prelude.{◌≡◌};
ghost use Rattle.plan.specs.Refusal.{number_of};

#[derive(Clone, Copy, Debug, PartialEq, Eq)]
pub enum Refusal {
    RanOut,
    Form,
    Range,
    Spawn,
    Join,
    Fill,
    Workers,
    Choices,
    Short,
    Table,
    Schedule,
    Rule,
    Name,
    Round,
    Cost,
    Changes,
    Pair,
    Deadline,
    Windows,
    Clock,
}

// The number that the documents give to a cause.
impl From<Refusal> for u8 {
    ghost from_gives = { λ r n. n ≡ number_of r };

    fn from(r: Refusal) -> u8 {
        match r {
            Refusal::RanOut => 1,
            Refusal::Form => 2,
            Refusal::Range => 3,
            Refusal::Spawn => 4,
            Refusal::Join => 5,
            Refusal::Fill => 6,
            Refusal::Workers => 7,
            Refusal::Choices => 8,
            Refusal::Short => 9,
            Refusal::Table => 10,
            Refusal::Schedule => 11,
            Refusal::Rule => 12,
            Refusal::Name => 13,
            Refusal::Round => 14,
            Refusal::Cost => 15,
            Refusal::Changes => 16,
            Refusal::Pair => 17,
            Refusal::Deadline => 18,
            Refusal::Windows => 19,
            Refusal::Clock => 20,
        }
    }
}
