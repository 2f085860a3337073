// The refusals (document 01, "Reply numbers", and document 02): one for each number by which a call may be refused. A call that may be
// refused answers a `Result`, and `?` hands its refusal up; C and the texts get the number. A part of the public face `sdf`.
#![tactic(auto)]

ghost use Rattle.std.specs.Prelude.{◌≡◌};
ghost use Rattle.refusals.specs.Numbers.{number_of};

// What each means is said by the call that gives it: `NoSuchIndex` is by a vertex number that no vertex has, and by a cell that no grid
// has, as 4 is in document 01.
#[derive(Clone, Copy, Debug, PartialEq, Eq)]
pub enum Refusal {
    OutOfBounds,
    WrongVertices,
    TooManyTriangles,
    NoSuchIndex,
    WrongLength,
    NotANumber,
    QueueFull,
    PopsSpent,
    Unreadable,
    OffGrid,
    WrongFile,
    TooManyFacets,
    Strip,
    NoSuchEdition,
    WrongIndexLength,
    StaleIndex,
}

impl Refusal {
    // The number of document 01 or 02.
    pub fn number(self) -> u32
        ensures { result ≡ number_of self }
    {
        match self {
            Refusal::OutOfBounds => 1,
            Refusal::WrongVertices => 2,
            Refusal::TooManyTriangles => 3,
            Refusal::NoSuchIndex => 4,
            Refusal::WrongLength => 5,
            Refusal::NotANumber => 6,
            Refusal::QueueFull => 7,
            Refusal::PopsSpent => 8,
            Refusal::Unreadable => 9,
            Refusal::OffGrid => 10,
            Refusal::WrongFile => 11,
            Refusal::TooManyFacets => 12,
            Refusal::Strip => 13,
            Refusal::NoSuchEdition => 14,
            Refusal::WrongIndexLength => 15,
            Refusal::StaleIndex => 18,
        }
    }
}
