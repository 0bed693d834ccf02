// What the calls on an arena answer, and the rows of the table of refusals that come first: the check's verdict, and the lists a call names.
#![tactic(auto)]

mod lists;

ghost use Rattle.std.specs.Prelude.{◌≡◌};
ghost use Rattle.answers.specs.declared.SearchError.TheVariants.{Refused, Beyond};

pub use key_walk::Searched;
pub use lists::{one_list, passed, two_lists};

// Why a call on an arena is refused, but for the search's allowance: "Refusal numbers, in order of testing".
#[derive(Clone, Copy, PartialEq, Eq, Debug)]
pub enum Refusal {
    Broken = 1,
    NoList = 3,
    SameList = 4,
    TooHigh = 5,
    Full = 6,
    NotEmpty = 7,
    PastEnd = 8,
    NoKey = 9,
}

// Why a search is refused: as every call, or with the allowance that the tally is above.
#[derive(Clone, Copy, PartialEq, Eq, Debug)]
pub enum SearchError {
    Refused(Refusal),
    Beyond(u32),
}

impl From<Refusal> for SearchError {
    ghost from_gives = { λ r e. e ≡ Refused r };

    fn from(r: Refusal) -> SearchError {
        SearchError::Refused(r)
    }
}

impl From<key_walk::Beyond> for SearchError {
    ghost from_gives = { λ b e. e ≡ Beyond b.0 };

    fn from(b: key_walk::Beyond) -> SearchError {
        SearchError::Beyond(b.0)
    }
}
