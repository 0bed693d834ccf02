// Every answer as document 01's numbers, each told here and nowhere else: for C, for call scripts and for batches.
#![tactic(auto)]

ghost use Rattle.std.specs.Prelude.{ℕ, ◌≡◌, cond, Err};
ghost use Rattle.link.specs.Distances.{told};
ghost use Rattle.answers.specs.Told.{number_of as refusal_number, search_told};
ghost use Rattle.numbers.specs.Read.{Tells, answer_of};

use answers::{Refusal, SearchError, Searched};
use link::LinkError;
use setup::WrongSizes;

// Yes is 1.
pub fn of_check(yes: bool) -> u32
    ensures { result ≡ cond yes 1 0 }
{
    u32::from(yes)
}

// A refusal or an error, which has one of document 01's numbers.
pub trait Numbered {
    ghost number_of: { Self → ℕ };

    fn number(self) -> u32
        ensures { result ≡ number_of self };
}

impl Numbered for Refusal {
    ghost number_of = { refusal_number };

    fn number(self) -> u32 {
        self as u32
    }
}

impl Numbered for WrongSizes {
    ghost number_of = { λ _. 2 };

    fn number(self) -> u32 {
        2
    }
}

impl Numbered for LinkError {
    ghost number_of = { λ e. (told (Err e)).number };

    fn number(self) -> u32 {
        self as u32
    }
}

// The number of an answer and the value beside it, as C gets them: 0 where the call is refused.
#[derive(Clone, Copy)]
pub struct Valued<T> {
    pub number: u32,
    pub value: T,
}

impl<T: Copy + Default, E: Numbered> From<Result<T, E>> for Valued<T> {
    ghost from_gives = { Tells T.is_default E.number_of };

    fn from(a: Result<T, E>) -> Valued<T> {
        match a {
            Ok(value) => Valued { number: 0, value },
            Err(e) => Valued {
                number: e.number(),
                value: T::default(),
            },
        }
    }
}

// An answer of a search, as C gets it; 0 where it has no such number.
#[derive(Clone, Copy)]
pub struct Numbers {
    pub number: u32,
    pub found: u32,
    pub place: u32,
    pub tally: u32,
}

impl From<Result<Searched, SearchError>> for Numbers {
    ghost from_gives = { λ a n. answer_of n ≡ search_told a };

    fn from(a: Result<Searched, SearchError>) -> Numbers {
        let (number, found, place, tally) = match a {
            Ok(Searched::Found(i, n)) => (0, 1, i.0, n),
            Ok(Searched::Missing(i, n)) => (0, 0, i.0, n),
            Err(SearchError::Beyond(allowance)) => (10, 0, 0, allowance),
            Err(SearchError::Refused(r)) => (r.number(), 0, 0, 0),
        };
        Numbers {
            number,
            found,
            place,
            tally,
        }
    }
}
