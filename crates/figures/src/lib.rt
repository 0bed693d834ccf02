// The figures of a list for a shift's report: how many readings, the smallest, the largest, those at a quarter and three quarters, twice the median.
#![tactic(auto)]

ghost use Rattle.std.specs.Prelude.{◌≡◌, ◌*◌, ◌≤◌, ◌<◌, length};
ghost use Rattle.arena.specs.Held.{nodes_of};
ghost use Rattle.figures.specs.Figured.{figures_of, quarter, FiguresPromise};

use answers::Refusal;
use arena::{Index, List, Slot};

#[derive(Clone, Copy, PartialEq, Eq, Default)]
pub struct Figures {
    pub count: u32,
    pub smallest: u32,
    pub largest: u32,
    pub lower: u32,
    pub middle: u64, // twice the median
    pub upper: u32,
}

// The key at index floor(q(n-1)/4) of a list of n keys.
fn quarter(list: List, n: u32, q: u32) -> u32
    requires { (0 < n) × (n ≡ length (nodes_of list)) × (q ≤ 4) }
    ensures { result ≡ quarter q (nodes_of list.entry) }
{
    let i = (q as u64 * (n as u64 - 1) / 4) as u32;
    rank_walk::read(list, Index(i))
}

// The figures of a list of an arena that passed the check.
pub fn of(list: List) -> Figures
    ensures value { result ≡ figures_of (nodes_of list.entry) }
    ensures middle_bound { result.middle ≤ 2 * 4294967295 }
{
    let count = rank_walk::length(list);
    if count == 0 {
        return Figures::default();
    }
    Figures {
        count,
        smallest: rank_walk::read(list, Index(0)),
        largest: rank_walk::read(list, Index(count - 1)),
        lower: quarter(list, count, 1),
        middle: middle::middle(list),
        upper: quarter(list, count, 3),
    }
}

// The figures of a list, for any words and any list number: the check is asked first, then whether the list is there.
pub fn answer(w: &[u32], list: Slot) -> Result<Figures, Refusal>
    ensures { FiguresPromise list.0 w.now result }
{
    answers::passed(arena_check::check(w))?;
    let m = answers::one_list(w, list)?;
    Ok(of(List::new(w, m, list)))
}
