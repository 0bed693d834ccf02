// The walk by key, with a tally and an allowance.
ghost use Rattle.std.specs.Prelude.{◌≡◌};
ghost use Rattle.model.specs.Calls.{search, answer_to};
ghost use Rattle.model.specs.Passes.{decode};
ghost use Rattle.key_walk.specs.Midway.{Stands, Down, WalkedOn};
ghost use Rattle.key_walk.specs.SearchAnswer.{answer_of};

use crate::{Beyond, Searched, Visitor, Walked};
use arena::{Key, List, Rank, Slot};

// Down the levels below `level`: along each while the link's key is smaller.
fn descend(list: List, key: Key, from: Visitor, level: usize) -> Option<Visitor>
    requires { Stands list.words.now list.levels list.head.0 level from }
    ensures { Down list.entry.words.now list.entry.levels list.entry.head.0 key level from result }
{
    let mut v = from;
    let mut stage = level;
    // No `for`: a turn goes along a stage or down to the next, so that no count of turns stands before.
    while 0 < stage {
        let to = arena::target_in(list.words, v.base, stage);
        if to == Slot::NONE {
            stage -= 1;
            continue;
        }
        // No `checked_sub`, here and below: a search of 255 keys would take a seventh more instructions.
        if v.left == 0 {
            return None;
        }
        v.left -= 1;
        let there = arena::base_of(list.levels, to);
        let met = arena::key_in(list.words, there);
        if !arena::below(met, key) {
            stage -= 1;
            continue;
        }
        v.rank = v.rank.plus(arena::distance_in(list.words, v.base, stage));
        v.slot = to;
        v.base = there;
    }
    Some(v)
}

// Below level 0, by next.
fn follow(list: List, key: Key, from: Visitor) -> Option<Walked>
    requires { Stands list.words.now list.levels list.head.0 0 from }
    ensures { WalkedOn list.entry.words.now list.entry.levels list.entry.head.0 key 0 from result }
{
    let mut u = from;
    loop {
        let to = Slot(arena::word(list.words, u.base + arena::NEXT));
        if to == Slot::NONE {
            return Some(Walked::Missing(u));
        }
        if u.left == 0 {
            return None;
        }
        u.left -= 1;
        let there = arena::base_of(list.levels, to);
        let met = arena::key_in(list.words, there);
        if arena::below(key, met) {
            return Some(Walked::Missing(u));
        }
        u.rank = u.rank.plus(1);
        u.slot = to;
        u.base = there;
        if arena::same(key, met) {
            return Some(Walked::Found(u));
        }
    }
}

// The walk on from where a visitor stands in a list, with the levels below `level` still to come; none, where it would take more comparisons.
pub fn walk(list: List, key: Key, from: Visitor, level: usize) -> Option<Walked>
    requires { Stands list.words.now list.levels list.head.0 level from }
    ensures { WalkedOn list.entry.words.now list.entry.levels list.entry.head.0 key level from result }
{
    let v = descend(list, key, from, level)?;
    follow(list, key, v)
}

// The walk from the head, with at most `allowance` comparisons.
pub fn search(list: List, key: Key, allowance: u32) -> Result<Searched, Beyond>
    ensures { answer_of result ≡ answer_to (decode list.entry.words.now) (search list.entry.head.0 key allowance) }
{
    let from = Visitor::at(list.levels, list.head, Rank::HEAD, allowance);
    match walk(list, key, from, list.levels) {
        Some(Walked::Found(v)) => Ok(Searched::Found(v.rank.to_index(), allowance - v.left)),
        Some(Walked::Missing(v)) => Ok(Searched::Missing(v.rank.after(), allowance - v.left)),
        None => Err(Beyond(allowance)),
    }
}
