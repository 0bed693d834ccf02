// The calls that only read an arena that has passed the check: search, read at an index, middle. Each asks the later refusals in document 01's
// order, and then a walk.
#![tactic(auto)]

ghost use Rattle.model.specs.Passes.{Passes};
ghost use Rattle.model.specs.Calls.{search, read, middle};
ghost use Rattle.answers.specs.Told.{search_told, key_told, middle_told};
ghost use Rattle.answers.specs.Kept.{Kept};

use answers::{Refusal, SearchError, Searched};
use arena::{Index, List, Slot};

pub fn search(w: &[u32], list: Slot, key: u32, allowance: u32) -> Result<Searched, SearchError>
    requires { Passes w.now }
    ensures { Kept (search list.0 key allowance) w.now w.now (search_told result) }
{
    let list = List::new(w, answers::one_list(w, list)?, list);
    Ok(key_walk::search(list, key, allowance)?)
}

pub fn read(w: &[u32], list: Slot, i: Index) -> Result<u32, Refusal>
    requires { Passes w.now }
    ensures { Kept (read list.0 i.0) w.now w.now (key_told result) }
{
    let list = List::new(w, answers::one_list(w, list)?, list);
    if rank_walk::length(list) <= i.0 {
        return Err(Refusal::PastEnd);
    }
    Ok(rank_walk::read(list, i))
}

pub fn middle(w: &[u32], list: Slot) -> Result<u64, Refusal>
    requires { Passes w.now }
    ensures { Kept (middle list.0) w.now w.now (middle_told result) }
{
    let list = List::new(w, answers::one_list(w, list)?, list);
    if rank_walk::length(list) == 0 {
        return Err(Refusal::PastEnd);
    }
    Ok(middle::middle(list))
}
