// The calls that change one list of an arena that has passed the check: insert, remove by key, remove at an index, levelling. Each asks the later
// refusals in document 01's order, and then one operation.
#![tactic(auto)]

ghost use Rattle.std.specs.Prelude.{◌≡◌, length};
ghost use Rattle.model.specs.Passes.{decode, Passes};
ghost use Rattle.model.specs.Calls.{insert_key, remove_key, remove_index, level};
ghost use Rattle.answers.specs.Told.{key_told, plain_told};
ghost use Rattle.answers.specs.Kept.{Kept};

use answers::{Refusal, Searched};
use arena::{Index, List, Slot};

// How many slots are free.
fn free(w: &[u32]) -> u32
    requires { Passes w.now }
    ensures { result ≡ length (decode w.now).free }
{
    arena::header(w, arena::FREE_WORD)
}

pub fn insert(w: &mut [u32], list: Slot, key: u32, height: u32) -> Result<(), Refusal>
    requires { Passes w.old }
    ensures { Kept (insert_key list.0 key height) w.old w.new (plain_told result) }
{
    let m = answers::one_list(w, list)?;
    if m < height as usize {
        return Err(Refusal::TooHigh);
    }
    if free(w) == 0 {
        return Err(Refusal::Full);
    }
    insertion::insert(w, m, list, key, height);
    Ok(())
}

// "A removal by key first asks the search, without an allowance, and goes on only when it is found."
pub fn remove_key(w: &mut [u32], list: Slot, key: u32) -> Result<u32, Refusal>
    requires { Passes w.old }
    ensures { Kept (remove_key list.0 key) w.old w.new (key_told result) }
{
    let m = answers::one_list(w, list)?;
    let Ok(Searched::Found(i, _)) = key_walk::search(List::new(w, m, list), key, u32::MAX) else {
        return Err(Refusal::NoKey);
    };
    Ok(removal::remove_at(w, m, list, i))
}

pub fn remove_at(w: &mut [u32], list: Slot, i: Index) -> Result<u32, Refusal>
    requires { Passes w.old }
    ensures { Kept (remove_index list.0 i.0) w.old w.new (key_told result) }
{
    let m = answers::one_list(w, list)?;
    if rank_walk::length(List::new(w, m, list)) <= i.0 {
        return Err(Refusal::PastEnd);
    }
    Ok(removal::remove_at(w, m, list, i))
}

pub fn level(w: &mut [u32], list: Slot) -> Result<(), Refusal>
    requires { Passes w.old }
    ensures { Kept (level list.0) w.old w.new (plain_told result) }
{
    let m = answers::one_list(w, list)?;
    levelling::level(w, m, list);
    Ok(())
}
