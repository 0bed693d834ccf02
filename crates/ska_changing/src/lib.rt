// The public calls that change one list: insert, remove by key, remove at an index, levelling. Any words, any arguments: each checks the arena and
// then asks `checked_changing`.
#![tactic(auto)]

ghost use Rattle.model.specs.Calls.{insert_key, remove_key, remove_index, level, Promise};
ghost use Rattle.answers.specs.Told.{key_told, plain_told};

use answers::Refusal;
use arena::{Index, Slot};

// A key before the first that is not below it, in the first free slot.
pub fn insert(w: &mut [u32], list: Slot, key: u32, height: u32) -> Result<(), Refusal>
    ensures { Promise (insert_key list.0 key height) w.old w.new (plain_told result) }
{
    answers::passed(arena_check::check(w))?;
    checked_changing::insert(w, list, key, height)
}

// The first node of a key goes, and its slot is freed.
pub fn remove_key(w: &mut [u32], list: Slot, key: u32) -> Result<u32, Refusal>
    ensures { Promise (remove_key list.0 key) w.old w.new (key_told result) }
{
    answers::passed(arena_check::check(w))?;
    checked_changing::remove_key(w, list, key)
}

// The node at an index goes, and its slot is freed.
pub fn remove_at(w: &mut [u32], list: Slot, i: Index) -> Result<u32, Refusal>
    ensures { Promise (remove_index list.0 i.0) w.old w.new (key_told result) }
{
    answers::passed(arena_check::check(w))?;
    checked_changing::remove_at(w, list, i)
}

// The node of rank k gets as height the number of times 2 divides k, at most M.
pub fn level(w: &mut [u32], list: Slot) -> Result<(), Refusal>
    ensures { Promise (level list.0) w.old w.new (plain_told result) }
{
    answers::passed(arena_check::check(w))?;
    checked_changing::level(w, list)
}
