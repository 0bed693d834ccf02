// The public calls that cut and join lists: truncate, clear, split at an index, split by key, append. Any words, any arguments: each checks the
// arena and then asks `checked_cutting`.
#![tactic(auto)]

ghost use Rattle.model.specs.Calls.{truncate, clear, split_at, split_key, append_list, Promise};
ghost use Rattle.answers.specs.Told.{plain_told};

use answers::Refusal;
use arena::{Index, Slot};

// The first n stay, the rest are freed in list order.
pub fn truncate(w: &mut [u32], list: Slot, n: u32) -> Result<(), Refusal>
    ensures { Promise (truncate list.0 n) w.old w.new (plain_told result) }
{
    answers::passed(arena_check::check(w))?;
    checked_cutting::truncate(w, list, n)
}

// All nodes of a list are freed in list order.
pub fn clear(w: &mut [u32], list: Slot) -> Result<(), Refusal>
    ensures { Promise (clear list.0) w.old w.new (plain_told result) }
{
    answers::passed(arena_check::check(w))?;
    checked_cutting::clear(w, list)
}

// Everything from an index on moves into an empty list.
pub fn split_at(w: &mut [u32], from: Slot, to: Slot, i: Index) -> Result<(), Refusal>
    ensures { Promise (split_at from.0 to.0 i.0) w.old w.new (plain_told result) }
{
    answers::passed(arena_check::check(w))?;
    checked_cutting::split_at(w, from, to, i)
}

// Everything from the number of smaller keys on moves into an empty list.
pub fn split_key(w: &mut [u32], from: Slot, to: Slot, key: u32) -> Result<(), Refusal>
    ensures { Promise (split_key from.0 to.0 key) w.old w.new (plain_told result) }
{
    answers::passed(arena_check::check(w))?;
    checked_cutting::split_key(w, from, to, key)
}

// List b comes into list a, in order, and ends empty.
pub fn append(w: &mut [u32], a: Slot, b: Slot) -> Result<(), Refusal>
    ensures { Promise (append_list a.0 b.0) w.old w.new (plain_told result) }
{
    answers::passed(arena_check::check(w))?;
    checked_cutting::append(w, a, b)
}
