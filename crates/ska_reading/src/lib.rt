// The public calls that only read: search, read at an index, middle. Any words, any arguments: each checks the arena and then asks `checked_reading`.
#![tactic(auto)]

ghost use Rattle.model.specs.Calls.{search, read, middle, Promise};
ghost use Rattle.answers.specs.Told.{key_told, middle_told, search_told};

use answers::{Refusal, SearchError, Searched};
use arena::{Index, Slot};

// Whether a key is in a list, at which index or place, and after how many comparisons; refused past the allowance.
pub fn search(w: &[u32], list: Slot, key: u32, allowance: u32) -> Result<Searched, SearchError>
    ensures { Promise (search list.0 key allowance) w.now w.now (search_told result) }
{
    answers::passed(arena_check::check(w))?; // its refusal becomes that of a search
    checked_reading::search(w, list, key, allowance)
}

// The key at an index.
pub fn read(w: &[u32], list: Slot, i: Index) -> Result<u32, Refusal>
    ensures { Promise (read list.0 i.0) w.now w.now (key_told result) }
{
    answers::passed(arena_check::check(w))?;
    checked_reading::read(w, list, i)
}

// Twice the median: the sum of the keys at indexes floor((length - 1) / 2) and floor(length / 2).
pub fn middle(w: &[u32], list: Slot) -> Result<u64, Refusal>
    ensures { Promise (middle list.0) w.now w.now (middle_told result) }
{
    answers::passed(arena_check::check(w))?;
    checked_reading::middle(w, list)
}
