// The calls that cut and join lists of an arena that has passed the check: truncate, clear, split at an index, split by key, append. Each asks the
// later refusals in document 01's order, and then one operation.
#![tactic(auto)]

ghost use Rattle.model.specs.Passes.{Passes};
ghost use Rattle.model.specs.Calls.{truncate, clear, split_at, split_key, append_list};
ghost use Rattle.answers.specs.Told.{plain_told};
ghost use Rattle.answers.specs.Kept.{Kept};

use answers::Refusal;
use arena::{Index, List, Slot};

pub fn truncate(w: &mut [u32], list: Slot, n: u32) -> Result<(), Refusal>
    requires { Passes w.old }
    ensures { Kept (truncate list.0 n) w.old w.new (plain_told result) }
{
    let m = answers::one_list(w, list)?;
    truncate::truncate(w, m, list, n);
    Ok(())
}

pub fn clear(w: &mut [u32], list: Slot) -> Result<(), Refusal>
    requires { Passes w.old }
    ensures { Kept (clear list.0) w.old w.new (plain_told result) }
{
    let m = answers::one_list(w, list)?;
    truncate::truncate(w, m, list, 0);
    Ok(())
}

pub fn split_at(w: &mut [u32], from: Slot, to: Slot, i: Index) -> Result<(), Refusal>
    requires { Passes w.old }
    ensures { Kept (split_at from.0 to.0 i.0) w.old w.new (plain_told result) }
{
    let m = answers::two_lists(w, from, to)?;
    if rank_walk::length(List::new(w, m, to)) != 0 {
        return Err(Refusal::NotEmpty);
    }
    if rank_walk::length(List::new(w, m, from)) < i.0 {
        return Err(Refusal::PastEnd);
    }
    split::split_at(w, m, from, to, i);
    Ok(())
}

pub fn split_key(w: &mut [u32], from: Slot, to: Slot, key: u32) -> Result<(), Refusal>
    requires { Passes w.old }
    ensures { Kept (split_key from.0 to.0 key) w.old w.new (plain_told result) }
{
    let m = answers::two_lists(w, from, to)?;
    if rank_walk::length(List::new(w, m, to)) != 0 {
        return Err(Refusal::NotEmpty);
    }
    split::split_key(w, m, from, to, key);
    Ok(())
}

pub fn append(w: &mut [u32], a: Slot, b: Slot) -> Result<(), Refusal>
    requires { Passes w.old }
    ensures { Kept (append_list a.0 b.0) w.old w.new (plain_told result) }
{
    let m = answers::two_lists(w, a, b)?;
    append::append(w, m, a, b);
    Ok(())
}
