// The calls for C: pointer and length for the words, numbers for the rest, document 01's number as result, values through out-parameters.
#![tactic(auto)]

mod keys;
mod links;

ghost use Rattle.model.specs.Calls.{insert_key, truncate, clear, split_at, split_key, append_list, level, Promise, SetUpPromise};
ghost use Rattle.ska_c.specs.Returned.{alone, Verdict};

use arena::{Index, Slot};
use numbers::Valued;

#[unsafe(no_mangle)]
pub extern "C" fn ska_set_up(w: &mut [u32], lists: u32, levels: u32, nodes: u32) -> u32
    ensures { SetUpPromise lists levels nodes w.old w.new result }
{
    Valued::from(ska::set_up(w, lists, levels, nodes)).number
}

#[unsafe(no_mangle)]
pub extern "C" fn ska_check(w: &[u32]) -> u32
    ensures { Verdict w.now result }
{
    numbers::of_check(ska::check(w))
}

#[unsafe(no_mangle)]
pub extern "C" fn ska_insert(w: &mut [u32], list: u32, key: u32, height: u32) -> u32
    ensures { Promise (insert_key list key height) w.old w.new (alone result) }
{
    Valued::from(ska::insert(w, Slot(list), key, height)).number
}

#[unsafe(no_mangle)]
pub extern "C" fn ska_truncate(w: &mut [u32], list: u32, count: u32) -> u32
    ensures { Promise (truncate list count) w.old w.new (alone result) }
{
    Valued::from(ska::truncate(w, Slot(list), count)).number
}

#[unsafe(no_mangle)]
pub extern "C" fn ska_clear(w: &mut [u32], list: u32) -> u32
    ensures { Promise (clear list) w.old w.new (alone result) }
{
    Valued::from(ska::clear(w, Slot(list))).number
}

#[unsafe(no_mangle)]
pub extern "C" fn ska_split_at(w: &mut [u32], from: u32, to: u32, index: u32) -> u32
    ensures { Promise (split_at from to index) w.old w.new (alone result) }
{
    Valued::from(ska::split_at(w, Slot(from), Slot(to), Index(index))).number
}

#[unsafe(no_mangle)]
pub extern "C" fn ska_split_key(w: &mut [u32], from: u32, to: u32, key: u32) -> u32
    ensures { Promise (split_key from to key) w.old w.new (alone result) }
{
    Valued::from(ska::split_key(w, Slot(from), Slot(to), key)).number
}

#[unsafe(no_mangle)]
pub extern "C" fn ska_append(w: &mut [u32], a: u32, b: u32) -> u32
    ensures { Promise (append_list a b) w.old w.new (alone result) }
{
    Valued::from(ska::append(w, Slot(a), Slot(b))).number
}

#[unsafe(no_mangle)]
pub extern "C" fn ska_level(w: &mut [u32], list: u32) -> u32
    ensures { Promise (level list) w.old w.new (alone result) }
{
    Valued::from(ska::level(w, Slot(list))).number
}
