// The core functions by themselves, for measuring only: each asks the passed check and the accepted arguments of its caller, which the
// public calls of `ska_c` never do. Lists, keys and indexes cross as plain numbers.
#![tactic(auto)]

ghost use Rattle.std.specs.Prelude.{◌≡◌, [], ◌≤◌, ◌<◌, length};
ghost use Rattle.model.specs.Nodes.{key_at, smaller};
ghost use Rattle.model.specs.Arena.{encode};
ghost use Rattle.model.specs.Calls.{search, remove_key, answer_to, result_of, do_insert, do_remove, do_truncate, do_split, do_append, do_level};
ghost use Rattle.model.specs.Passes.{decode, nodes};
ghost use Rattle.arena.specs.Owners.{Listed, NodeThere, TwoLists};
ghost use Rattle.split.specs.Splits.{Splits};

use answers::Searched;
use arena::{Index, List, Slot};

// The index or the place; 0 where the allowance is not enough.
#[unsafe(no_mangle)]
pub extern "C" fn core_search(w: &[u32], m: usize, list: u32, key: u32, allowance: u32) -> u32
    requires { Listed w.now m list }
    ensures { result ≡ (answer_to (decode w.now) (search list key allowance)).place }
{
    match key_walk::search(List::new(w, m, Slot(list)), key, allowance) {
        Ok(Searched::Found(i, _) | Searched::Missing(i, _)) => i.0,
        Err(_) => 0,
    }
}

#[unsafe(no_mangle)]
pub extern "C" fn core_read(w: &[u32], m: usize, list: u32, index: u32) -> u32
    requires { Listed w.now m list × (index < length (nodes w.now list)) }
    ensures { result ≡ key_at (nodes w.now list) index }
{
    rank_walk::read(List::new(w, m, Slot(list)), Index(index))
}

#[unsafe(no_mangle)]
pub extern "C" fn core_insert(w: &mut [u32], m: usize, list: u32, key: u32, height: u32)
    requires { Listed w.old m list × ((height ≤ m) × (0 < length (decode w.old).free)) }
    ensures { w.new ≡ encode (do_insert (decode w.old) list key height) }
{
    insertion::insert(w, m, Slot(list), key, height)
}

// The key; 0 where there is none such.
#[unsafe(no_mangle)]
pub extern "C" fn core_remove_key(w: &mut [u32], m: usize, list: u32, key: u32) -> u32
    requires { Listed w.old m list }
    ensures { (result ≡ (answer_to (decode w.old) (remove_key list key)).key) × (w.new ≡ encode (result_of (decode w.old) (remove_key list key))) }
{
    checked_changing::remove_key(w, Slot(list), key).unwrap_or(0)
}

#[unsafe(no_mangle)]
pub extern "C" fn core_remove_at(w: &mut [u32], m: usize, list: u32, index: u32) -> u32
    requires { NodeThere w.old m list index }
    ensures { w.new ≡ encode (do_remove (decode w.old) list index) × (result ≡ key_at (nodes w.old list) index) }
{
    removal::remove_at(w, m, Slot(list), Index(index))
}

#[unsafe(no_mangle)]
pub extern "C" fn core_truncate(w: &mut [u32], m: usize, list: u32, count: u32)
    requires { Listed w.old m list }
    ensures { w.new ≡ encode (do_truncate (decode w.old) list count) }
{
    truncate::truncate(w, m, Slot(list), count)
}

#[unsafe(no_mangle)]
pub extern "C" fn core_split_at(w: &mut [u32], m: usize, from: u32, to: u32, index: u32)
    requires { Splits w.old m from to index }
    ensures { w.new ≡ encode (do_split (decode w.old) from to index) }
{
    split::split_at(w, m, Slot(from), Slot(to), Index(index))
}

#[unsafe(no_mangle)]
pub extern "C" fn core_split_key(w: &mut [u32], m: usize, from: u32, to: u32, key: u32)
    requires { TwoLists w.old m from to × (nodes w.old to ≡ []) }
    ensures { w.new ≡ encode (do_split (decode w.old) from to (smaller key (nodes w.old from))) }
{
    split::split_key(w, m, Slot(from), Slot(to), key)
}

#[unsafe(no_mangle)]
pub extern "C" fn core_append(w: &mut [u32], m: usize, a: u32, b: u32)
    requires { TwoLists w.old m a b }
    ensures { w.new ≡ encode (do_append (decode w.old) a b) }
{
    append::append(w, m, Slot(a), Slot(b))
}

#[unsafe(no_mangle)]
pub extern "C" fn core_level(w: &mut [u32], m: usize, list: u32)
    requires { Listed w.old m list }
    ensures { w.new ≡ encode (do_level (decode w.old) list) }
{
    levelling::level(w, m, Slot(list))
}
