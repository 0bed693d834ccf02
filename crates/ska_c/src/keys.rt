// The calls that answer more than a number.
ghost use Rattle.model.specs.Calls.{search, read, middle, remove_key, remove_index, Promise};
ghost use Rattle.ska_c.specs.Returned.{with_key, with_place};

use arena::{Index, Slot};
use numbers::{Numbers, Valued};

#[unsafe(no_mangle)]
pub extern "C" fn ska_search(
    w: &[u32],
    list: u32,
    key: u32,
    allowance: u32,
    found: &mut u32,
    place: &mut u32,
    tally: &mut u32,
) -> u32
    ensures { Promise (search list key allowance) w.now w.now (with_place result found.new place.new tally.new) }
{
    let n = Numbers::from(ska::search(w, Slot(list), key, allowance));
    *found = n.found;
    *place = n.place;
    *tally = n.tally;
    n.number
}

#[unsafe(no_mangle)]
pub extern "C" fn ska_read(w: &[u32], list: u32, index: u32, key: &mut u32) -> u32
    ensures { Promise (read list index) w.now w.now (with_key result key.new) }
{
    let n = Valued::from(ska::read(w, Slot(list), Index(index)));
    *key = n.value;
    n.number
}

#[unsafe(no_mangle)]
pub extern "C" fn ska_middle(w: &[u32], list: u32, twice: &mut u64) -> u32
    ensures { Promise (middle list) w.now w.now (with_key result twice.new) }
{
    let n = Valued::from(ska::middle(w, Slot(list)));
    *twice = n.value;
    n.number
}

#[unsafe(no_mangle)]
pub extern "C" fn ska_remove_key(w: &mut [u32], list: u32, key: u32, removed: &mut u32) -> u32
    ensures { Promise (remove_key list key) w.old w.new (with_key result removed.new) }
{
    let n = Valued::from(ska::remove_key(w, Slot(list), key));
    *removed = n.value;
    n.number
}

#[unsafe(no_mangle)]
pub extern "C" fn ska_remove_at(w: &mut [u32], list: u32, index: u32, removed: &mut u32) -> u32
    ensures { Promise (remove_index list index) w.old w.new (with_key result removed.new) }
{
    let n = Valued::from(ska::remove_at(w, Slot(list), Index(index)));
    *removed = n.value;
    n.number
}
