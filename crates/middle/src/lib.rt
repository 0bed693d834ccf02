// Request K2: twice the median of a list, by one walk to the lower of its two middles and one step by next to the upper.
#![tactic(auto)]

ghost use Rattle.std.specs.Prelude.{◌≡◌, ◌+◌, ◌*◌, ◌≤◌, ◌<◌, length};
ghost use Rattle.model.specs.Lists.{middle_of};
ghost use Rattle.arena.specs.Held.{nodes_of};

use arena::{Index, Key, List, Slot};

// The sum of two keys, which can pass 32 bits.
fn sum(a: Key, b: Key) -> u64
    ensures { (result ≡ a + b) × (result ≤ 2 * 4294967295) }
{
    u64::from(a) + u64::from(b)
}

// Twice the median: the key at index floor((length - 1) / 2), and the next or, where the length is odd, the same again.
pub fn middle(list: List) -> u64
    requires { 0 < length (nodes_of list) }
    ensures { (result ≡ middle_of (nodes_of list.entry)) × (result ≤ 2 * 4294967295) }
{
    let n = rank_walk::length(list);
    let s = rank_walk::at(list, Index((n - 1) / 2));
    let lower = arena::key_at(list.words, list.levels, s);
    if n % 2 == 1 {
        return sum(lower, lower);
    }
    let next = arena::cell(list.words, list.levels, s, arena::NEXT);
    let upper = arena::key_at(list.words, list.levels, Slot(next));
    sum(lower, upper)
}
