// The words beside the links that change where a node goes in or out: those of the list's chain, and the header's of the free chain.
#![tactic(auto)]

ghost use Rattle.std.specs.Prelude.{◌≡◌, ◌≤◌, length};
ghost use Rattle.model.specs.Arena.{header_words};
ghost use Rattle.chain_words.specs.Chain.{ChainLies, put_chain, put_free};

use arena::{FIRST_FREE_WORD, FREE_WORD, HEIGHT, KEY, LAST, NEXT, Slot, put, put_header, put2};

// What changes of a list's head.
#[derive(Clone, Copy)]
pub struct Head {
    pub slot: Slot,
    pub count: u32,
    pub last: Slot,
}

// The first words of a node's record, as a node's of a list or a free one's.
#[derive(Clone, Copy)]
pub struct Record {
    pub slot: Slot,
    pub key: u32,
    pub height: u32,
    pub next: Slot,
}

// The chain's words; `next` is the next word of slot `end`, which stands before the node. A head's length has the column of a node's key.
pub fn put_chain(w: &mut [u32], m: usize, head: Head, end: Slot, next: Slot, node: Record)
    requires { ChainLies w.old m head.slot.0 end.0 node.slot.0 }
    ensures { w.new ≡ put_chain m w.old head end.0 next.0 node }
{
    let a = head.slot;
    let o = node.slot;
    put(w, m, a, LAST, head.last.0);
    put2(w, m, NEXT, end, next.0, o, node.next.0);
    put(w, m, o, HEIGHT, node.height);
    put2(w, m, KEY, a, head.count, o, node.key);
}

// The free chain's first slot and number.
pub fn put_free(w: &mut [u32], first: Slot, count: u32)
    requires { header_words ≤ length w.old }
    ensures { w.new ≡ put_free w.old first.0 count }
{
    put_header(w, FIRST_FREE_WORD, first.0);
    put_header(w, FREE_WORD, count);
}
