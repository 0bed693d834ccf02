// Q is 10, 20, 20, 30 levelled at M = 2; with L = 1 and C = 4 the arena has 48 words, all nodes in the list.
ghost use Rattle.std.specs.Prelude.{◌≤◌, length};
ghost use Rattle.model.specs.Arena.{header_words};
ghost use Rattle.arena.specs.RecordIn.{RecordIn};

use arena::{Link, Slot};

const LEVELS: usize = 2;

// A record: the columns before the links (length or key, height, next, last), and the links of both levels.
#[derive(Clone, Copy)]
struct Record {
    first: u32,
    height: u32,
    next: Slot,
    last: u32,
    low: Link,
    high: Link,
}

fn link(target: u32, distance: u32) -> Link {
    Link {
        target: Slot(target),
        distance,
    }
}

fn head() -> Record {
    Record {
        first: 4,
        height: 2,
        next: Slot(1),
        last: 4,
        low: link(2, 2),
        high: link(4, 4),
    }
}

// Of a node no link of level 1 is there.
fn node(key: u32, height: u32, next: Slot, low: Link) -> Record {
    Record {
        first: key,
        height,
        next,
        last: 0,
        low,
        high: Link::ABSENT,
    }
}

fn put_record(w: &mut [u32], s: Slot, r: Record)
    requires { RecordIn w.old 2 s.0 }
{
    arena::put(w, LEVELS, s, arena::KEY, r.first);
    arena::put(w, LEVELS, s, arena::HEIGHT, r.height);
    arena::put(w, LEVELS, s, arena::NEXT, r.next.0);
    arena::put(w, LEVELS, s, arena::LAST, r.last);
    arena::put_link(w, LEVELS, s, 0, r.low);
    arena::put_link(w, LEVELS, s, 1, r.high);
}

fn put_sizes(w: &mut [u32])
    requires { header_words ≤ length w.old }
{
    arena::put_header(w, arena::LISTS_WORD, 1);
    arena::put_header(w, arena::LEVELS_WORD, 2);
    arena::put_header(w, arena::ROOM_WORD, 4);
}

fn put_front(w: &mut [u32])
    requires { header_words ≤ length w.old }
{
    arena::put_header(w, arena::MARK_WORD, arena::MARK);
    arena::put_header(w, arena::VERSION_WORD, arena::VERSION);
    put_sizes(w);
    arena::put_header(w, arena::FIRST_FREE_WORD, Slot::NONE.0);
}

// Over words that are all 0.
pub fn write(w: &mut [u32])
    requires { 48 ≤ length w.old }
{
    put_front(w);
    put_record(w, Slot(0), head());
    put_record(w, Slot(1), node(10, 0, Slot(2), Link::ABSENT));
    put_record(w, Slot(2), node(20, 1, Slot(3), link(4, 2)));
    put_record(w, Slot(3), node(20, 0, Slot(4), Link::ABSENT));
    put_record(w, Slot(4), node(30, 2, Slot::NONE, Link::ABSENT));
}
