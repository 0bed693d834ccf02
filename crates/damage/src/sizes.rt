// The clauses of the length and the header. Arenas of other sizes are made by set-up, and then all their words are made to fit what the header
// says, so that only the size itself is wrong.
use super::arenas::Change::{Header, Lost};
use super::arenas::{NONE, changed, put_front, put_in, put_word};
use super::telling::{Clause, Line};
use arena::{
    FIRST_FREE_WORD, FREE_WORD, LEVELS_WORD, LINK, LISTS_WORD, MARK_WORD, ROOM_WORD, Slot, TO,
    VERSION_WORD, ZERO_WORD,
};

// The words of a record of 17 levels.
const WIDE: usize = 38;

fn cut(w: &[u32], n: usize) -> &[u32] {
    &w[..n.min(w.len())]
}

// The sample without its last slot needs 96 words. With fewer than eight there is no whole header either.
pub fn lengths<R: Print>(line: &mut Line<'_, R>) {
    let w = changed(&[Header(ROOM_WORD, 8), Lost]);
    line.tell("the first one without slot 11, in 96 words", cut(&w, 96));
    line.begin(Clause::Length);
    for (what, n) in [
        ("a word too few", 95),
        ("a slot too few", 88),
        ("a word too many", 97),
        ("a slot too many", 104),
        ("seven words", 7),
        ("no word", 0),
    ] {
        line.tell(what, cut(&w, n));
    }
}

pub fn headers<R: Print>(line: &mut Line<'_, R>) {
    line.begin(Clause::Header);
    line.tell_each(&[
        ("mark 4279124", &[Header(MARK_WORD, 4279124)]),
        ("version 2", &[Header(VERSION_WORD, 2)]),
        (
            "version 65537, 1 in its low 16 bits",
            &[Header(VERSION_WORD, 65537)],
        ),
        ("word 7 is 1", &[Header(ZERO_WORD, 1)]),
    ])
}

fn put_sizes(w: &mut [u32], lists: u32, levels: u32, room: u32) {
    put_word(w, LISTS_WORD, lists);
    put_word(w, LEVELS_WORD, levels);
    put_word(w, ROOM_WORD, room);
}

fn put_free(w: &mut [u32], first: u32, count: u32) {
    put_word(w, FIRST_FREE_WORD, first);
    put_word(w, FREE_WORD, count);
}

// A head becomes a free slot, or a free slot a head.
pub fn lists<R: Print>(line: &mut Line<'_, R>) {
    let mut w = [0; 20];
    let _ = setup::set_up(&mut w, 1, 1, 1);
    put_sizes(&mut w, 0, 1, 2);
    put_front(&mut w, arena::base_of(1, Slot(0)), 0, NONE, 1, 0);
    put_free(&mut w, 0, 2);
    line.tell("no lists", &w);
    let mut w = [0; 116];
    let _ = setup::set_up(&mut w, 16, 1, 2);
    put_sizes(&mut w, 17, 1, 1);
    put_front(&mut w, arena::base_of(1, Slot(16)), 0, 1, NONE, NONE);
    put_free(&mut w, 17, 1);
    line.tell("17 lists", &w)
}

pub fn nodes<R: Print>(line: &mut Line<'_, R>) {
    let mut w = [0; 20];
    let _ = setup::set_up(&mut w, 1, 1, 1);
    put_sizes(&mut w, 2, 1, 0);
    put_front(&mut w, arena::base_of(1, Slot(1)), 0, 1, NONE, NONE);
    put_free(&mut w, NONE, 0);
    line.tell("no nodes", &w);
    most_nodes(line)
}

fn most_nodes<R: Print>(line: &mut Line<'_, R>) {
    let mut w = [0; 393230];
    let _ = setup::set_up(&mut w, 2, 1, 65535);
    put_sizes(&mut w, 1, 1, 65536);
    put_front(&mut w, arena::base_of(1, Slot(1)), 0, NONE, 2, 0);
    put_free(&mut w, 1, 65536);
    line.tell("65536 nodes", &w)
}

fn put_mark(w: &mut [u32]) {
    put_word(w, MARK_WORD, arena::MARK);
    put_word(w, VERSION_WORD, arena::VERSION);
}

// Set-up makes no such records: one list and two nodes of no levels, and one list and one node of 17.
pub fn levels<R: Print>(line: &mut Line<'_, R>) {
    let mut w = [0; 20];
    put_mark(&mut w);
    put_sizes(&mut w, 1, 0, 2);
    put_free(&mut w, 1, 2);
    put_front(&mut w, arena::base_of(0, Slot(0)), 0, 0, NONE, NONE);
    put_front(&mut w, arena::base_of(0, Slot(1)), 0, NONE, 2, 0);
    put_front(&mut w, arena::base_of(0, Slot(2)), 0, NONE, NONE, 0);
    line.tell("no levels", &w);
    most_levels(line)
}

fn most_levels<R: Print>(line: &mut Line<'_, R>) {
    let mut w = [0; 84];
    put_mark(&mut w);
    put_sizes(&mut w, 1, 17, 1);
    put_free(&mut w, 1, 1);
    put_front(&mut w, arena::HEADER, 0, 17, NONE, NONE);
    put_absent(&mut w, arena::HEADER);
    put_front(&mut w, arena::HEADER + WIDE, 0, NONE, NONE, 0);
    put_absent(&mut w, arena::HEADER + WIDE);
    line.tell("17 levels", &w)
}

// All 17 links of a record are absent; their distances are 0 already.
fn put_absent(w: &mut [u32], base: usize) {
    for l in 0..17 {
        put_in(w, base, TO + LINK * l, NONE);
    }
}

// Each header here has its words in their ranges and fits the length, 38 words, before and after: 1 3 2 and 3 1 2, 1 3 2 and 2 3 1, 2 3 1 and
// 2 1 3. It is then the header of another arena, so the clause cannot be parted from those of the records, which have the forms of the first.
pub fn exchanges<R: Print>(line: &mut Line<'_, R>) {
    exchanged(line, "L and M exchanged", LISTS_WORD, LEVELS_WORD, 1, 2);
    exchanged(line, "L and C exchanged", LISTS_WORD, ROOM_WORD, 1, 2);
    exchanged(line, "M and C exchanged", LEVELS_WORD, ROOM_WORD, 2, 1)
}

fn exchanged<R: Print>(
    line: &mut Line<'_, R>,
    what: &str,
    i: usize,
    j: usize,
    lists: u32,
    room: u32,
) {
    let mut w = [0; 38];
    let _ = setup::set_up(&mut w, lists, 3, room);
    if i < w.len() && j < w.len() {
        w.swap(i, j);
    }
    line.tell(what, &w)
}
