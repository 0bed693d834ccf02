// The arena that is broken, made by set-up and by arena's named columns, and the changes that break it. Stores outside the words do nothing.
ghost use Rattle.std.specs.Prelude.{◌≡◌, length};

use arena::{COUNT, FAR, FIRST_FREE_WORD, FREE_WORD, HEIGHT, KEY, LAST, LINK, NEXT, Slot, TO};

// The sample has L = 3, M = 2 and C = 9, all different, so that no two words of its header can be exchanged unseen.
pub const WORDS: usize = 104;

const LEVELS: usize = 2;

// The words of a record.
pub const WIDTH: usize = 8;

// The first number that is no slot of the sample.
pub const PAST: u32 = 12;

pub const NONE: u32 = Slot::NONE.0;

// A change of the sample.
#[derive(Clone, Copy)]
pub enum Change {
    // A word of the header, and its value.
    Header(usize, u32),
    // A slot, the column of its word, and the value.
    Word(u32, usize, u32),
    // A slot, the level of its link, the target and the distance.
    Link(u32, usize, u32, u32),
    // The end of list 0 becomes list 2.
    Shared,
    // The last free slot, 11, is left out of the chain and its number.
    Lost,
    // The free slots become nodes of list 2, with keys and heights 0.
    Full,
}

impl Change {
    fn make(self, w: &mut [u32]) {
        match self {
            Change::Header(i, v) => put_word(w, i, v),
            Change::Word(s, c, v) => put(w, s, c, v),
            Change::Link(s, l, target, distance) => put_link(w, s, l, target, distance),
            Change::Shared => share(w),
            Change::Lost => lose(w),
            Change::Full => fill(w),
        }
    }
}

pub fn put_word(w: &mut [u32], i: usize, v: u32) {
    if let Some(word) = w.get_mut(i) {
        *word = v;
    }
}

// Stores word c of the record that begins at word `base`.
pub fn put_in(w: &mut [u32], base: usize, c: usize, v: u32) {
    put_word(w, base.saturating_add(c), v);
}

// Stores the words of a record before its links: those of a head, or of a node.
pub fn put_front(w: &mut [u32], base: usize, count: u32, height: u32, next: u32, last: u32) {
    put_in(w, base, COUNT, count);
    put_in(w, base, HEIGHT, height);
    put_in(w, base, NEXT, next);
    put_in(w, base, LAST, last);
}

// Of the sample: where slot s begins; a word of slot s, and a link.
fn at(s: u32) -> usize {
    arena::base_of(LEVELS, Slot(s))
}

fn put(w: &mut [u32], s: u32, c: usize, v: u32) {
    put_in(w, at(s), c, v);
}

fn put_link(w: &mut [u32], s: u32, l: usize, target: u32, distance: u32) {
    if l < LEVELS {
        put(w, s, TO + LINK * l, target);
        put(w, s, FAR + LINK * l, distance);
    }
}

// The keys 10, 20, 20, 30 at the heights 1, 0, 2, 1.
fn first_list(w: &mut [u32]) {
    put_front(w, at(0), 4, 2, 5, 6);
    put_front(w, at(5), 10, 1, 3, 0);
    put_front(w, at(3), 20, 0, 8, 0);
    put_front(w, at(8), 20, 2, 6, 0);
    put_front(w, at(6), 30, 1, NONE, 0);
}

fn first_links(w: &mut [u32]) {
    put_link(w, 0, 0, 5, 1);
    put_link(w, 0, 1, 8, 3);
    put_link(w, 5, 0, 8, 2);
    put_link(w, 8, 0, 6, 1);
}

// The keys 7, 9 at the heights 0, 1.
fn second_list(w: &mut [u32]) {
    put_front(w, at(1), 2, 2, 4, 10);
    put_front(w, at(4), 7, 0, 10, 0);
    put_front(w, at(10), 9, 1, NONE, 0);
    put_link(w, 1, 0, 10, 2);
}

// Three free slots: 9, 7, 11.
fn free_chain(w: &mut [u32]) {
    put_word(w, FIRST_FREE_WORD, 9);
    put_word(w, FREE_WORD, 3);
    put(w, 9, NEXT, 7);
    put(w, 7, NEXT, 11);
    put(w, 11, NEXT, NONE);
}

fn share(w: &mut [u32]) {
    put(w, 2, COUNT, 1);
    put(w, 2, NEXT, 6);
    put(w, 2, LAST, 6);
    put_link(w, 2, 0, 6, 1);
}

fn lose(w: &mut [u32]) {
    put(w, 7, NEXT, NONE);
    put_word(w, FREE_WORD, 2);
}

fn fill(w: &mut [u32]) {
    put_front(w, at(2), 3, 2, 9, 11);
    put(w, 9, HEIGHT, 0);
    put(w, 7, HEIGHT, 0);
    put(w, 11, HEIGHT, 0);
    put_word(w, FIRST_FREE_WORD, NONE);
    put_word(w, FREE_WORD, 0);
}

// Lists of four nodes, of two and of none.
pub fn sample() -> [u32; WORDS]
    ensures { WORDS ≡ length result }
{
    let mut w = [0; WORDS];
    let _ = setup::set_up(&mut w, 3, 2, 9);
    first_list(&mut w);
    first_links(&mut w);
    second_list(&mut w);
    free_chain(&mut w);
    w
}

pub fn changed(changes: &[Change]) -> [u32; WORDS]
    ensures { WORDS ≡ length result }
{
    let mut w = sample();
    for change in changes {
        change.make(&mut w);
    }
    w
}
