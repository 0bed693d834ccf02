// The answer lines. An output that is closed stops no call.
use arrayvec::ArrayString;
use numbers::{Numbered, Numbers, Valued};
use ska::{SearchError, Searched};
use std::fmt::{self, Write};

pub fn check(out: &impl Print, yes: bool) {
    let _ = println!(out; "{}", numbers::of_check(yes));
}

// A call that answers nothing more answers its number alone.
pub fn plain<E: Numbered>(out: &impl Print, a: Result<(), E>) {
    let Valued { number, .. } = Valued::from(a);
    let _ = println!(out; "{number}");
}

pub fn valued<T: Copy + Default + fmt::Display, E: Numbered>(out: &impl Print, a: Result<T, E>) {
    let Valued { number, value } = Valued::from(a);
    let _ = println!(out; "{number} {value}");
}

pub fn search(out: &impl Print, a: Result<Searched, SearchError>) {
    let Numbers {
        number,
        found,
        place,
        tally,
    } = Numbers::from(a);
    let _ = println!(out; "{number} {found} {place} {tally}");
}

// All words on one line, which is written as it grows: a piece that cannot be written stops none behind it.
pub fn dump(out: &impl Print, words: &[u32]) {
    let mut piece = ArrayString::<96>::new();
    for (i, word) in words.iter().enumerate() {
        if piece.len() > 64 {
            let _ = print!(out; "{piece}");
            piece.clear();
        }
        if i > 0 {
            let _ = write!(piece, " ");
        }
        let _ = write!(piece, "{word}");
    }
    let _ = println!(out; "{piece}");
}
