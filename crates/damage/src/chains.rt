// The clauses of the chains: their lengths and ends, the last nodes, the keys, each node slot once, the free chain. Where the other clauses need
// it, more words than one are changed.
use super::arenas::Change::{Full, Header, Link, Lost, Shared, Word};
use super::arenas::{NONE, PAST};
use super::telling::{Clause, Line};
use arena::{COUNT, FIRST_FREE_WORD, FREE_WORD, HEIGHT, KEY, LAST, NEXT};

// The numbers of free slots and of nodes don't add up to C, but for the exchanged lengths.
pub fn steps<R: Print>(line: &mut Line<'_, R>) {
    line.begin(Clause::Chain);
    line.tell_each(&[
        ("list 0 says 5 and has 4 nodes", &[Word(0, COUNT, 5)]),
        ("list 0 says 3 and has 4 nodes", &[Word(0, COUNT, 3)]),
        (
            "the lengths of lists 0 and 1 exchanged, so that the counts add up to C",
            &[Word(0, COUNT, 2), Word(1, COUNT, 4)],
        ),
        ("list 0 goes round in slot 6", &[Word(6, NEXT, 6)]),
        ("list 0 goes on past the slots", &[Word(6, NEXT, PAST)]),
        (
            "list 2, which is empty, begins past the slots",
            &[Word(2, NEXT, PAST)],
        ),
    ]);
    through_head(line)
}

// Head 2 stands last in list 1, where its length 0 is read as a key and its M as a height: keys and links are as these need.
fn through_head<R: Print>(line: &mut Line<'_, R>) {
    line.tell_each(&[(
        "list 1 goes on to head 2",
        &[
            Word(1, COUNT, 3),
            Word(1, LAST, 2),
            Word(4, KEY, 0),
            Word(10, KEY, 0),
            Word(10, NEXT, 2),
            Link(1, 1, 2, 3),
            Link(10, 0, 2, 1),
        ],
    )])
}

pub fn last_nodes<R: Print>(line: &mut Line<'_, R>) {
    line.begin(Clause::LastNode);
    line.tell_each(&[
        (
            "list 0 names slot 8, which comes before",
            &[Word(0, LAST, 8)],
        ),
        ("list 1 names slot 6, of list 0", &[Word(1, LAST, 6)]),
        ("list 0 names none", &[Word(0, LAST, NONE)]),
        ("list 2, which is empty, names slot 6", &[Word(2, LAST, 6)]),
    ])
}

pub fn keys<R: Print>(line: &mut Line<'_, R>) {
    line.begin(Clause::Keys);
    line.tell_each(&[
        ("9 in slot 3, after 10", &[Word(3, KEY, 9)]),
        ("19 in slot 8, after 20", &[Word(8, KEY, 19)]),
        ("0 in slot 6, after 20", &[Word(6, KEY, 0)]),
    ])
}

pub fn each_slot<R: Print>(line: &mut Line<'_, R>) {
    line.begin(Clause::EachSlot);
    line.tell_each(&[
        ("slot 6 is in lists 0 and 2", &[Shared]),
        (
            "slot 6 is in lists 0 and 2, slot 11 in none, so that the counts add up to C",
            &[Shared, Lost],
        ),
    ]);
    lost(line)
}

// A slot that is in no list and not free has no column, so either form will do. Its number is missing: where all chains and counts are right and add
// up to C no slot can be lost. No record has the forms of both columns, so in the last case that clause breaks with this one.
fn lost<R: Print>(line: &mut Line<'_, R>) {
    line.tell_each(&[
        (
            "slot 11 is in no list and not free, in a free node's form",
            &[Lost],
        ),
        (
            "slot 11 is in no list and not free, in the form of a node in a list",
            &[Lost, Word(11, KEY, 15), Word(11, HEIGHT, 0)],
        ),
        (
            "slot 10 is in list 1 and free, slot 11 in none, so that the counts add up to C",
            &[Word(7, NEXT, 10)],
        ),
    ])
}

pub fn free_chain<R: Print>(line: &mut Line<'_, R>) {
    line.begin(Clause::FreeChain);
    line.tell_each(&[
        ("2 stated, 3 on it", &[Header(FREE_WORD, 2)]),
        ("4 stated, 3 on it", &[Header(FREE_WORD, 4)]),
        ("0 stated, 3 on it", &[Header(FREE_WORD, 0)]),
        ("goes round from slot 11 to slot 9", &[Word(11, NEXT, 9)]),
        ("goes on past the slots", &[Word(11, NEXT, PAST)]),
        (
            "4 stated, the fourth is head 2",
            &[Word(11, NEXT, 2), Header(FREE_WORD, 4)],
        ),
        ("1 stated, none on it", &[Full, Header(FREE_WORD, 1)]),
        (
            "0 stated, begins past the slots",
            &[Full, Header(FIRST_FREE_WORD, PAST)],
        ),
    ])
}
