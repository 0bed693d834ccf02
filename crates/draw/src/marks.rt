// What both forms print: counts in words.
ghost use Rattle.model.specs.Passes.{Passes};

use arena::List;
use std::fmt;

// `n thing`, or `n things`; `no things` if there are none.
#[derive(Clone, Copy)]
pub struct Counted<'a>(pub u32, pub &'a str);

// `list 0: 4 keys`.
#[derive(Clone, Copy)]
pub struct Heading<'a>(pub List<'a>);

// How many keys are left out.
#[derive(Clone, Copy)]
pub struct LeftOut(pub u32);

// `free slots: 1 of 4`.
#[derive(Clone, Copy)]
pub struct Free {
    free: u32,
    room: u32,
}

impl Free {
    pub fn of(w: &[u32]) -> Free
        requires { Passes w.now }
    {
        Free {
            free: arena::header(w, arena::FREE_WORD),
            room: arena::header(w, arena::ROOM_WORD),
        }
    }
}

impl fmt::Display for Counted<'_> {
    fn fmt<W: fmt::Write>(&self, f: &mut fmt::Formatter<W>) -> fmt::Result {
        let Counted(n, thing) = *self;
        match n {
            0 => write!(f, "no {thing}s"),
            1 => write!(f, "1 {thing}"),
            _ => write!(f, "{n} {thing}s"),
        }
    }
}

impl fmt::Display for Heading<'_> {
    fn fmt<W: fmt::Write>(&self, f: &mut fmt::Formatter<W>) -> fmt::Result {
        let list = self.0;
        let head = list.head.0;
        let keys = Counted(rank_walk::length(list), "key");
        write!(f, "list {head}: {keys}")
    }
}

impl fmt::Display for LeftOut {
    fn fmt<W: fmt::Write>(&self, f: &mut fmt::Formatter<W>) -> fmt::Result {
        let keys = Counted(self.0, "key");
        write!(f, "{keys} more, not drawn")
    }
}

impl fmt::Display for Free {
    fn fmt<W: fmt::Write>(&self, f: &mut fmt::Formatter<W>) -> fmt::Result {
        let free = self.free;
        let room = self.room;
        write!(f, "free slots: {free} of {room}")
    }
}
