// A list of an arena that passes the check, to be read: the words, their number of levels, and the list's head.
ghost use Rattle.std.specs.Prelude.{◌≡◌};
ghost use Rattle.arena.specs.Owners.{Listed};
ghost use Rattle.arena.specs.ListedOnce.{listed_prop};

use crate::Slot;

#[derive(Clone, Copy)]
pub struct List<'a> {
    pub words: &'a [u32],
    pub levels: usize,
    pub head: Slot,
    pub ghost listed: { Listed words.now levels head.0 } by { listed_prop words.now levels head.0 },
}

impl<'a> List<'a> {
    ghost use Rattle.model.specs.Passes.{nodes};
    ghost use Rattle.arena.specs.Held.{nodes_of};

    pub fn new(words: &'a [u32], levels: usize, head: Slot) -> List<'a>
        requires { Listed words.now levels head.0 }
        ensures words { result.words.now ≡ words.now }
        ensures levels { result.levels ≡ levels }
        ensures head { result.head ≡ head }
        ensures nodes { nodes_of result ≡ nodes words.now head.0 }
    {
        List {
            words,
            levels,
            head,
        }
    }
}
