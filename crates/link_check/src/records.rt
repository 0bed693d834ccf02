// The records of words that have an arena's length: words, keys and links by slot, and the forms that records share.
ghost use Rattle.std.specs.Prelude.{◌≡◌, ◌+◌, ◌≤◌, ◌<◌};
ghost use Rattle.model.specs.Arena.{width};
ghost use Rattle.model.specs.Cells.{cell_at, link_at};
ghost use Rattle.model.specs.Passes.{Absent};
ghost use Rattle.arena.specs.Decides.{Decides};
ghost use Rattle.arena.specs.Linked.{words_of};
ghost use Rattle.link_check.specs.Shape.{Shape, NodeSlot, key_in};
ghost use Rattle.link_check.specs.LevelLinks.{AbsentFrom};

use super::Dims;
use arena::{Key, Link, Slot};

// Words of the length that the numbers say.
#[derive(Clone, Copy)]
pub struct Records<'a> {
    pub words: &'a [u32],
    pub dims: Dims,
    pub ghost shape: { Shape words.now dims },
}

impl Records<'_> {
    // The word in column c of slot s.
    pub fn cell(self, s: Slot, c: usize) -> u32
        requires s_bound { s.0 < self.dims.lists + self.dims.room }
        requires c_bound { c < width self.dims.levels }
        ensures { result ≡ cell_at self.entry.dims.levels self.entry.words.now s.0 c }
    {
        arena::cell(self.words, self.dims.levels, s, c)
    }

    // The key of slot s.
    pub fn key(self, s: Slot) -> Key
        requires { s.0 < self.dims.lists + self.dims.room }
        ensures { result ≡ key_in self.entry.words.now self.entry.dims s.0 }
    {
        arena::key_at(self.words, self.dims.levels, s)
    }

    // The link of level l of slot s.
    pub fn link(self, s: Slot, l: usize) -> Link
        requires s_bound { s.0 < self.dims.lists + self.dims.room }
        requires l_lt_levels { l < self.dims.levels }
        ensures { words_of result ≡ link_at self.entry.dims.levels self.entry.words.now s.0 l }
    {
        arena::link_at(self.words, self.dims.levels, s, l)
    }

    // Whether that link is absent.
    pub fn link_absent(self, s: Slot, l: usize) -> bool
        requires s_bound { s.0 < self.dims.lists + self.dims.room }
        requires l_lt_levels { l < self.dims.levels }
        ensures { Decides result (Absent self.entry.dims.levels self.entry.words.now s.0 l) }
    {
        self.link(s, l).is_absent()
    }

    // Whether s is a node's slot.
    pub fn is_node_slot(self, s: Slot) -> bool
        ensures { Decides result (NodeSlot self.entry.dims s.0) }
    {
        self.dims.lists <= s.0 && s.0 < self.dims.lists + self.dims.room
    }

    // Whether the links of slot s from level h on are absent. The tests of links are `for` loops, since `all` takes more instructions.
    pub fn absent_from(self, s: Slot, h: usize) -> bool
        requires s_bound { s.0 < self.dims.lists + self.dims.room }
        ensures { Decides result (AbsentFrom self.entry.words.now self.entry.dims s.0 h) }
    {
        for l in h..self.dims.levels {
            if !self.link_absent(s, l) {
                return false;
            }
        }
        true
    }
}
