// Keys: what one is, how it is read, and their order, each in this one place.
ghost use Rattle.std.specs.Prelude.{◌≡◌, ◌+◌, ◌<◌, length, get_or};
ghost use Rattle.model.specs.Arena.{key_column};
ghost use Rattle.model.specs.Cells.{Cell, cell_at};
ghost use Rattle.arena.specs.Decides.{Decides};

use crate::Slot;
use crate::layout::KEY;
use crate::words::cell;

// "Keys are u32, every value allowed".
pub type Key = u32;

// The key of the record that begins at word `base`; of the node in slot s.
pub fn key_in(w: &[u32], base: usize) -> Key
    requires { base + key_column < length w.now }
    ensures { result ≡ get_or w.now (base + key_column) 0 }
{
    w[base + KEY]
}

pub fn key_at(w: &[u32], m: usize, s: Slot) -> Key
    requires { Cell w.now m s.0 key_column }
    ensures { result ≡ cell_at m w.now s.0 key_column }
{
    cell(w, m, s, KEY)
}

// Not `<` and `==` at the callers: the order of keys stands here alone (docs/STRUCTURE.md, `arena`).
pub fn below(a: Key, b: Key) -> bool
    ensures { Decides result (a < b) }
{
    a < b
}

pub fn same(a: Key, b: Key) -> bool
    ensures { Decides result (a ≡ b) }
{
    a == b
}
