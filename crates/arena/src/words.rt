// The words of an arena, read and stored: by place, by slot and column, and the header's.
ghost use Rattle.std.specs.Prelude.{◌≡◌, cond, ◌≤◌, ◌<◌, eqb, length, get_or, set};
ghost use Rattle.model.specs.Nodes.{N};
ghost use Rattle.model.specs.Arena.{header_words};
ghost use Rattle.model.specs.Cells.{Cell, cell_at, put_at};

use crate::Slot;
use crate::layout::base_of;

pub fn word(w: &[u32], at: usize) -> u32
    requires { at < length w.now }
    ensures { result ≡ get_or w.now at 0 }
{
    w[at]
}

// The word in column c of slot s.
pub fn cell(w: &[u32], m: usize, s: Slot, c: usize) -> u32
    requires { Cell w.now m s.0 c }
    ensures { result ≡ cell_at m w.now s.0 c }
{
    w[base_of(m, s) + c]
}

pub fn put(w: &mut [u32], m: usize, s: Slot, c: usize, v: u32)
    requires { Cell w.old m s.0 c }
    ensures { w.new ≡ put_at m w.old s.0 c v }
{
    w[base_of(m, s) + c] = v;
}

// Two words of one column.
pub fn put2(w: &mut [u32], m: usize, c: usize, x: Slot, v: u32, y: Slot, u: u32)
    requires { Cell w.old m x.0 c × Cell w.old m y.0 c }
    ensures { w.new ≡ put_at m (put_at m w.old x.0 c v) y.0 c u }
{
    put(w, m, x, c, v);
    put(w, m, y, c, u);
}

// The last node of a list of n nodes, of which `slot` is the last if there is one.
pub fn last_slot(n: u32, slot: Slot) -> Slot
    ensures { result.0 ≡ cond (eqb n 0) N slot.0 }
{
    if n == 0 { Slot::NONE } else { slot }
}

// Word i of the header.
pub fn header(w: &[u32], i: usize) -> u32
    requires { (i < header_words) × (header_words ≤ length w.now) }
    ensures { result ≡ get_or w.now i 0 }
{
    w[i]
}

pub fn put_header(w: &mut [u32], i: usize, v: u32)
    requires { (i < header_words) × (header_words ≤ length w.old) }
    ensures { w.new ≡ set w.old i v }
{
    w[i] = v;
}
