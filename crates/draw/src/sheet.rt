// An arena as SVG: its lists one below the other, each cut into blocks.
ghost use Rattle.std.specs.Prelude.{◌≤◌};
ghost use Rattle.model.specs.Passes.{Passes};

use super::blocks::{BLOCKS, Blocks, Lists, left_out};
use super::boxes::ROOM;
use super::marks::{Free, Heading, LeftOut};
use super::{boxes, svg};
use arena::List;

// The height of a line of words.
const WORDS: u32 = 32;

// How many columns the picture has behind the head's, and how high it is.
#[derive(Clone, Copy)]
pub struct Size {
    pub columns: u32,
    pub height: u32,
}

// Of a block.
fn block_height(list: List) -> u32
    ensures { result ≤ 560 }
{
    svg::ROW * (list.levels as u32 + 3) + 16
}

// Of the line that says how many keys are left out.
fn tail_height(list: List) -> u32
    ensures { result ≤ 32 }
{
    if 0 < left_out(list, ROOM) { WORDS } else { 0 }
}

fn list_size(list: List) -> Size
    ensures { (result.columns ≤ 10) × (result.height ≤ 9024) }
{
    let n = rank_walk::length(list);
    let blocks = n.div_ceil(ROOM).min(BLOCKS);
    Size {
        columns: n.min(ROOM),
        height: WORDS + blocks * block_height(list) + tail_height(list),
    }
}

// Of all lists.
fn whole_size(w: &[u32]) -> Size
    requires { Passes w.now }
    ensures { (result.columns ≤ 10) × (result.height ≤ 144384) }
{
    let mut columns = 0;
    let mut height = 0;
    for list in Lists::of(w) {
        let one = list_size(list);
        columns = one.columns.max(columns);
        height += one.height;
    }
    Size { columns, height }
}

// The blocks of a list from a height on.
#[tactic(auto, using(crate::proofs::Drawing::few_keys))]
fn cut(out: &impl Print, list: List, top: u32)
    requires { top ≤ 200000 }
{
    let h = block_height(list);
    for b in Blocks::of(list, ROOM) {
        boxes::block(out, b, top + b.first / ROOM * h);
    }
    let more = left_out(list, ROOM);
    if 0 < more {
        svg::words(out, top + BLOCKS * h, LeftOut(more));
    }
}

fn list(out: &impl Print, list: List, y: u32)
    requires { y ≤ 150000 }
{
    svg::words(out, y, Heading(list));
    cut(out, list, y + WORDS);
}

pub fn arena(out: &impl Print, w: &[u32])
    requires { Passes w.now }
{
    let whole = whole_size(w);
    svg::open(out, whole.columns, whole.height + WORDS);
    let mut y = 0;
    for one in Lists::of(w) {
        list(out, one, y);
        y += list_size(one).height;
    }
    svg::words(out, y, Free::of(w));
    svg::close(out);
}
