// A block of a list as SVG: a node as a box as high as its levels, with its key, and below it index and slot; each link as an arrow
// with its distance. A link that leaves a block ends at its edge without a head, and comes from the edge of the next.
ghost use Rattle.std.specs.Prelude.{◌+◌, ◌≤◌, ◌<◌};
ghost use Rattle.arena.specs.Owners.{Leads};
ghost use Rattle.draw.specs.Holds.{Holds};

use super::blocks::{Block, Held, height_at};
use super::svg;
use arena::{Index, Path};

// The nodes of a block, at most.
pub const ROOM: u32 = 10;

type Part<'a> = Block<'a, { ROOM }>;

// The column of a rank in a block: 0 is the head's, and that of what stands before the block.
fn column(b: Part<'_>, rank: u32) -> u32
    requires { rank ≤ b.first + 10 }
    ensures { result ≤ 10 }
{
    rank.saturating_sub(b.first)
}

// The link that is held before index i, if it ends there.
fn link(out: &impl Print, b: Part<'_>, held: Held, arrived: bool, i: u32, row: u32)
    requires { (held.from ≤ i) × (i < b.first + 10) × (i < 4294967295) × (row ≤ 16) }
{
    if arrived {
        svg::arrow(out, column(b, held.from), column(b, i + 1), row);
        svg::distance(out, column(b, i + 1), row, held.far);
    }
}

// The arrows of a level.
fn level(out: &impl Print, b: Part<'_>, l: usize, held: Held)
    requires { (l < b.list.levels) × Holds b.list.words.now b.list.head.0 l b.first held }
{
    let row = (b.list.levels - 1 - l) as u32;
    svg::name(out, row, format_args!("level {l}"));
    let mut before = held;
    for i in b.first..b.past {
        let behind = before.behind(b.list, i, l);
        link(out, b, before, before.arrives(i), i, row);
        before = behind;
    }
    if before.goes_on() {
        svg::leaves(out, column(b, before.from), column(b, b.past), row);
    }
}

// The loops of `rows`: a closure for what is drawn there would have to ask `Holds` of its argument, in more words than a loop has.
fn levels(out: &impl Print, b: Part<'_>, path: Path)
    requires { Leads b.list.words.now b.list.levels b.list.head.0 b.first path }
{
    for l in (0..b.list.levels).rev() {
        level(out, b, l, Held::before(b.list, b.first, path, l));
    }
}

// A node's box, from the row of its highest level down to that of the keys, with its numbers.
fn node(out: &impl Print, b: Part<'_>, i: u32)
    requires { (b.first ≤ i) × (i < b.past) }
{
    let keys = b.list.levels as u32;
    let top = (b.list.levels - height_at(b.list, i)) as u32;
    let c = column(b, i + 1);
    svg::tower(out, c, top, keys);
    svg::label(out, c, keys, rank_walk::read(b.list, Index(i)));
    svg::label(out, c, keys + 1, i);
    svg::label(out, c, keys + 2, rank_walk::at(b.list, Index(i)).0);
}

// The links of the row of keys: from each node to the next.
fn next(out: &impl Print, b: Part<'_>, row: u32)
    requires { row ≤ 16 }
{
    for i in b.first..b.past {
        svg::arrow(out, column(b, i), column(b, i + 1), row);
    }
    if b.goes_on() {
        svg::leaves(out, column(b, b.past), column(b, b.past), row);
    }
}

pub fn block(out: &impl Print, b: Part<'_>, y: u32) {
    svg::open_group(out, y);
    let keys = b.list.levels as u32;
    if b.at_head() {
        svg::head(out, keys);
        svg::label(out, 0, keys + 2, b.list.head.0);
    }
    for i in b.first..b.past {
        node(out, b, i);
    }
    levels(out, b, rank_walk::seek(b.list, Index(b.first)));
    next(out, b, keys);
    svg::name(out, keys, "next");
    svg::name(out, keys + 1, "index");
    svg::name(out, keys + 2, "slot");
    svg::close_group(out);
}
