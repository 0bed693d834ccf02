// An arena as text: each list in blocks of at most 80 columns, a row for each level with the distance of each link, the row of next, and below
// them the indexes and the slots. A link that leaves a block ends in dots, and begins with dots where it comes into the next.
ghost use Rattle.std.specs.Prelude.{◌≡◌, ◌≤◌, ◌<◌, length};
ghost use Rattle.model.specs.Passes.{Passes};
ghost use Rattle.arena.specs.Owners.{Leads};
ghost use Rattle.arena.specs.Held.{nodes_of};
ghost use Rattle.draw.specs.Holds.{Holds};

use super::blocks::{Block, Blocks, Held, Lists, left_out, slots};
use super::cells::{Row, Widths, digits};
use super::marks::{Free, Heading, LeftOut};
use arena::{Index, List, Path};

// What is left of 80 columns for the nodes; a row's name, the head and its end take the others.
const ROOM: u32 = 62;

// The nodes of a block, at most: each takes four columns at least.
const NODES: u32 = ROOM / 4;

type Part<'a> = Block<'a, { NODES }>;

// The rows below the levels. No closures: a row's lead, its cells and its end differ, and three of them for each row would say no more.
#[derive(Clone, Copy)]
pub enum Foot {
    Next,
    Indexes,
    Slots,
}

// A level's cell at an index, between the links held before it and behind it.
fn level_cell(row: &mut Row, arrived: bool, before: Held, behind: Held, key: u32) {
    if arrived {
        row.arrow(before.far);
        row.label(key, behind.goes_on());
    } else {
        row.past(before.goes_on());
    }
}

fn level(out: &impl Print, b: Part<'_>, d: Widths, l: usize, held: Held)
    requires { (l < b.list.levels) × Holds b.list.words.now b.list.head.0 l b.first held }
{
    let mut row = Row::of_level(d, l);
    row.lead(b.at_head(), held.goes_on());
    let mut before = held;
    for i in b.first..b.past {
        let behind = before.behind(b.list, i, l);
        let key = rank_walk::read(b.list, Index(i));
        level_cell(&mut row, before.arrives(i), before, behind, key);
        before = behind;
    }
    row.end(out, before.goes_on());
}

// From the highest level down to 0.
fn levels(out: &impl Print, b: Part<'_>, d: Widths, path: Path)
    requires { Leads b.list.words.now b.list.levels b.list.head.0 b.first path }
{
    for l in (0..b.list.levels).rev() {
        level(out, b, d, l, Held::before(b.list, b.first, path, l));
    }
}

fn foot_lead(b: Part<'_>, d: Widths, foot: Foot) -> Row {
    let mut row = Row::new(
        d,
        match foot {
            Foot::Next => "next",
            Foot::Indexes => "index",
            Foot::Slots => "slot",
        },
    );
    match foot {
        Foot::Next => row.lead(b.at_head(), true),
        Foot::Slots if b.at_head() => row.slot(b.list.head.0),
        _ => row.lead(false, false),
    }
    row
}

#[tactic(auto, using(crate::proofs::Drawing::few_keys))]
fn foot_cell(row: &mut Row, b: Part<'_>, foot: Foot, i: u32)
    requires { i < length (nodes_of b.list) }
{
    match foot {
        Foot::Next => {
            row.step();
            row.label(
                rank_walk::read(b.list, Index(i)),
                i + 1 < rank_walk::length(b.list),
            );
        }
        Foot::Indexes => {
            row.gap();
            row.label(i, false);
        }
        Foot::Slots => {
            row.gap();
            row.label(rank_walk::at(b.list, Index(i)).0, false);
        }
    }
}

fn foot_row(out: &impl Print, b: Part<'_>, d: Widths, foot: Foot) {
    let mut row = foot_lead(b, d, foot);
    for i in b.first..b.past {
        foot_cell(&mut row, b, foot, i);
    }
    row.end(out, matches!(foot, Foot::Next) && b.goes_on());
}

fn block(out: &impl Print, b: Part<'_>, d: Widths) {
    if !b.at_head() {
        let _ = println!(out);
    }
    levels(out, b, d, rank_walk::seek(b.list, Index(b.first)));
    foot_row(out, b, d, Foot::Next);
    foot_row(out, b, d, Foot::Indexes);
    foot_row(out, b, d, Foot::Slots);
}

fn widest(list: List) -> Widths
    requires { 0 < length (nodes_of list) }
{
    let n = rank_walk::length(list);
    Widths {
        far: digits(n),
        label: digits(rank_walk::read(list, Index(n - 1))).max(digits(slots(list))),
    }
}

// The blocks of a list that has keys, one at least.
fn cut(out: &impl Print, list: List, d: Widths) {
    let room = ROOM / (d.far + d.label + 4) as u32;
    for b in Blocks::of(list, room) {
        block(out, b, d);
    }
    let more = left_out(list, room);
    if 0 < more {
        let _ = println!(out; "{}", LeftOut(more));
    }
}

fn list(out: &impl Print, list: List) {
    let _ = println!(out; "{}", Heading(list));
    if 0 < rank_walk::length(list) {
        cut(out, list, widest(list));
    }
    let _ = println!(out);
}

pub fn arena(out: &impl Print, w: &[u32])
    requires { Passes w.now }
{
    for one in Lists::of(w) {
        list(out, one);
    }
    let _ = println!(out; "{}", Free::of(w));
}
