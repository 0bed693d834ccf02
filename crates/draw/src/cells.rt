// A row of text and the pieces that it is made of.
ghost use Rattle.std.specs.Prelude.{◌≤◌, ◌<◌};

use arrayvec::ArrayString;
use std::fmt::Write;

// The digits of a distance, and those of a label: a key, an index or a slot.
#[derive(Clone, Copy)]
pub struct Widths {
    pub far: usize,
    pub label: usize,
    pub ghost narrow_far: { far ≤ 10 },
    pub ghost narrow_label: { label ≤ 10 },
}

// A row that is being made: 76 bytes at most, so that no piece is refused. In fixed memory, since the project uses no heap.
#[derive(Clone, Copy)]
pub struct Row {
    text: ArrayString<96>,
    widths: Widths,
}

pub fn digits(n: u32) -> usize
    ensures { result ≤ 10 }
{
    n.checked_ilog10().map_or(1, |k| k as usize + 1)
}

impl Row {
    // A row's name takes nine columns, what stands before the first node five more.
    pub fn new(widths: Widths, name: &str) -> Row {
        let mut text = ArrayString::new();
        let _ = write!(text, "{name:<9}");
        Row { text, widths }
    }

    pub fn of_level(widths: Widths, l: usize) -> Row {
        let mut text = ArrayString::new();
        let _ = write!(text, "level {l:<3}");
        Row { text, widths }
    }

    fn put(&mut self, what: &str) {
        let _ = write!(self.text, "{what}");
    }

    // The slot of the head.
    pub fn slot(&mut self, n: u32) {
        let _ = write!(self.text, "{n:<5}");
    }

    // A link of so many columns, or nothing.
    fn line(&mut self, width: usize, goes: bool) {
        let _ = if goes {
            write!(self.text, "{:-<width$}", "")
        } else {
            write!(self.text, "{:width$}", "")
        };
    }

    // What stands before the first node of a block: the head, a link that comes from another block, or nothing.
    pub fn lead(&mut self, at_head: bool, goes: bool) {
        self.put(match (at_head, goes) {
            (true, _) => "head ",
            (false, true) => "  ..-",
            (false, false) => "     ",
        });
    }

    // A number where a node stands, with the beginning of the link that leaves it.
    pub fn label(&mut self, n: u32, goes: bool) {
        let _ = write!(self.text, "{n} ");
        self.line(self.widths.label.saturating_sub(digits(n)), goes);
    }

    // The end of a link of a distance.
    pub fn arrow(&mut self, far: u32) {
        let width = self.widths.far;
        let _ = write!(self.text, "-{far:->width$}> ");
    }

    // The end of a link that has no distance.
    pub fn step(&mut self) {
        self.line(self.widths.far + 1, true);
        self.put("> ");
    }

    pub fn gap(&mut self) {
        self.line(self.widths.far + 3, false);
    }

    // Past a node that does not stand on this level.
    pub fn past(&mut self, goes: bool) {
        self.line(self.widths.far + self.widths.label + 4, goes);
    }

    // The end of a row: a link that goes on is seen to, and spaces are not printed.
    pub fn end(&self, out: &impl Print, goes: bool) {
        let _ = if goes {
            println!(out; "{}--..", self.text)
        } else {
            println!(out; "{}", self.text.as_str().trim_end_matches(' '))
        };
    }
}
