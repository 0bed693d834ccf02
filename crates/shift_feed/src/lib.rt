// Reading a shift's text in pieces: each whole line `list key` is inserted at height 0, the others are counted. Any words, any desk.
#![tactic(auto)]

ghost use Rattle.std.specs.Prelude.{◌≡◌};
ghost use Rattle.shift_feed.specs.Feeds.{empty, fed, fed_byte, end_line, ended, Goes};
ghost use Rattle.model.specs.Calls.{insert_key, Promise, CheckPromise};
ghost use Rattle.answers.specs.Told.{plain_told};

use answers::Refusal;
use arena::Slot;
use shift_line::{Line, Part, Reading};

// What is kept between two pieces: what was read of a line, and how many lines were skipped.
#[derive(Clone, Copy)]
pub struct Desk {
    pub line: Line,
    pub skipped: u64,
}

impl Desk {
    pub fn new() -> Desk
        ensures { result ≡ empty }
    {
        Desk {
            line: Line::new(),
            skipped: 0,
        }
    }
}

// A reading goes in at height 0, where `passes` is what the check says of the words.
fn insert(w: &mut [u32], passes: bool, reading: Reading) -> Result<(), Refusal>
    requires { CheckPromise w.old passes }
    ensures { Promise (insert_key reading.list reading.key 0) w.old w.new (plain_told result) }
{
    answers::passed(passes)?;
    checked_changing::insert(w, Slot(reading.list), reading.key, 0)
}

// The line has ended: it is skipped unless it is a reading that goes in.
fn take(w: &mut [u32], passes: bool, desk: Desk) -> Desk
    requires { CheckPromise w.old passes }
    ensures goes { Goes end_line desk w.old w.new result }
    ensures check_promise { CheckPromise w.new passes }
{
    let taken = Desk {
        line: Line::new(),
        ..desk
    };
    let skipped = Desk {
        skipped: desk.skipped.saturating_add(1),
        ..taken
    };
    let Some(reading) = shift_line::parse(desk.line) else {
        return skipped;
    };
    if insert(w, passes, reading).is_ok() {
        taken
    } else {
        skipped
    }
}

fn byte(w: &mut [u32], passes: bool, desk: Desk, b: u8) -> Desk
    requires { CheckPromise w.old passes }
    ensures goes { Goes (λ s. fed_byte s b) desk w.old w.new result }
    ensures check_promise { CheckPromise w.new passes }
{
    if b == b'\n' {
        return take(w, passes, desk);
    }
    Desk {
        line: shift_line::step(desk.line, b),
        ..desk
    }
}

// The next piece of the text, of any length. The arena is checked once for all its lines.
pub fn feed(w: &mut [u32], mut desk: Desk, bytes: &[u8]) -> Desk
    ensures { Goes (λ s. fed s bytes.now) desk w.old w.new result }
{
    let passes = arena_check::check(w);
    // No `for b in bytes`: the edit `lost_at_a_pieces_edge` has to leave out the first byte and nothing else.
    for i in 0..bytes.len() {
        desk = byte(w, passes, desk, bytes[i]);
    }
    desk
}

// The end of the text: the last newline may be missing.
pub fn finish(w: &mut [u32], desk: Desk) -> Desk
    ensures { Goes ended desk w.old w.new result }
{
    if desk.line.part == Part::Nothing {
        return desk;
    }
    let passes = arena_check::check(w);
    take(w, passes, desk)
}
