// The depot's shift report. A text of lines `list key` is fed in any pieces to a desk over an arena of two lists; then the figures of each list and
// the number of skipped lines are answered, as numbers or as the report's bytes. Any words, any desk, nothing required.
#![tactic(auto)]

ghost use Rattle.std.specs.Prelude.{◌≡◌, map, ◌≤◌, length, get_or};
ghost use Rattle.model.specs.Arena.{levels_word, lists_word};
ghost use Rattle.model.specs.Passes.{decode, Passes};
ghost use Rattle.model.specs.Calls.{SetUpPromise};
ghost use Rattle.setup.specs.Bare.{number_of};
ghost use Rattle.figures.specs.Figured.{figures_of, FiguresPromise};
ghost use Rattle.figures_text.specs.Texts.{Put};
ghost use Rattle.shift.specs.Reports.{lines_from, AnswerPromise};

use answers::Refusal;
use arena::{List, Slot};
pub use figures::Figures;
use setup::WrongSizes;
pub use shift_feed::{Desk, feed, finish};

// An arena of two lists, 8 levels and 400 nodes has so many words.
pub const WORDS: usize = 8048;

// The bytes that hold any report.
pub const ROOM: usize = 1261;

// An empty arena of the shift's sizes.
pub fn set_up(w: &mut [u32]) -> Result<(), WrongSizes>
    ensures { SetUpPromise 2 8 400 w.old w.new (number_of result) }
{
    setup::set_up(w, 2, 8, 400)
}

// The figures of a list.
pub fn figures(w: &[u32], list: Slot) -> Result<Figures, Refusal>
    ensures { FiguresPromise list.0 w.now result }
{
    figures::answer(w, list)
}

// The lines of all lists; the answer is the place behind them.
fn lines(w: &[u32], m: usize, lists: u32, out: &mut [u8]) -> usize
    requires { Passes w.now × (m ≡ get_or w.now levels_word 0) × (lists ≡ get_or w.now lists_word 0) × (1232 ≤ length out.old) }
    ensures { Put 0 (lines_from 0 (map figures_of (decode w.now).lists)) out.old out.new result × (result ≤ 1232) }
{
    let mut at = 0;
    for list in 0..lists {
        let f = figures::of(List::new(w, m, Slot(list)));
        at = figures_text::line(out, at, list, f);
    }
    at
}

// The report as bytes at the front of the slice; the answer is how many.
pub fn answer(w: &[u32], skipped: u64, out: &mut [u8]) -> usize
    ensures { AnswerPromise w.now skipped out.old out.new result }
{
    if out.len() < ROOM || !arena_check::check(w) {
        return 0;
    }
    let m = arena::header(w, arena::LEVELS_WORD) as usize;
    let at = lines(w, m, arena::header(w, arena::LISTS_WORD), out);
    figures_text::last(out, at, skipped)
}
