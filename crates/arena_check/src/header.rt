// The header on any words: its numbers, and the counts that the heads add to it.
ghost use Rattle.std.specs.Prelude.{◌≡◌, ◌+◌, MatchOption};
ghost use Rattle.arena_check.specs.Headed.{Headed, HeaderRead, free_count, lengths};

use arena::Slot;
use link_check::{Dims, Records};

// The records of words that have the header of an arena of their length.
pub fn records(w: &[u32]) -> Option<Records<'_>>
    ensures { MatchOption result (Headed w.now → ⊥) (HeaderRead w.now) }
{
    if w.len() >= arena::HEADER
        && w[arena::MARK_WORD] == arena::MARK
        && w[arena::VERSION_WORD] == arena::VERSION
        && w[arena::ZERO_WORD] == 0
    {
        let lists = w[arena::LISTS_WORD];
        let levels = w[arena::LEVELS_WORD];
        let room = w[arena::ROOM_WORD];
        if arena::fits(lists, levels, room, w.len()) {
            let levels = levels as usize;
            let dims = Dims {
                lists,
                levels,
                room,
            };
            return Some(Records { words: w, dims });
        }
    }
    None
}

// The number of free slots and the lengths of all lists, as the header and the heads say them, in all.
pub fn counted(records: Records) -> usize
    ensures { result ≡ free_count records.entry.words.now + lengths records.entry.words.now records.entry.dims records.entry.dims.lists }
{
    let mut sum = records.words[arena::FREE_WORD] as usize;
    for a in 0..records.dims.lists {
        sum += records.cell(Slot(a), arena::COUNT) as usize;
    }
    sum
}
