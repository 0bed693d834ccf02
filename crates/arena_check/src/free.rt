// The free chain on any words: the form of a free node, and the walk along the chain.
ghost use Rattle.arena.specs.Decides.{Decides};
ghost use Rattle.arena_check.specs.Headed.{free_count, first_free_slot};
ghost use Rattle.arena_check.specs.FreeChain.{FreeNode, FreeFrom};

use arena::Slot;
use link_check::Records;

// Whether slot s has the form of a free node.
fn free_node(records: Records, s: Slot) -> bool
    ensures { Decides result (FreeNode records.entry.words.now records.entry.dims s.0) }
{
    records.is_node_slot(s)
        && records.cell(s, arena::KEY) == 0
        && records.cell(s, arena::HEIGHT) == Slot::NONE.0
        && records.cell(s, arena::LAST) == 0
        && records.absent_from(s, 0)
}

// Whether the free chain is right.
pub fn free_ok(records: Records) -> bool
    ensures { Decides result (FreeFrom records.entry.words.now records.entry.dims (free_count records.entry.words.now) (first_free_slot records.entry.words.now)) }
{
    let mut at = Slot(records.words[arena::FIRST_FREE_WORD]);
    // Counted down, since a `for` takes an instruction more for each free slot.
    let mut left = records.words[arena::FREE_WORD];
    while 0 < left {
        if !free_node(records, at) {
            return false;
        }
        at = Slot(records.cell(at, arena::NEXT));
        left -= 1;
    }
    at == Slot::NONE
}
