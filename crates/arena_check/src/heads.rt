// What is asked of all heads together: that every list is right, and that no two lists end in one slot.
ghost use Rattle.std.specs.Prelude.{◌≡◌, ◌+◌, ◌<◌};
ghost use Rattle.arena.specs.Decides.{Decides};
ghost use Rattle.link_check.specs.EachFrom.{EachFrom};
ghost use Rattle.list_check.specs.Walked.{ListOk};
ghost use Rattle.arena_check.specs.Headed.{free_count, lengths, LastsDiffer};

use arena::Slot;
use link_check::Records;
use list_check::list_ok;

// Whether every list is right.
pub fn lists_ok(records: Records) -> bool
    requires lists_value { free_count records.words.now + lengths records.words.now records.dims records.dims.lists ≡ records.dims.room }
    ensures { Decides result (EachFrom 0 records.entry.dims.lists (ListOk records.entry.words.now records.entry.dims)) }
{
    (0..records.dims.lists).all(|a| list_ok(records, Slot(a)))
}

// Whether list a is empty or ends in another slot than each list before it.
fn last_apart(records: Records, a: Slot) -> bool
    requires a_lt_lists { a.0 < records.dims.lists }
    ensures { Decides result (EachFrom 0 a.0 (LastsDiffer records.entry.words.now records.entry.dims a.0)) }
{
    let last = records.cell(a, arena::LAST);
    last == Slot::NONE.0 || (0..a.0).all(|b| records.cell(Slot(b), arena::LAST) != last)
}

// Whether no two lists end in one slot.
pub fn lasts_apart(records: Records) -> bool
    ensures { Decides result (EachFrom 0 records.entry.dims.lists (λ a. EachFrom 0 a (LastsDiffer records.entry.words.now records.entry.dims a))) }
{
    (0..records.dims.lists).all(|a| last_apart(records, Slot(a)))
}
