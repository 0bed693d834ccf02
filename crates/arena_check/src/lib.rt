// The check of document 01: whether any words are an arena that passes. It goes once over the records, by the chains that they
// make, and needs no memory but locals: docs/CHECK.md says how. One list's walk is list_check's.
#![tactic(auto)]

ghost use Rattle.model.specs.Calls.{CheckPromise};
ghost use Rattle.arena.specs.Decides.{Decides};
ghost use Rattle.arena_check.specs.Whole.{Whole};

mod free;
mod header;
mod heads;

// Whether the words are whole, in the order in which it is cheap to ask.
fn whole(w: &[u32]) -> bool
    ensures { Decides result (Whole w.now) }
{
    let Some(records) = header::records(w) else {
        return false;
    };
    header::counted(records) == records.dims.room as usize
        && free::free_ok(records)
        && heads::lists_ok(records)
        && heads::lasts_apart(records)
}

// "yes or no, for any words": whether the arena passes the check.
pub fn check(w: &[u32]) -> bool
    ensures { CheckPromise w.now result }
{
    whole(w)
}
