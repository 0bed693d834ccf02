// The first rows that a call on an arena asks: "1: the arena doesn't pass the check", and on one that passes "3: a list number is L or more" and
// "4: the two lists named are the same".
ghost use Rattle.model.specs.Passes.{Passes};
ghost use Rattle.answers.specs.Lists.{Passed, NamesOne, NamesTwo};

use super::Refusal;
use arena::Slot;

pub fn passed(whole: bool) -> Result<(), Refusal>
    ensures { Passed whole result }
{
    if whole { Ok(()) } else { Err(Refusal::Broken) }
}

// The list named is there, in an arena of so many levels; or why not.
pub fn one_list(w: &[u32], list: Slot) -> Result<usize, Refusal>
    requires { Passes w.now }
    ensures { NamesOne w.now list.0 result }
{
    if arena::header(w, arena::LISTS_WORD) <= list.0 {
        return Err(Refusal::NoList);
    }
    Ok(arena::header(w, arena::LEVELS_WORD) as usize)
}

pub fn two_lists(w: &[u32], a: Slot, b: Slot) -> Result<usize, Refusal>
    requires { Passes w.now }
    ensures { NamesTwo w.now a.0 b.0 result }
{
    let m = one_list(w, a)?;
    one_list(w, b)?;
    if a == b {
        return Err(Refusal::SameList);
    }
    Ok(m)
}
