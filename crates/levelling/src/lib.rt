// Module 8 of document 01: "the node of rank k gets as height the number of times 2 divides k, at most M; slots and keys stay."
#![tactic(auto)]

ghost use Rattle.std.specs.Prelude.{◌≡◌, ◌≤◌};
ghost use Rattle.model.specs.Lists.{twos};
ghost use Rattle.model.specs.Arena.{encode};
ghost use Rattle.model.specs.Calls.{do_level};
ghost use Rattle.model.specs.Passes.{decode};
ghost use Rattle.arena.specs.Owners.{Listed};
ghost use Rattle.levelling.specs.NodeByNode.{Full, SteppedOver, CanRelevel, Relevelled};

use arena::{COUNT, Index, NEXT, Path, Rank, Slot, cell};
use insertion::insert_before;
use removal::remove_after;

// The number of times 2 divides a rank, at most m, by halving it.
pub fn height_of(m: usize, k: Rank) -> u32
    requires { m ≤ 16 }
    ensures { result ≡ twos m k.0 }
{
    let mut rest = k.0;
    for h in 0..m {
        if rest % 2 == 1 {
            return h as u32;
        }
        rest /= 2;
    }
    m as u32
}

// The path behind a node of height h, which stands at its end: the node is the precursor of the levels below h.
fn step_over(path: Path, slot: Slot, rank: Rank, h: usize) -> Path
    requires { Full path × (h ≤ 16) }
    ensures { SteppedOver path slot.0 rank.0 h result }
{
    let mut slots = path.slots;
    let mut ranks = path.ranks;
    // No two `fill`s: the edit `lowest_precursor_kept` has to leave out level 0 and nothing else.
    for l in 0..h {
        slots[l] = slot;
        ranks[l] = rank;
    }
    Path {
        slots,
        ranks,
        end: slot,
    }
}

// The node at index i goes out and in again, at height h: its slot is then the first free one. The path leads on to the next index.
fn relevel(w: &mut [u32], m: usize, list: Slot, i: Index, h: u32, path: Path) -> Path
    requires { CanRelevel w.old m list.0 i.0 h path }
    ensures { Relevelled w.old m list.0 i.0 h w.new result }
{
    let slot = Slot(cell(w, m, path.end, NEXT));
    let key = remove_after(w, m, list, i, path);
    insert_before(w, m, list, key, h, i, path);
    step_over(path, slot, Rank::from_index(i), h as usize)
}

pub fn level(w: &mut [u32], m: usize, list: Slot)
    requires { Listed w.old m list.0 }
    ensures { w.new ≡ encode (do_level (decode w.old) list.0) }
{
    let n = cell(w, m, list, COUNT);
    let mut path = Path {
        slots: [list; 16],
        ranks: [Rank::HEAD; 16],
        end: list,
    };
    for i in 0..n {
        let index = Index(i);
        let h = height_of(m, Rank::from_index(index));
        path = relevel(w, m, list, index, h, path);
    }
}
