// Set-up (module 2 of document 01): all lists empty, the free slots chained upwards from L. Rests on arena, which says where each word stands.
#![tactic(auto)]

ghost use Rattle.std.specs.Prelude.{◌≡◌, ◌+◌, ◌-◌, ◌*◌, ◌≤◌, ◌<◌, length};
ghost use Rattle.model.specs.Arena.{header_words, width, count_column, header, set_up, record_of};
ghost use Rattle.model.specs.Calls.{SetUpPromise};
ghost use Rattle.arena.specs.RecordIn.{RecordIn};
ghost use Rattle.arena.specs.Linked.{put_row};
ghost use Rattle.setup.specs.Bare.{number_of};
ghost use Rattle.setup.specs.NewRecords.{front_words, bare_record, Written, FirstNew, HeaderSet};

use arena::{Link, Slot};

// The refusal: L, M, C or the slice's length is wrong.
#[derive(Clone, Copy, Debug, PartialEq, Eq)]
pub struct WrongSizes;

// The words of a record before its links.
#[derive(Clone, Copy)]
pub struct Front {
    pub count: u32,
    pub height: u32,
    pub next: u32,
    pub last: u32,
}

fn write_front(w: &mut [u32], m: usize, s: Slot, f: Front)
    requires { RecordIn w.old m s.0 }
    ensures { w.new ≡ put_row m w.old s.0 count_column (front_words f) }
{
    arena::put(w, m, s, arena::COUNT, f.count);
    arena::put(w, m, s, arena::HEIGHT, f.height);
    arena::put(w, m, s, arena::NEXT, f.next);
    arena::put(w, m, s, arena::LAST, f.last);
}

// The record of slot s, with all its links absent.
fn write_record(w: &mut [u32], m: usize, s: Slot, f: Front)
    requires { RecordIn w.old m s.0 }
    ensures { Written m w.old s.0 (bare_record m f) 0 (width m) w.new }
{
    write_front(w, m, s, f);
    for l in 0..m {
        arena::put_link(w, m, s, l, Link::ABSENT);
    }
}

// The front of slot s of n in a new arena: an empty list's head, or a free slot before the next.
fn front_of(s: u32, l: u32, m: u32, n: u32) -> Front
    requires { (l ≤ n) × (s < n) × (n ≤ 65551) }
    ensures { bare_record m result ≡ record_of (set_up l m (n - l)) s }
{
    if s < l {
        return Front {
            count: 0,
            height: m,
            next: Slot::NONE.0,
            last: Slot::NONE.0,
        };
    }
    Front {
        count: 0,
        height: Slot::NONE.0,
        next: if s + 1 == n { Slot::NONE.0 } else { s + 1 },
        last: 0,
    }
}

fn write_records(w: &mut [u32], l: u32, m: u32, n: u32)
    requires l_le_n { (l ≤ n) × (n ≤ 65551) × (m ≤ 16) }
    requires w_len { length w.old ≡ header_words + n * width m }
    ensures { FirstNew l m n w.old n w.new }
{
    let levels = m as usize;
    for s in 0..n {
        write_record(w, levels, Slot(s), front_of(s, l, m, n));
    }
}

fn write_header(w: &mut [u32], l: u32, m: u32, c: u32)
    requires header_words_in_bounds { header_words ≤ length w.old }
    requires le_c { 1 ≤ c }
    ensures { HeaderSet w.old (header (set_up l m c)) w.new }
{
    w[arena::MARK_WORD] = arena::MARK;
    w[arena::VERSION_WORD] = arena::VERSION;
    w[arena::LISTS_WORD] = l;
    w[arena::LEVELS_WORD] = m;
    w[arena::ROOM_WORD] = c;
    w[arena::FIRST_FREE_WORD] = l;
    w[arena::FREE_WORD] = c;
    w[arena::ZERO_WORD] = 0;
}

pub fn set_up(w: &mut [u32], l: u32, m: u32, c: u32) -> Result<(), WrongSizes>
    ensures { SetUpPromise l m c w.old w.new (number_of result) }
{
    if !arena::fits(l, m, c, w.len()) {
        return Err(WrongSizes);
    }
    write_records(w, l, m, l + c);
    write_header(w, l, m, c);
    Ok(())
}
