// Where the words of an arena stand: the header's words, a record's columns and width, and the length of the whole.
ghost use Rattle.std.specs.Prelude.{◌≡◌, ◌+◌, ◌*◌, ◌≤◌};
ghost use Rattle.model.specs.Arena.{header_words, width};
ghost use Rattle.model.specs.Calls.{Room};
ghost use Rattle.model.specs.Cells.{base_of};
ghost use Rattle.arena.specs.Decides.{Decides};

use crate::Slot;

// The header's words (model's `lists_word` and so on), and how many there are.
pub const MARK_WORD: usize = 0;

pub const VERSION_WORD: usize = 1;

pub const LISTS_WORD: usize = 2;

pub const LEVELS_WORD: usize = 3;

pub const ROOM_WORD: usize = 4;

pub const FIRST_FREE_WORD: usize = 5;

pub const FREE_WORD: usize = 6;

pub const ZERO_WORD: usize = 7;

pub const HEADER: usize = 8;

pub const MARK: u32 = 4279123;

pub const VERSION: u32 = 1;

// A record's columns (model's `key_column` and so on); the link of level l has its target in TO + LINK * l and its distance in FAR + LINK * l.
pub const COUNT: usize = 0;

pub const KEY: usize = 0;

pub const HEIGHT: usize = 1;

pub const NEXT: usize = 2;

pub const LAST: usize = 3;

pub const TO: usize = 4;

pub const FAR: usize = 5;

pub const LINK: usize = 2;

// The number of words of a record, in an arena of m levels.
pub fn width(m: usize) -> usize
    requires { m ≤ 16 }
    ensures { result ≡ width m }
{
    TO + LINK * m
}

// Where the record of slot s begins.
pub fn base_of(m: usize, s: Slot) -> usize
    requires { m ≤ 16 }
    ensures { result ≡ base_of m s.0 }
{
    HEADER + s.0 as usize * width(m)
}

// The length of an arena of l lists, m levels and c nodes.
pub fn size(l: u32, m: u32, c: u32) -> usize
    requires { (l ≤ 16) × (m ≤ 16) × (c ≤ 65535) }
    ensures { result ≡ header_words + (l + c) * width m }
{
    HEADER + (l + c) as usize * width(m as usize)
}

// Whether L, M, C and the slice's length are right; the ranges come before any product.
pub fn fits(l: u32, m: u32, c: u32, n: usize) -> bool
    ensures { Decides result (Room l m c n) }
{
    (1..=16).contains(&l) && (1..=16).contains(&m) && (1..=65535).contains(&c) && n == size(l, m, c)
}
