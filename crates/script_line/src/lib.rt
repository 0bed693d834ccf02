// One line of a call script, read byte by byte: the item's name as one number, and its numbers into a lent slice.
#![tactic(auto)]

ghost use Rattle.std.specs.Prelude.{◌≡◌, ◌≤◌, length, set};
ghost use Rattle.script_line.specs.Lines.{Within};
ghost use Rattle.script_line.specs.Reads.{blank, lettered, digited, numbered, Stepped, Finished};
ghost use Rattle.script_line.specs.Reads.{turned as turned_line};

mod script;

pub use script::{Runner, Script, StillOpen};

// What separates words.
const SPACE: u8 = b' ';

// What has been read of a line: nothing, a name, a space, digits, a comment, or what is no item.
#[derive(Clone, Copy, PartialEq, Eq)]
pub enum Reading {
    Nothing,
    Name,
    Gap,
    Digits,
    Comment,
    Spoilt,
}

// Its values stand beside what has been read: `step` and `finish` promise their answer for any line, and an enum with the values in its variants
// would leave some out.
#[derive(Clone, Copy, PartialEq, Eq)]
pub struct Line {
    pub reading: Reading,
    // The name's letters, five bits each, the first highest.
    pub name: u64,
    pub number: u32,
    pub count: usize,
}

impl Line {
    pub fn new() -> Line
        ensures { (result ≡ blank) × (result.count ≤ 0) }
    {
        Line {
            reading: Reading::Nothing,
            name: 0,
            number: 0,
            count: 0,
        }
    }
}

fn turned(line: Line, reading: Reading) -> Line
    ensures { result ≡ turned_line reading line }
{
    Line { reading, ..line }
}

// A name goes on: twelve letters at most, so below 32 to the 11th there is room.
#[tactic(auto, unfolding(crate::specs::Reads::lettered, crate::specs::Reads::is_letter))]
fn letter(line: Line, b: u8) -> Line
    ensures { result ≡ lettered line b }
{
    if !b.is_ascii_lowercase() || line.name >= 1 << 55 {
        return turned(line, Reading::Spoilt);
    }
    Line {
        reading: Reading::Name,
        name: line.name * 32 + u64::from(b % 32),
        number: 0,
        ..line
    }
}

// A number goes on: 4294967295 at most.
fn digit(line: Line, b: u8) -> Line
    ensures { result ≡ digited line b }
{
    match digits::longer(line.number, b) {
        Some(number) => Line {
            reading: Reading::Digits,
            number,
            ..line
        },
        None => turned(line, Reading::Spoilt),
    }
}

// A number is done, if the slice holds one more.
#[tactic(auto, using(crate::proofs::ByteLaws::number_in, crate::proofs::ByteLaws::number_past))]
fn number(line: Line, numbers: &mut [u32], then: Reading) -> Line
    ensures value { result ≡ numbered line (length numbers.old) then }
    ensures numbers_after { numbers.new ≡ set numbers.old line.count line.number }
{
    if line.count >= numbers.len() {
        return turned(line, Reading::Spoilt);
    }
    numbers[line.count] = line.number;
    Line {
        reading: then,
        number: 0,
        count: line.count + 1,
        ..line
    }
}

// The line with one byte more; b is no newline.
#[tactic(auto, using(crate::proofs::LineLaws::lettered_count, crate::proofs::LineLaws::digited_count, crate::proofs::LineLaws::numbered_count), unfolding(crate::specs::Reads::stepped, crate::specs::Reads::kept))]
pub fn step(line: Line, b: u8, numbers: &mut [u32]) -> Line
    requires { Within line numbers.old }
    ensures { Stepped line b numbers.old result numbers.new }
{
    match line.reading {
        Reading::Nothing if b == b'#' => turned(line, Reading::Comment),
        Reading::Name if b == SPACE => turned(line, Reading::Gap),
        Reading::Nothing | Reading::Name => letter(line, b),
        Reading::Digits if b == SPACE => number(line, numbers, Reading::Gap),
        Reading::Gap | Reading::Digits => digit(line, b),
        Reading::Comment | Reading::Spoilt => line,
    }
}

// The line at its end: `Name` if it has the form of an item, a comment, or spoilt.
#[tactic(auto, using(crate::proofs::LineLaws::numbered_count), unfolding(crate::specs::Reads::finished, crate::specs::Reads::kept))]
pub fn finish(line: Line, numbers: &mut [u32]) -> Line
    requires { Within line numbers.old }
    ensures { Finished line numbers.old result numbers.new }
{
    match line.reading {
        Reading::Nothing | Reading::Gap => turned(line, Reading::Spoilt),
        Reading::Digits => number(line, numbers, Reading::Name),
        Reading::Name | Reading::Comment | Reading::Spoilt => line,
    }
}
