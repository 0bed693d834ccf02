// One line of a shift's text, read byte by byte: `list key`, both decimal. A line has no longest length, so only its two numbers are kept.
#![tactic(auto)]

ghost use Rattle.std.specs.Prelude.{◌≡◌};
ghost use Rattle.shift_line.specs.Reads.{blank, spoilt, digited, stepped, entry_of};

const SPACE: u8 = b' ';

// What was read last of a line: nothing yet, the list's digits, the space, the key's digits; or a byte that no such line has.
#[derive(Clone, Copy, PartialEq, Eq)]
pub enum Part {
    Nothing,
    ListDigits,
    Space,
    KeyDigits,
    Spoilt,
}

// Its numbers stand beside the part: of docs/PROMISES.md's "any desk", an enum with the numbers in its variants would leave out some.
#[derive(Clone, Copy, PartialEq, Eq)]
pub struct Line {
    pub part: Part,
    // The list, once the space is read.
    pub list: u32,
    // The number that is being read.
    pub number: u32,
}

// What a line that parses says.
#[derive(Clone, Copy, PartialEq, Eq)]
pub struct Reading {
    pub list: u32,
    pub key: u32,
}

impl Line {
    pub fn new() -> Line
        ensures { result ≡ blank }
    {
        Line {
            part: Part::Nothing,
            list: 0,
            number: 0,
        }
    }

    fn spoilt() -> Line
        ensures { result ≡ spoilt }
    {
        Line {
            part: Part::Spoilt,
            ..Line::new()
        }
    }
}

// One digit more of the number that is being read.
fn digit(line: Line, b: u8, part: Part) -> Line
    ensures { result ≡ digited part line b }
{
    digits::longer(line.number, b).map_or(
        Line::spoilt(),
        |number| Line {
            part,
            number,
            ..line
        },
    )
}

// The line with one byte more.
#[tactic(auto, unfolding(crate::specs::Reads::stepped))]
pub fn step(line: Line, b: u8) -> Line
    ensures { result ≡ stepped line b }
{
    match line.part {
        Part::ListDigits if b == SPACE => Line {
            part: Part::Space,
            list: line.number,
            number: 0,
        },
        Part::Nothing | Part::ListDigits => digit(line, b, Part::ListDigits),
        Part::Space | Part::KeyDigits => digit(line, b, Part::KeyDigits),
        Part::Spoilt => Line::spoilt(),
    }
}

// What the line says, if it ends here; none if it does not parse.
#[tactic(auto, unfolding(crate::specs::Reads::entry_of))]
pub fn parse(line: Line) -> Option<Reading>
    ensures { result ≡ entry_of line }
{
    match line.part {
        Part::KeyDigits => Some(Reading {
            list: line.list,
            key: line.number,
        }),
        _ => None,
    }
}
