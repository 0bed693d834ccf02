// Module 1 of document 01 (the crate's `link.rs`): the distance of a link, made, raised by one and lowered by one.
#![tactic(auto)]

ghost use Rattle.std.specs.Prelude.{◌≡◌};
ghost use Rattle.link.specs.Distances.{told, made, raised, lowered};

mod spans;

pub use spans::{farther, longer, made, nearer, shorter};

// The crate's three errors, by document 01's numbers.
#[derive(Clone, Copy, Debug, PartialEq, Eq)]
pub enum LinkError {
    Invalid = 11,
    Overflow = 12,
    Underflow = 13,
}

pub fn make(d: u32) -> Result<u32, LinkError>
    ensures { told result ≡ made d }
{
    if d == 0 {
        Err(LinkError::Invalid)
    } else {
        Ok(d)
    }
}

pub fn raise(d: u32) -> Result<u32, LinkError>
    ensures { told result ≡ raised d }
{
    match d {
        0 => Err(LinkError::Invalid),
        u32::MAX => Err(LinkError::Overflow),
        _ => Ok(d + 1),
    }
}

pub fn lower(d: u32) -> Result<u32, LinkError>
    ensures { told result ≡ lowered d }
{
    match d {
        0 => Err(LinkError::Invalid),
        1 => Err(LinkError::Underflow),
        _ => Ok(d - 1),
    }
}
