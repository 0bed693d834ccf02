// The records and links of any words that have an arena's length: the forms that records share, and the links that are pending along a list.
// Rests on arena, which says where each word stands. docs/CHECK.md says how the check uses them.
#![tactic(auto)]

mod pending;
mod records;

pub use pending::Pending;
pub use records::Records;

// The numbers of lists, levels and nodes.
#[derive(Clone, Copy)]
pub struct Dims {
    pub lists: u32,
    pub levels: usize,
    pub room: u32,
}
