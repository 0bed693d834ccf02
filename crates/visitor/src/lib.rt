// The visitors of the crate's `index.rs` and `ord_index.rs`: each walk takes its visitor and gives it back, and a thin `traverse` lends the
// visitor and changes it in place. A walk goes on from where its visitor stands, and leaves it where it can be traversed again.
#![tactic(auto)]

mod index;
mod ord_index;
mod traverse;

pub use index::IndexVisitor;
pub use ord_index::OrdIndexVisitor;
pub use traverse::Traverse;
