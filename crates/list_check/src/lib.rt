// One list of any words: whether its records have their forms, its keys never fall, and each link goes where document 01 says. One walk along
// the list answers this, with no memory but locals: docs/CHECK.md says how. Rests on link_check, which asks of records and links.
#![tactic(auto)]

mod walks;

pub use walks::list_ok;
