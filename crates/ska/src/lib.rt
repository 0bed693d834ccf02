// The ordered list's calls for users: any words, any arguments, nothing required. Each is public as it stands in its crate, with the promise
// written there.
#![tactic(auto)]

pub use answers::{Refusal, SearchError, Searched};
pub use arena::{Index, Slot};
pub use arena_check::check;
pub use link::{LinkError, lower as link_lower, make as link_make, raise as link_raise};
pub use setup::{WrongSizes, set_up};
pub use ska_changing::{insert, level, remove_at, remove_key};
pub use ska_cutting::{append, clear, split_at, split_key, truncate};
pub use ska_reading::{middle, read, search};
