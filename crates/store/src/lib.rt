// The store over any chip: attach, release, format, mount, the questions, the changes, collect, open and close with their
// ticket, and any one of the nine calls made of its value. It touches its chip by the calls of `flash::Chip` alone, and
// takes memory in attach alone.
#![tactic(auto)]

mod asks;
pub mod calls;
mod change;
mod changes;
mod collecting;
mod held;
pub mod making;
pub mod objects;
mod opens;
pub mod stores;
pub mod tickets;

pub use calls::Unattached;
pub use making::{Answer, Call};
pub use objects::Object;
pub use stores::Store;
pub use tickets::Ticket;
