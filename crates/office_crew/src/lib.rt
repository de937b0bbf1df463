//! A crew: the callers of an office, each in a thread of its own, and met again; and a scribe, who writes the office's history down.
//!
//! [`meet`] opens an office with a seat for each [`Task`], lets each task work once with its seat's pass, openers one after the
//! other before all others, these in a thread each (one of them in the calling thread, all where no thread can be made), waits
//! for all, and closes the office: what is left is one legal history of all that they called, and the tasks, in the order of their
//! seats, with what they noted and what they say of their work. Its [`MeetingTerms`] say whether the office keeps its entries, has them
//! cut out while the tasks work, or keeps none.
//!
//! A [`Scribe`] has one pass of an office that is kept in parts, and knows how much of the history it was handed. Each part that it
//! takes goes on where the one before it ended, and with it the scribe has all that its pass has seen. Where somebody else had
//! cut, the part is one that begins elsewhere: [`Missed::Elsewhere`].
#![tactic(auto)]

mod asking;
mod caller;
mod meeting;
mod member;
mod missed;
mod scribe;
mod script;

pub use asking::{Asked, ask};
pub use caller::{Caller, Task};
pub use meeting::{Meeting, MeetingTerms, Unmet, meet};
pub use missed::Missed;
pub use scribe::Scribe;
pub use script::Script;
