//! The arenas of a market: found by number, and standing at their levels, the newest first.
//!
//! An [`Arenas`] holds them as [`StoredArena`]s: number, stamp, level and claim. Contracts see it as one list, the greatest
//! stamp first. It tells what a level's arenas ask for, all of them or those before one, without a walk over them, and
//! shows a level as a [`Span`] to whoever walks. A claim is changed by a [`Change`]; a new arena, or one that gets a new
//! stamp, goes first. Only `push` takes memory.
//!
//! Each call that goes into a level's rows adds the visits that it makes to its last argument, as `wide_rows` counts them. To find an
//! arena by its number makes none, and a call that is refused adds none.
#![tactic(auto)]

mod change;
mod lookup;
mod store;
mod stored_arena;
mod table;

pub use change::Change;
pub use store::Arenas;
pub use stored_arena::StoredArena;
pub use wide_rows::Span;
