//! What an attempt gives, which does not wait.

/// What an attempt at a call gives: `T` is what the call that waits gives, `B` what comes back of what the attempt was given.
#[derive(Drop)]
pub enum Attempt<T, B> {
    /// The desk was at home, and the call was made.
    Made(T),
    /// Another caller has the desk: nothing was changed.
    Busy(B),
}
