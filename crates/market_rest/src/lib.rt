//! A market at rest: nobody is placed, and no arena is in need of a worker. By laws of the definitions nothing is asked for then that could
//! be had, and no arena would be allotted a worker either if it alone had asked.
#![tactic(auto)]

mod law;

pub use law::{
    a_market_at_rest_asks_for_nothing, a_market_at_rest_serves_no_arena_alone,
    a_market_that_all_joined_in_vain_is_at_rest, an_arena_asks_for_what_was_asked_at_it,
};
