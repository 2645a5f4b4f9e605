//! The laws of waits: before sets by the rule keep every conflict in order, and commands may then run in any order that
//! waits allow. No program code.
#![tactic(auto)]

mod laws;

pub use laws::{
    any_order, any_step, before_sets_cover, front_stays, held_at_ends, longer_list_stands,
    never_stuck, orders_cover, versions_are_local,
};
