//! What tasks compute: `apply` gives the results of a function for its parameters and reads.
#![tactic(auto)]

mod cellwise;
mod group;
mod keep;
mod laws;
mod pairwise;
mod rows;
mod split;
mod stencil;
mod sum;
mod table;
mod total;

pub use laws::{
    add_is_sum, group_gathers_all_rows, keep_counts_all_rows, merge_joins_groups, order_is_free,
    split_keeps_all_rows,
};
pub use table::apply;
