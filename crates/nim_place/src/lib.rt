//! Where data lies, and the commands that one task needs: placement, the map of versions, and single scheduling.
#![tactic(auto)]

mod laws;
mod placement;
mod schedule;
mod versions;

pub use laws::{map_starts, orders_extend};
pub use placement::{Placement, home};
pub use schedule::{is_one_of, schedule_task};
pub use versions::VersionMap;
