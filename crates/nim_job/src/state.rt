use crate::Level;
use nim_base::{Copied, NoMemory, Seq};

/// Where a driver stands. What it stands for in a job's body is `driver_in` of `specs/Saved.antt`.
#[derive(Debug, Drop)]
pub struct DriverState {
    /// The bodies that the driver is in, outermost first; none at its end.
    pub levels: Seq<Level>,
    pub scalars: Seq<i64>,
    /// How many statements were counted.
    pub count: u32,
    /// What is printed so far.
    pub output: Seq<u8>,
}

impl Copied for DriverState {
    fn copy(&self) -> Result<DriverState, NoMemory> {
        Ok(DriverState {
            levels: self.levels.copy()?,
            scalars: self.scalars.copy()?,
            count: self.count,
            output: self.output.copy()?,
        })
    }
}
