ghost use Rattle.std.specs.Prelude.{◌≡◌, ◌≤◌, IfOk};
ghost use Rattle.std.specs.Vec.{vec_capacity, vec_len};
ghost use Rattle.nim_worker.specs.Inputs.{AreIdle};

use crate::Work;
use crate::inputs::Inputs;
use nim_base::NoMemory;
use std::alloc::Global;

/// The most works that a batch may have.
pub(crate) const MOST_WORKS: usize = 16;

/// Room for a batch that isn't begun.
#[derive(Drop)]
pub(crate) struct Room {
    pub(crate) works: Vec<Work>,
    /// On the heap, so that a work that is begun or finished moves one pointer.
    pub(crate) inputs: Vec<Box<Inputs>>,
    ghost works_empty: { vec_len works ≡ 0 },
    ghost works_fit: { 16 ≤ vec_capacity works },
    ghost enough: { 16 ≤ vec_len inputs },
    ghost idle: { AreIdle inputs.items },
}

impl Room {
    pub(crate) fn new(alloc: Global) -> Result<Room, NoMemory> {
        Ok(Room {
            works: Vec::with_capacity(alloc, MOST_WORKS)?,
            inputs: idle_inputs(alloc)?,
        })
    }
}

/// Inputs for a batch of the most works.
fn idle_inputs(alloc: Global) -> Result<Vec<Box<Inputs>>, NoMemory>
    ensures idle { IfOk result (λ inputs. AreIdle inputs.items) }
    ensures enough { IfOk result (λ inputs. vec_len inputs ≡ 16) }
{
    let mut inputs = Vec::with_capacity(alloc, MOST_WORKS)?;
    for _ in 0..MOST_WORKS {
        inputs.push_reserved(Box::new(alloc, Inputs::new(alloc)?)?);
    }
    Ok(inputs)
}
