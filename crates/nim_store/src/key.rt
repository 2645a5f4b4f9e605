ghost use Rattle.std.specs.Prelude.{◌≡◌};

use nim_base::{Epoch, Instance, Object, Version};
use nim_message::Data;

/// What a frame of data is kept by: the epoch and the instance that it belongs to, the entry that receives it, and
/// which version of which object it has. Keys are equal by all of their fields, and ordered by them as they stand here.
#[derive(Clone, Copy, Debug, PartialEq, Eq, PartialOrd, Ord)]
pub struct Key {
    pub epoch: Epoch,
    pub instance: Instance,
    pub entry: u32,
    pub object: Object,
    pub version: Version,
}

impl Key {
    ghost use Rattle.nim_store.specs.Keys.{key_of};

    /// The key of a frame.
    pub fn of(frame: &Data) -> Key
        ensures { result ≡ key_of frame.now }
    {
        Key {
            epoch: frame.epoch,
            instance: frame.instance,
            entry: frame.entry,
            object: frame.object,
            version: frame.version,
        }
    }
}
