use nim_base::{Copied, Epoch, Instance, NoMemory, Object, Value, Version};

/// A frame of data from worker to worker: what a slot had when it was sent, for the entry that receives it. The
/// fields but for the value are its key.
#[derive(Debug, Drop)]
pub struct Data {
    pub epoch: Epoch,
    pub instance: Instance,
    pub entry: u32,
    pub object: Object,
    pub version: Version,
    pub value: Value,
}

impl Copied for Data {
    fn copy(&self) -> Result<Data, NoMemory> {
        Ok(Data {
            epoch: self.epoch,
            instance: self.instance,
            entry: self.entry,
            object: self.object,
            version: self.version,
            value: self.value.copy()?,
        })
    }
}
