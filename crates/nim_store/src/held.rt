use nim_base::{Copied, NoMemory, Object, Value, Version};

/// What a slot has: a version of an object, with its value.
#[derive(Debug, Drop)]
pub struct Held {
    pub object: Object,
    pub version: Version,
    pub value: Value,
}

impl Copied for Held {
    fn copy(&self) -> Result<Held, NoMemory> {
        Ok(Held {
            object: self.object,
            version: self.version,
            value: self.value.copy()?,
        })
    }
}
