use nim_base::{Object, Value, Version};

/// An object that was fetched in this version, and its value once it was reported.
#[derive(Debug, Drop)]
pub struct Fetched {
    pub object: Object,
    pub version: Version,
    pub value: Option<Value>,
}
