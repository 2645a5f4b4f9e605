ghost use Rattle.std.specs.Prelude.{◌≡◌, ◌≤◌, ◌<◌, length, All};
ghost use Rattle.std.specs.Vec.{vec_capacity};
ghost use Rattle.nim_base.specs.declared.number.Shape.{Shape as shape_type};

use nim_base::{Object, Shape, Slot, Value, Version};

/// A slot that was emptied, and what it had.
#[derive(Clone, Copy, Debug)]
pub(crate) struct Taken {
    pub(crate) slot: Slot,
    pub(crate) content: Option<(Object, Version)>,
}

/// What a Run needs: its parameters, the values that it reads, taken out of their slots, and the shapes that it
/// writes. There is room for the counts of every function.
#[derive(Drop)]
pub(crate) struct Inputs {
    pub(crate) params: Vec<i64>,
    /// The slots that were emptied, each once.
    pub(crate) taken: Vec<Taken>,
    /// What each of them had; an empty one a value without rows.
    pub(crate) values: Vec<Value>,
    /// For each read its place among these.
    pub(crate) places: Vec<usize>,
    /// For each read its object and version.
    pub(crate) contents: Vec<(Object, Version)>,
    /// The shape of each result.
    pub(crate) shapes: Vec<Shape>,
    ghost room: { (3 ≤ vec_capacity params) × (8 ≤ vec_capacity taken) × (8 ≤ vec_capacity values)
        × (8 ≤ vec_capacity places) × (8 ≤ vec_capacity contents) × (2 ≤ vec_capacity shapes) },
    ghost paired: { length taken.items ≡ length values.items },
    ghost places_fit: { All (λ place. place < length values.items) places.items },
    ghost wide: { All (λ (shape : shape_type). 1 ≤ shape.width) shapes.items },
}
