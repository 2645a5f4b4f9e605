use nim_base::{Seq, Worker};

/// What an instance needed before it: nothing, a kept patch again, or a new one, each by its number.
#[derive(Clone, Copy, Debug, PartialEq, Eq)]
pub enum Patched {
    Not,
    Repeated(u8),
    Made(u8),
}

/// What an instance came to: the workers that are to report it, whether its template was installed for it, and the
/// patch before it.
#[derive(Debug, Drop)]
pub struct Reused {
    pub awaited: Seq<Worker>,
    pub is_new: bool,
    pub patched: Patched,
}
