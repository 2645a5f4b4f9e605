use nim_base::{Func, Name, Param, Seq};

/// Which part of a variable a reference means, before it is taken modulo the variable's parts.
#[derive(Clone, Copy, Debug, PartialEq, Eq)]
pub enum Place {
    Fixed(u64),
    /// The task's number in its stage plus this.
    Plus(u64),
    /// The task's number in its stage minus this.
    Minus(u64),
}

/// A part of a variable, by the variable's number.
#[derive(Clone, Copy, Debug, PartialEq, Eq)]
pub struct Ref {
    pub var: u8,
    pub place: Place,
}

/// One line of a block: one task, or with `each` one task per part of the first variable that it writes.
#[derive(Debug, Drop)]
pub struct Stage {
    pub func: Func,
    pub reads: Seq<Ref>,
    pub writes: Seq<Ref>,
    pub params: Seq<Param>,
    pub each: bool,
}

/// Tasks that a `do` runs in order.
#[derive(Debug, Drop)]
pub struct Block {
    pub name: Name,
    /// How many arguments a `do` gives.
    pub args: u8,
    pub stages: Seq<Stage>,
}
