ghost use Rattle.std.specs.Prelude.{◌≡◌, pos};
ghost use Rattle.nim_base.specs.Apply.{fewest_reads, has_counts, most_reads, params_of, result_count};

use crate::{Copied, NoMemory, Object, Seq};

/// What a task computes. The table of the functions is `specs/Apply.antt`, and the meaning of each its
/// equation in `specs/Functions.antt`.
#[derive(Clone, Copy, Debug, PartialEq, Eq)]
pub enum Func {
    Set,
    Copy,
    Addc,
    Mulc,
    Add,
    Sub,
    Max,
    Sum,
    Total,
    Count,
    Stencil,
    Keep,
    Group,
    Merge,
    Split,
}

/// A parameter of a task as its block is written: a number, or an argument of the block by number.
#[derive(Clone, Copy, Debug, PartialEq, Eq)]
pub enum Param {
    Const(i64),
    Arg(u8),
}

/// A task of a block, its arguments not yet put in.
#[derive(Debug, Drop)]
pub struct TaskForm {
    pub func: Func,
    pub params: Seq<Param>,
    pub reads: Seq<Object>,
    pub writes: Seq<Object>,
}

/// A task: the function, its parameters, and the objects that it reads and writes.
#[derive(Debug, Drop)]
pub struct Task {
    pub func: Func,
    pub params: Seq<i64>,
    pub reads: Seq<Object>,
    pub writes: Seq<Object>,
}

impl Func {
    /// How many parameters it has.
    pub fn params(self) -> usize
        ensures { result ≡ params_of self }
    {
        match self {
            Func::Set | Func::Addc | Func::Mulc => 1,
            Func::Stencil | Func::Group | Func::Split => 2,
            Func::Keep => 3,
            _ => 0,
        }
    }

    /// The fewest values that it reads.
    pub fn fewest_reads(self) -> usize
        ensures { result ≡ fewest_reads self }
    {
        match self {
            Func::Set => 0,
            Func::Add | Func::Sub | Func::Max => 2,
            Func::Stencil => 3,
            _ => 1,
        }
    }

    /// The most values that it reads.
    pub fn most_reads(self) -> usize
        ensures { result ≡ most_reads self }
    {
        match self {
            Func::Set => 0,
            Func::Add | Func::Sub | Func::Max => 2,
            Func::Stencil => 3,
            Func::Sum | Func::Total | Func::Count | Func::Merge => 8,
            _ => 1,
        }
    }

    /// How many results it has.
    pub fn writes(self) -> usize
        ensures { result ≡ result_count self }
    {
        match self {
            Func::Split => 2,
            _ => 1,
        }
    }

    /// Whether a task with so many parameters, reads and writes has the counts of this function.
    pub fn has_counts(self, params: usize, reads: usize, writes: usize) -> bool
        ensures { result ≡ has_counts self params reads writes }
    {
        params == self.params()
            && self.fewest_reads() <= reads
            && reads <= self.most_reads()
            && writes == self.writes()
    }
}

impl Default for Param {
    ghost use Rattle.nim_base.specs.declared.task.Param.TheVariants.{Const};

    ghost is_default = { λ param. param ≡ Const (pos 0) };

    fn default() -> Param {
        Param::Const(0)
    }
}

impl Copied for Param {
    fn copy(&self) -> Result<Param, NoMemory> {
        Ok(*self)
    }
}

impl Copied for TaskForm {
    fn copy(&self) -> Result<TaskForm, NoMemory> {
        Ok(TaskForm {
            func: self.func,
            params: self.params.copy()?,
            reads: self.reads.copy()?,
            writes: self.writes.copy()?,
        })
    }
}

impl Copied for Task {
    fn copy(&self) -> Result<Task, NoMemory> {
        Ok(Task {
            func: self.func,
            params: self.params.copy()?,
            reads: self.reads.copy()?,
            writes: self.writes.copy()?,
        })
    }
}
