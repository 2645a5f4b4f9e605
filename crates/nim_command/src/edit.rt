use nim_base::{Copied, Func, NoMemory, Object, Param, Seq, Worker};

/// A task that an edit moves: what it runs, the offset of the version of each object that it reads, and the objects
/// that it writes.
#[derive(Debug, Drop)]
pub struct Spec {
    pub func: Func,
    pub params: Seq<Param>,
    pub reads: Seq<(Object, u16)>,
    pub writes: Seq<Object>,
}

/// A change of one worker's half: what it takes away and what it puts in its place is `edited` of
/// `specs/Edits.antt`. Bit `k` of a mask says that the new owner has what read `k` needs already.
#[derive(Debug, Drop)]
pub enum Edit {
    /// At the home: the task runs at another worker.
    Away {
        task: u16,
        to: Worker,
        mask: u8,
        spec: Spec,
    },
    /// At the new owner: the task of another home runs here.
    Here {
        task: u16,
        from: Worker,
        mask: u8,
        spec: Spec,
    },
    /// At the old owner: the task runs here no more.
    Gone {
        task: u16,
    },
    /// At the home: the task runs here again.
    Home {
        task: u16,
        spec: Spec,
    },
}

/// One end of a copy of a patch, by the copy's number: an object that this worker sends to the peer, or receives
/// from it.
#[derive(Clone, Copy, Debug, PartialEq, Eq)]
pub struct PatchPart {
    pub number: u16,
    pub receives: bool,
    pub object: Object,
    pub peer: Worker,
}

impl Copied for Spec {
    fn copy(&self) -> Result<Spec, NoMemory> {
        Ok(Spec {
            func: self.func,
            params: self.params.copy()?,
            reads: self.reads.copy()?,
            writes: self.writes.copy()?,
        })
    }
}

impl Copied for Edit {
    fn copy(&self) -> Result<Edit, NoMemory> {
        Ok(match self {
            Edit::Away {
                task,
                to,
                mask,
                spec,
            } => Edit::Away {
                task: *task,
                to: *to,
                mask: *mask,
                spec: spec.copy()?,
            },
            Edit::Here {
                task,
                from,
                mask,
                spec,
            } => Edit::Here {
                task: *task,
                from: *from,
                mask: *mask,
                spec: spec.copy()?,
            },
            Edit::Gone { task } => Edit::Gone { task: *task },
            Edit::Home { task, spec } => Edit::Home {
                task: *task,
                spec: spec.copy()?,
            },
        })
    }
}

impl Copied for PatchPart {
    fn copy(&self) -> Result<PatchPart, NoMemory> {
        Ok(*self)
    }
}
