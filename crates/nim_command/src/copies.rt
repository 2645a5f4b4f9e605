use crate::{Command, Kind};
use nim_base::{Copied, NoMemory};

impl Copied for Kind {
    fn copy(&self) -> Result<Kind, NoMemory> {
        Ok(match self {
            Kind::Create { slot, iota, number } => Kind::Create {
                slot: *slot,
                iota: *iota,
                number: *number,
            },
            Kind::Load {
                slot,
                version,
                value,
            } => Kind::Load {
                slot: *slot,
                version: *version,
                value: value.copy()?,
            },
            Kind::Send { slot, peer, entry } => Kind::Send {
                slot: *slot,
                peer: *peer,
                entry: *entry,
            },
            Kind::Receive { slot, version } => Kind::Receive {
                slot: *slot,
                version: *version,
            },
            Kind::Copy { from, to } => Kind::Copy {
                from: *from,
                to: *to,
            },
            Kind::Run {
                position,
                func,
                params,
                reads,
                writes,
            } => Kind::Run {
                position: *position,
                func: *func,
                params: params.copy()?,
                reads: reads.copy()?,
                writes: writes.copy()?,
            },
            Kind::Fetch { slot, ticket } => Kind::Fetch {
                slot: *slot,
                ticket: *ticket,
            },
        })
    }
}

impl Copied for Command {
    fn copy(&self) -> Result<Command, NoMemory> {
        Ok(Command {
            id: self.id,
            kind: self.kind.copy()?,
            before: self.before.copy()?,
        })
    }
}
