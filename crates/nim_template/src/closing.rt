ghost use Rattle.std.specs.Prelude.{◌≡◌, ◌++◌, IfOk, OnOk};
ghost use Rattle.nim_template.specs.Closing as spec;

use crate::entry::offset_for;
use crate::walk::received;
use nim_base::{NoMemory, Object, Seq, Short, Slot, Worker};
use nim_command::{Entry, EntryKind};
use nim_place::VersionMap;
use std::alloc::Global;

/// A copy behind the last task of a block: who sends an object to whom, and the offset of what it has.
#[derive(Clone, Copy, Debug)]
pub(crate) struct Closing {
    pub(crate) from: Worker,
    pub(crate) to: Worker,
    pub(crate) object: Object,
    pub(crate) offset: u16,
}

/// The closing copies for needs in order. The map takes them in.
pub(crate) fn closings(
    alloc: Global,
    offsets: &mut VersionMap,
    needs: &[(Worker, Object)],
) -> Result<Vec<Closing>, NoMemory>
    ensures copies { IfOk result (λ copies. copies.items ≡ spec.closings offsets.old needs.now) }
    ensures closed { IfOk result (λ copies. offsets.new ≡ spec.after_closings offsets.old needs.now) }
{
    let mut copies = Vec::new(alloc);
    for need in needs {
        close(alloc, &mut copies, offsets, *need)?;
    }
    Ok(copies)
}

/// The closing copy for one need, if it has one.
fn close(
    alloc: Global,
    copies: &mut Vec<Closing>,
    offsets: &mut VersionMap,
    need: (Worker, Object),
) -> Result<(), NoMemory>
    ensures copies { OnOk result (copies.new.items ≡ copies.old.items ++ spec.closing_for offsets.old need) }
    ensures offsets { OnOk result (offsets.new ≡ spec.closed_for offsets.old need) }
{
    let (to, object) = need;
    if let Some(from) = closing_from(offsets, to, object) {
        let last = offsets.latest(object);
        let offset = offset_for(last);
        copies.push(Closing {
            from,
            to,
            object,
            offset,
        })?;
        offsets.apply_command(to, &received(alloc, object, last));
    }
    Ok(())
}

/// Who sends a worker an object that it needs at entry, if it lacks the last version.
fn closing_from(offsets: &VersionMap, worker: Worker, object: Object) -> Option<Worker>
    ensures { result ≡ spec.closing_from offsets.now (worker, object) }
{
    if offsets.is_current(object, worker) {
        None
    } else {
        offsets.holder(object)
    }
}

/// Adds the entries of closing copies.
pub(crate) fn push_closings(
    entries: &mut Seq<(Worker, Entry)>,
    copies: &[Closing],
) -> Result<(), NoMemory>
    ensures { OnOk result (entries.new ≡ entries.old ++ spec.closing_entries 0 copies.now) }
{
    let alloc = entries.alloc();
    for (index, copy) in copies.iter().enumerate() {
        entries.push(closing_send(alloc, index, copy))?;
        entries.push(closing_receive(alloc, index, copy))?;
    }
    Ok(())
}

fn closing_send(alloc: Global, index: usize, copy: &Closing) -> (Worker, Entry)
    ensures { result ≡ spec.closing_send index copy.now }
{
    let id = closing_number(index);
    let kind = EntryKind::Send {
        slot: Slot(copy.object.0),
        peer: copy.to,
        entry: id,
    };
    let before = Short::new(alloc);
    (copy.from, Entry { id, kind, before })
}

fn closing_receive(alloc: Global, index: usize, copy: &Closing) -> (Worker, Entry)
    ensures { result ≡ spec.closing_receive index copy.now }
{
    let kind = EntryKind::Receive {
        slot: Slot(copy.object.0),
        offset: copy.offset,
    };
    let id = closing_number(index);
    let before = Short::new(alloc);
    (copy.to, Entry { id, kind, before })
}

/// The number of a closing copy, at both its ends.
fn closing_number(index: usize) -> u32
    ensures { result ≡ spec.closing_number index }
{
    match u32::try_from(index) {
        Ok(index) => index.saturating_add(65_536),
        Err(_) => u32::MAX,
    }
}
