ghost use Rattle.std.specs.Prelude.{◌≡◌, ◌++◌, IfOk, OnOk};
ghost use Rattle.std.specs.List.{flat_map};
ghost use Rattle.nim_template.specs.Walk as spec;

use nim_base::{Copied, NoMemory, Param, Seq, Short, TaskForm, Version, Worker};
use nim_command::{Command, Entry, EntryKind, Kind};

/// Adds the entries of a form's commands.
pub(crate) fn push_all(
    entries: &mut Seq<(Worker, Entry)>,
    form: &TaskForm,
    commands: &[(Worker, Command)],
) -> Result<(), NoMemory>
    ensures { OnOk result (entries.new ≡ entries.old ++ flat_map (spec.entry_for form.now) commands.now) }
{
    for command in commands {
        push_entry(entries, form, command)?;
    }
    Ok(())
}

/// Adds the entry of a command.
fn push_entry(
    entries: &mut Seq<(Worker, Entry)>,
    form: &TaskForm,
    command: &(Worker, Command),
) -> Result<(), NoMemory>
    ensures { OnOk result (entries.new ≡ entries.old ++ spec.entry_for form.now command.now) }
{
    if let Some(kind) = entry_kind(form, &command.1.kind)? {
        let before = Short::new(entries.alloc());
        let id = command.1.id;
        entries.push((command.0, Entry { id, kind, before }))?;
    }
    Ok(())
}

/// What a command of a form's task is as an entry, if it is one.
fn entry_kind(form: &TaskForm, kind: &Kind) -> Result<Option<EntryKind>, NoMemory>
    ensures { IfOk result (λ entry. entry ≡ spec.entry_kind form.now kind.now) }
{
    Ok(match kind {
        Kind::Send { slot, peer, entry } => Some(EntryKind::Send {
            slot: *slot,
            peer: *peer,
            entry: *entry,
        }),
        Kind::Receive { slot, version } => Some(EntryKind::Receive {
            slot: *slot,
            offset: offset_for(*version),
        }),
        Kind::Run {
            func,
            reads,
            writes,
            ..
        } => Some(EntryKind::Run {
            func: *func,
            params: params_of(form)?,
            reads: reads.copy()?,
            writes: writes.copy()?,
        }),
        Kind::Create { .. } | Kind::Load { .. } | Kind::Copy { .. } | Kind::Fetch { .. } => None,
    })
}

/// The parameters of a form, as an entry has them.
fn params_of(form: &TaskForm) -> Result<Short<Param, 3>, NoMemory>
    ensures { IfOk result (λ params. params ≡ form.now.params) }
{
    Short::from_slice(form.params.alloc(), form.params.as_slice())
}

/// An offset as an entry has it.
pub(crate) fn offset_for(offset: Version) -> u16
    ensures { result ≡ spec.offset_for offset }
{
    match u16::try_from(offset) {
        Ok(offset) => offset,
        Err(_) => u16::MAX,
    }
}
