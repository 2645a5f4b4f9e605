ghost use Rattle.std.specs.Prelude.{◌≡◌, ◌≤◌, ◌<◌, ◌+◌, ◌^◌, false, length, slice_get, IfOk, IsSomeAnd, OnOk};
ghost use Rattle.nim_command.specs.Waits.{commands_of, members_of, placed_commands, waits_of};
ghost use Rattle.nim_message.specs.Orders as orders;
ghost use Rattle.nim_message.specs.Orders.{Session, after_order, counted, does_count, session_of};
ghost use Rattle.nim_plan.specs.Listing.{IsListing, IsPushed, is_epoch};

use crate::Installed;
use crate::member::Member;
use crate::waits::{number, waits};
use nim_base::{Copied, Epoch, NoMemory};
use nim_command::Command;
use nim_message::ToWorker;
use std::alloc::Global;

/// The commands that the orders to one worker ask for since their last Reset, in order: each has its place as its
/// number, and waits for the places that it waits for.
pub fn commands(alloc: Global, orders: &[ToWorker]) -> Result<Vec<Command>, NoMemory>
    requires { length (commands_of (session_of orders.now).groups) < 2 ^ 32 }
    ensures { IfOk result (λ commands. commands.items ≡ placed_commands (session_of orders.now).groups) }
{
    let members = listed(alloc, orders)?;
    let mut commands = Vec::new(alloc);
    for place in 0..members.len() {
        commands.push(placed(alloc, members.as_slice(), place)?)?;
    }
    Ok(commands)
}

/// The command at a place, with the place as its number, and the places that it waits for.
fn placed(alloc: Global, members: &[Member], place: usize) -> Result<Command, NoMemory>
    requires place { place < length members.now }
    requires few { length members.now < 2 ^ 32 }
    ensures { IfOk result (λ command. IsSomeAnd (slice_get members.now place)
        (λ m. command ≡ record m.command { id = place; before = waits_of members.now place })) }
{
    let member = &members[place];
    let command = &member.command;
    Ok(Command {
        id: number(place),
        kind: command.kind.copy()?,
        before: waits(alloc, members, place)?,
    })
}

/// The commands that orders ask for since their last Reset, in order.
fn listed(alloc: Global, orders: &[ToWorker]) -> Result<Vec<Member>, NoMemory>
    ensures { IfOk result (λ members. members.items ≡ members_of (session_of orders.now).groups) }
{
    let mut listing = Listing {
        alloc,
        epoch: None,
        groups: 0,
        members: Vec::new(alloc),
        installed: Installed::new(alloc),
    };
    for order in orders {
        listing.take(order)?;
    }
    Ok(listing.members)
}

/// What orders come to so far: the epoch since the last Reset, how many orders of it ask for commands, these commands,
/// and the halves and patches that there are.
#[derive(Drop)]
struct Listing {
    alloc: Global,
    epoch: Option<Epoch>,
    groups: usize,
    members: Vec<Member>,
    installed: Installed,
}

impl Listing {
    /// Takes one more order; one of another epoch is passed over.
    fn take(&mut self, order: &ToWorker) -> Result<(), NoMemory>
        requires room { self.now.groups + 1 < 2 ^ 64 }
        ensures listing { (session : Session) → IsListing self.old session
            → OnOk result (IsListing self.new (after_order session order.now)) }
        ensures groups { OnOk result (self.new.groups ≤ self.old.groups + 1) }
    {
        if self.is_current(epoch_named(order)) {
            self.count(order)
        } else {
            self.pass(order);
            Ok(())
        }
    }

    fn is_current(&self, epoch: Option<Epoch>) -> bool
        ensures { result ≡ is_epoch self.now.epoch epoch }
    {
        match (self.epoch, epoch) {
            (Some(current), Some(epoch)) => epoch == current,
            _ => false,
        }
    }

    /// Takes an order that doesn't count: a Reset begins an epoch with nothing before it.
    fn pass(&mut self, order: &ToWorker)
        ensures listing { (session : Session) → does_count session order.now ≡ false → IsListing self.old session
            → IsListing self.new (after_order session order.now) }
        ensures groups { self.new.groups ≤ self.old.groups }
    {
        match order {
            ToWorker::Reset { epoch, .. } => {
                self.epoch = Some(*epoch);
                self.groups = 0;
                self.members.clear();
                self.installed = Installed::new(self.alloc);
            }
            ToWorker::Single { .. }
            | ToWorker::InstallTemplate { .. }
            | ToWorker::Instantiate { .. }
            | ToWorker::InstallPatch { .. }
            | ToWorker::RunPatch { .. }
            | ToWorker::Stop => {}
        }
    }

    /// Takes an order of the epoch.
    fn count(&mut self, order: &ToWorker) -> Result<(), NoMemory>
        requires room { self.now.groups + 1 < 2 ^ 64 }
        ensures listing { (session : Session) → IsListing self.old session
            → OnOk result (IsListing self.new (counted session order.now)) }
        ensures groups { OnOk result (self.new.groups ≤ self.old.groups + 1) }
    {
        match order {
            ToWorker::Single { commands, .. } => {
                let commands = commands.copy()?;
                self.push_group(commands.into_vec())
            }
            ToWorker::InstallTemplate { block, entries, .. } => {
                self.installed.install_template(*block, entries.copy()?)
            }
            ToWorker::Instantiate {
                block,
                base,
                args,
                versions,
                edits,
                ..
            } => {
                let commands = self.installed.instantiate(
                    *block,
                    *base,
                    args.as_slice(),
                    versions.as_slice(),
                    edits.as_slice(),
                )?;
                self.push_group(commands)
            }
            ToWorker::InstallPatch { patch, copies, .. } => {
                self.installed.install_patch(*patch, copies.copy()?)
            }
            ToWorker::RunPatch {
                patch,
                versions,
                ..
            } => {
                let commands = self.installed.run_patch(*patch, versions.as_slice())?;
                self.push_group(commands)
            }
            ToWorker::Reset { .. } | ToWorker::Stop => Ok(()),
        }
    }

    /// Appends the commands of one more order.
    fn push_group(&mut self, commands: Vec<Command>) -> Result<(), NoMemory>
        requires room { self.now.groups + 1 < 2 ^ 64 }
        ensures { OnOk result (IsPushed self.old commands.items self.new) }
    {
        for command in commands {
            self.members.push(Member {
                group: self.groups,
                command,
            })?;
        }
        self.groups += 1;
        Ok(())
    }
}

/// The epoch that an order names, if it is of one.
fn epoch_named(order: &ToWorker) -> Option<Epoch>
    ensures { result ≡ orders.epoch_named order.now }
{
    match order {
        ToWorker::Single { epoch, .. }
        | ToWorker::InstallTemplate { epoch, .. }
        | ToWorker::Instantiate { epoch, .. }
        | ToWorker::InstallPatch { epoch, .. }
        | ToWorker::RunPatch { epoch, .. } => Some(*epoch),
        ToWorker::Reset { .. } | ToWorker::Stop => None,
    }
}
