ghost use Rattle.std.specs.Prelude.{◌≡◌, ◌+◌, ◌<◌, ◌^◌, ◌++◌, ◌∷◌, [], ℕ, false, true, List, IfSome, OnOk, OnErr};
ghost use Rattle.std.specs.BTreeMap.{get};
ghost use Rattle.std.specs.Option.{option_copied, option_map};
ghost use Rattle.std.specs.Ordering.{nat_cmp};
ghost use Rattle.nim_command.specs.Waits.{Group as group_type};
ghost use Rattle.nim_order.specs.Progress.{is_one_of};
ghost use Rattle.nim_queue.specs.Stands.{StandsForGroups as QueueStands, outstanding_command, command_count, is_after, ready_of};
ghost use Rattle.nim_worker.specs.Admitted.{Closes, CountsDown, IsAdmitted, KeepsTable, Opens, IsGroupOf, ended_at, head_at, one_less};

use crate::head::GroupHead;
use nim_base::NoMemory;
use nim_command::Command;
use nim_queue::BeforeQueue;
use std::alloc::Global;
use std::collections::BTreeMap;

/// The commands that a worker was asked for since its last Reset and that aren't complete. Which groups of commands it
/// stands for, and which of them are complete, is `IsAdmitted` of `specs/Admitted.antt`.
#[derive(Drop)]
pub(crate) struct Admitted {
    pub(crate) queue: BeforeQueue,
    /// How many groups were given, and those of them that have commands which aren't complete, by number.
    pub(crate) given: u64,
    pub(crate) unfinished: BTreeMap<u64, OpenGroup>,
}

/// A group that isn't complete: what is known of it, whether its end is told, and how many of its commands are left.
#[derive(Clone, Copy, Debug)]
pub(crate) struct OpenGroup {
    pub(crate) head: GroupHead,
    pub(crate) told: bool,
    pub(crate) left: u64,
}

/// A command that has become complete, what is known of its group, and whether it is to be told that the group is
/// through.
#[derive(Drop)]
pub(crate) struct Ended {
    pub(crate) command: Command,
    pub(crate) head: GroupHead,
    pub(crate) through: bool,
}

impl Admitted {
    /// Was given no group; takes no memory.
    pub(crate) fn new(alloc: Global) -> Admitted
        ensures { IsAdmitted result [] [] }
    {
        Admitted {
            queue: BeforeQueue::new(alloc),
            given: 0,
            unfinished: BTreeMap::new(alloc),
        }
    }

    /// Takes a group of commands behind all others, with all memory that they will need.
    pub(crate) fn admit(
        &mut self,
        head: GroupHead,
        told: bool,
        commands: Vec<Command>,
    ) -> Result<(), NoMemory>
        ensures ok { (groups : List group_type) (ran : List ℕ) (next : group_type) → IsAdmitted self.old groups ran
            → IsGroupOf head told commands.items next
            → OnOk result (IsAdmitted self.new (groups ++ next ∷ []) ran) }
        ensures err { (groups : List group_type) (ran : List ℕ) → IsAdmitted self.old groups ran
            → OnErr result (IsAdmitted self.new groups ran) }
    {
        if self.given == u64::MAX {
            return Err(NoMemory);
        }
        self.open_group(head, told, commands.len() as u64)?;
        self.enqueue(commands)
    }

    /// Opens the next group, where it has commands.
    fn open_group(&mut self, head: GroupHead, told: bool, left: u64) -> Result<(), NoMemory>
        ensures queue { self.new.queue ≡ self.old.queue }
        ensures given { self.new.given ≡ self.old.given }
        ensures ok { OnOk result (Opens self.old.unfinished self.old.given
            (record { head = head; told = told; left = left }) self.new.unfinished) }
        ensures err { OnErr result (KeepsTable self.old.unfinished self.new.unfinished) }
    {
        if left > 0 {
            self.unfinished
                .insert(self.given, OpenGroup { head, told, left })?;
        }
        Ok(())
    }

    /// Gives the commands of the group that was opened to the queue; closes the group again where memory is refused.
    fn enqueue(&mut self, commands: Vec<Command>) -> Result<(), NoMemory>
        requires { self.old.given + 1 < 2 ^ 64 }
        ensures queue { (groups : List group_type) (ran : List ℕ) (next : group_type)
            → QueueStands self.old.queue groups (is_one_of ran) → next.commands ≡ commands.items
            → OnOk result (QueueStands self.new.queue (groups ++ next ∷ []) (is_one_of ran)) }
        ensures given { OnOk result (self.new.given ≡ self.old.given + 1) }
        ensures table { OnOk result (self.new.unfinished ≡ self.old.unfinished) }
        ensures err { (groups : List group_type) (ran : List ℕ) → QueueStands self.old.queue groups (is_one_of ran)
            → OnErr result (QueueStands self.new.queue groups (is_one_of ran)) }
        ensures same { OnErr result (self.new.given ≡ self.old.given) }
        ensures closed { OnErr result (Closes self.old.unfinished self.old.given self.new.unfinished) }
    {
        match self.queue.admit(commands) {
            Ok(()) => {
                self.given += 1;
                Ok(())
            }
            Err(NoMemory) => {
                self.unfinished.remove(&self.given);
                Err(NoMemory)
            }
        }
    }

    /// The ticket of the first command after the given one, the first of all where none is given, that isn't complete
    /// and whose waits are all complete; takes no memory.
    pub(crate) fn ready(&self, after: Option<u64>) -> Option<u64>
        ensures first { (groups : List group_type) (ran : List ℕ) → IsAdmitted self.now groups ran
            → result ≡ ready_of groups (is_one_of ran) after }
        ensures later { IfSome result (λ ticket. is_after after ticket ≡ true) }
    {
        self.queue.ready(after)
    }

    /// The command of a ticket, while it isn't complete; takes no memory.
    pub(crate) fn command(&self, ticket: u64) -> Option<&Command>
        ensures { (groups : List group_type) (ran : List ℕ) → IsAdmitted self.now groups ran
            → option_copied result ≡ outstanding_command groups (is_one_of ran) ticket }
    {
        self.queue.command(ticket)
    }

    /// What is known of the group of a command, while it isn't complete; takes no memory.
    pub(crate) fn head(&self, ticket: u64) -> Option<GroupHead>
        ensures { (groups : List group_type) (ran : List ℕ) → IsAdmitted self.now groups ran
            → result ≡ head_at groups ran ticket }
    {
        match self.queue.group(ticket) {
            Some(number) => head_in(&self.unfinished, number),
            None => None,
        }
    }

    /// The command of a ticket is complete; gives it where it wasn't.
    pub(crate) fn complete(&mut self, ticket: u64) -> Option<Ended>
        ensures ended { (groups : List group_type) (ran : List ℕ) → IsAdmitted self.old groups ran
            → ticket < command_count groups → is_one_of ran ticket ≡ false
            → result ≡ ended_at groups ran ticket }
        ensures stands { (groups : List group_type) (ran : List ℕ) → IsAdmitted self.old groups ran
            → ticket < command_count groups → is_one_of ran ticket ≡ false
            → IsAdmitted self.new groups (ran ++ ticket ∷ []) }
    {
        let (Some(number), Some(command)) = (self.queue.group(ticket), self.queue.complete(ticket))
        else {
            return None;
        };
        match count_down(&mut self.unfinished, number) {
            Some(group) => Some(Ended {
                command,
                head: group.head,
                through: group.told && group.left == 0,
            }),
            None => None,
        }
    }
}

fn head_in(unfinished: &BTreeMap<u64, OpenGroup>, number: u64) -> Option<GroupHead>
    ensures { result ≡ option_map (λ group. group.head) (get nat_cmp unfinished.now number) }
{
    match unfinished.get(&number) {
        Some(group) => Some(group.head),
        None => None,
    }
}

/// One command less is left of a group; it goes with the last.
fn count_down(unfinished: &mut BTreeMap<u64, OpenGroup>, number: u64) -> Option<OpenGroup>
    ensures group { result ≡ option_map one_less (get nat_cmp unfinished.old number) }
    ensures table { CountsDown unfinished.old number unfinished.new }
{
    let Some(mut group) = unfinished.get(&number).copied() else {
        return None;
    };
    group.left = group.left.saturating_sub(1);
    if group.left == 0 {
        unfinished.remove(&number);
    } else {
        let _ = unfinished.insert(number, group);
    }
    Some(group)
}
