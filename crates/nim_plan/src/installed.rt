ghost use Rattle.std.specs.Prelude.{◌≡◌, ℕ, IfOk, OnOk, OnErr};
ghost use Rattle.nim_command.specs.Edits.{edited_by};
ghost use Rattle.nim_command.specs.Expansion as expansion;
ghost use Rattle.nim_message.specs.Orders.{none_yet, with_list};
ghost use Rattle.nim_plan.specs.Installed.{Has, HasHalfPlace, halves_of, patches_of};

use nim_base::{Copied, NoMemory, Position, Seq, Version};
use nim_command::{Command, Edit, Entry, Half, PatchPart, patch_commands};
use std::alloc::Global;
use std::collections::BTreeMap;

/// The halves and the patches that a worker was given since its last Reset, by number. What they come to is what a
/// list of orders does to them in `specs/Orders.antt` of the crate `nim_message`.
#[derive(Debug, Drop)]
pub struct Installed {
    pub(crate) alloc: Global,
    pub(crate) halves: BTreeMap<u8, Half>,
    pub(crate) patches: BTreeMap<u8, Seq<PatchPart>>,
}

impl Installed {
    /// None yet; takes no memory.
    pub fn new(alloc: Global) -> Installed
        ensures { Has result none_yet none_yet }
    {
        Installed {
            alloc,
            halves: BTreeMap::new(alloc),
            patches: BTreeMap::new(alloc),
        }
    }

    /// The half of a block, in place of the one that is there.
    pub fn install_template(&mut self, block: u8, entries: Seq<Entry>) -> Result<(), NoMemory>
        ensures ok { OnOk result (Has self.new (with_list block entries (halves_of self.old)) (patches_of self.old)) }
        ensures err { OnErr result (Has self.new (halves_of self.old) (patches_of self.old)) }
    {
        self.halves.insert(block, Half::from_entries(entries))?;
        Ok(())
    }

    /// The copies of a patch, in place of those that are there.
    pub fn install_patch(&mut self, patch: u8, copies: Seq<PatchPart>) -> Result<(), NoMemory>
        ensures ok { OnOk result (Has self.new (halves_of self.old) (with_list patch copies (patches_of self.old))) }
        ensures err { OnErr result (Has self.new (halves_of self.old) (patches_of self.old)) }
    {
        self.patches.insert(patch, copies)?;
        Ok(())
    }

    /// Edits the half of a block, and gives the commands that it then stands for.
    pub fn instantiate(
        &mut self,
        block: u8,
        base: Position,
        args: &[i64],
        versions: &[Version],
        edits: &[Edit],
    ) -> Result<Vec<Command>, NoMemory>
        ensures ok { OnOk result (Has self.new (with_list block (edited_by edits.now (halves_of self.old block))
            (halves_of self.old)) (patches_of self.old)) }
        ensures commands { IfOk result (λ commands. commands.items
            ≡ expansion.expanded base args.now versions.now 0 (edited_by edits.now (halves_of self.old block))) }
        ensures err { OnErr result (Has self.new (halves_of self.old) (patches_of self.old)) }
    {
        let (half, commands) = self.instance(block, base, args, versions, edits)?;
        self.halves.insert(block, half)?;
        Ok(commands)
    }

    /// The half of a block as edits leave it, and the commands that it then stands for; nothing is edited yet.
    pub fn instance(
        &self,
        block: u8,
        base: Position,
        args: &[i64],
        versions: &[Version],
        edits: &[Edit],
    ) -> Result<(Half, Vec<Command>), NoMemory>
        ensures half { IfOk result (λ made. made.0 ≡ edited_by edits.now (halves_of self.now block)) }
        ensures commands { IfOk result (λ made. made.1.items
            ≡ expansion.expanded base args.now versions.now 0 (edited_by edits.now (halves_of self.now block))) }
    {
        let half = self.edited(block, edits)?;
        let commands = half.commands(base, args, versions)?;
        Ok((half, commands))
    }

    /// Makes a place for the half of a block, so that `replace` needs no memory.
    pub fn make_place(&mut self, block: u8) -> Result<(), NoMemory>
        ensures has { Has self.new (halves_of self.old) (patches_of self.old) }
        ensures place { OnOk result (HasHalfPlace self.new block) }
    {
        if !self.halves.contains_key(&block) {
            self.halves.insert(block, Half::empty(self.alloc))?;
        }
        Ok(())
    }

    /// The half of a block, in the place that there is; takes no memory.
    pub fn replace(&mut self, block: u8, half: Half)
        requires { HasHalfPlace self.old block }
        ensures { Has self.new (with_list block half (halves_of self.old)) (patches_of self.old) }
    {
        let _ = self.halves.insert(block, half);
    }

    /// The commands of a patch.
    pub fn run_patch(&self, patch: u8, versions: &[Version]) -> Result<Vec<Command>, NoMemory>
        ensures { IfOk result (λ commands. commands.items
            ≡ expansion.patch_commands versions.now (patches_of self.now patch)) }
    {
        match self.patches.get(&patch) {
            Some(copies) => patch_commands(self.alloc, versions, copies.as_slice()),
            None => patch_commands(self.alloc, versions, &[]),
        }
    }

    /// The half of a block after edits.
    fn edited(&self, block: u8, edits: &[Edit]) -> Result<Half, NoMemory>
        ensures { IfOk result (λ half. half ≡ edited_by edits.now (halves_of self.now block)) }
    {
        let mut half = self.half(block)?;
        for edit in edits {
            half.apply_edit(edit)?;
        }
        Ok(half)
    }

    /// A copy of the half of a block.
    fn half(&self, block: u8) -> Result<Half, NoMemory>
        ensures { IfOk result (λ half. half ≡ halves_of self.now block) }
    {
        match self.halves.get(&block) {
            Some(half) => half.copy(),
            None => Ok(Half::empty(self.alloc)),
        }
    }
}
