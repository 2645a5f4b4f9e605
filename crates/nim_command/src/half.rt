ghost use Rattle.std.specs.Prelude.{◌≡◌, [], IfOk, OnOk, OnErr};
ghost use Rattle.nim_command.specs.Edits as edits;
ghost use Rattle.nim_command.specs.Expansion as expansion;

use crate::edited::edited;
use crate::expansion::expanded;
use crate::{Command, Edit, Entry};
use nim_base::{Copied, NoMemory, Position, Seq, Version};
use std::alloc::Global;
use std::marker::Model;

/// What one worker does for each instance of a block: its entries, in ascending number. Contracts see their list.
#[derive(Debug, Drop)]
pub struct Half {
    entries: Seq<Entry>,
}

impl Model for Half {
    ghost use Rattle.std.specs.Prelude.{List};
    ghost use Rattle.std.specs.Coded.{codes};
    ghost use Rattle.nim_command.specs.declared.entry.Entry.{Entry as entry_type};
    ghost use Rattle.nim_command.specs.contracts.entry.Entry as entry;

    ghost Value = { List entry_type };

    ghost coded = { Prim.hlevel (codes, entry.the_row.coded) };

    ghost view = { λ h. h.entries };
}

impl Half {
    /// No entries; takes no memory.
    pub fn empty(alloc: Global) -> Half
        ensures { result ≡ [] }
    {
        Half {
            entries: Seq::new(alloc),
        }
    }

    /// The half with these entries, as an order to install it gives them.
    pub fn from_entries(entries: Seq<Entry>) -> Half
        ensures { result ≡ entries }
    {
        Half { entries }
    }

    /// All entries, in ascending number.
    pub fn entries(&self) -> &[Entry]
        ensures { result.now ≡ self.now }
    {
        self.entries.as_slice()
    }

    /// What the half stands for in an instance of its block: the position of the block's task 0, its arguments, and
    /// the versions of what is received as the block began with it. A missing argument or version is 0. Its meaning is
    /// `expanded` of `specs/Expansion.antt`.
    pub fn commands(
        &self,
        base: Position,
        args: &[i64],
        versions: &[Version],
    ) -> Result<Vec<Command>, NoMemory>
        ensures { IfOk result (λ commands. commands.items ≡ expansion.expanded base args.now versions.now 0 self.now) }
    {
        expanded(
            self.entries.alloc(),
            self.entries.as_slice(),
            base,
            args,
            versions,
        )
    }

    /// Takes away and puts what the edit says, and makes all before sets anew. Its meaning is `edited` of
    /// `specs/Edits.antt`. Where memory is refused the half is as it was.
    pub fn apply_edit(&mut self, edit: &Edit) -> Result<(), NoMemory>
        ensures ok { OnOk result (self.new ≡ edits.edited edit.now self.old) }
        ensures err { OnErr result (self.new ≡ self.old) }
    {
        let after = edited(self.entries.alloc(), self.entries.as_slice(), edit)?;
        self.entries = Seq::from_vec(after);
        Ok(())
    }
}

impl Copied for Half {
    fn copy(&self) -> Result<Half, NoMemory> {
        Ok(Half {
            entries: self.entries.copy()?,
        })
    }
}
