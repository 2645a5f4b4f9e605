ghost use Rattle.std.specs.Prelude.{◌≡◌, [], ◌∷◌, ◌++◌, OnOk, OnErr};

use crate::ControllerTemplate;
use nim_base::{Copied, NoMemory, Seq, TaskForm};
use std::alloc::Global;
use std::marker::Model;

/// Records the tasks of a block while its first instance is scheduled. Contracts see what is recorded so far.
#[derive(Debug, Drop)]
pub struct Recorder {
    template: ControllerTemplate,
}

impl Model for Recorder {
    ghost use Rattle.std.specs.Coded.{codes};
    ghost use Rattle.nim_template.specs.declared.template.ControllerTemplate.{ControllerTemplate as template_type};
    ghost use Rattle.nim_template.specs.contracts.template.ControllerTemplate as controller;

    ghost Value = { template_type };

    ghost coded = { Prim.hlevel (codes, controller.the_row.coded) };

    ghost view = { λ r. r.template };
}

impl Recorder {
    /// No task is recorded yet; takes no memory.
    pub fn new(alloc: Global, block: u8) -> Recorder
        ensures block { result.block ≡ block }
        ensures forms { result.forms ≡ [] }
    {
        let forms = Seq::new(alloc);
        Recorder {
            template: ControllerTemplate { block, forms },
        }
    }

    /// Records the next task. Where memory is refused, what is recorded stays as it was.
    pub fn push_form(&mut self, form: &TaskForm) -> Result<(), NoMemory>
        ensures block { OnOk result (self.new.block ≡ self.old.block) }
        ensures forms { OnOk result (self.new.forms ≡ self.old.forms ++ form.now ∷ []) }
        ensures err { OnErr result (self.new ≡ self.old) }
    {
        let copied = form.copy()?;
        self.template.forms.push(copied)
    }

    /// What was recorded.
    pub fn finish(self) -> ControllerTemplate
        ensures { result ≡ self }
    {
        let Recorder { template } = self;
        template
    }
}
