ghost use Rattle.std.specs.Prelude.{◌≡◌, length};
ghost use Rattle.nim_edit.specs.Form.{IsInForm};

use crate::forms::all_fit;
use crate::scene::Scene;
use nim_base::{Seq, Worker};
use nim_command::WorkerTemplate;
use nim_edit::{EditFault, EditRefused, built_is_in_form, migrate};
use nim_lines::LineFault;
use nim_template::{ControllerTemplate, build_halves};
use std::alloc::Global;

/// A template that was built, and of which tasks were moved since.
#[derive(Drop)]
pub struct Movable {
    pub template: WorkerTemplate,
    ghost form: { IsInForm template },
}

impl Movable {
    /// The template of a block, as it is built.
    pub fn build(
        alloc: Global,
        recorded: &ControllerTemplate,
        scene: &Scene,
    ) -> Result<Movable, LineFault> {
        let objects = scene.objects;
        if recorded.forms.len() > 1024 || !all_fit(objects, recorded.forms.as_slice()) {
            return Err(LineFault::Form("the tasks don't fit into a block"));
        }
        let live = scene.live.as_slice();
        let template = build_halves(alloc, recorded, &scene.place, objects, live)?;
        built_is_in_form(&template, recorded, &scene.place, objects, live);
        Ok(Movable { template })
    }

    /// Moves a task to a worker; tells why not, where the move is refused.
    pub fn move_to(
        &mut self,
        task: u16,
        to: Worker,
        live: &[bool],
    ) -> Result<Option<EditRefused>, LineFault> {
        if live.len() != self.template.built.len() {
            return Err(LineFault::Form("the template has other workers"));
        }
        refusal_in(migrate(&mut self.template, task, to, live))
    }

    /// No edit waits any more, as behind the next instance.
    pub fn send(&mut self, alloc: Global) {
        self.template.unsent = Seq::new(alloc);
    }
}

/// Why a move is refused, if it is.
fn refusal_in(outcome: Result<(), EditFault>) -> Result<Option<EditRefused>, LineFault> {
    match outcome {
        Ok(()) => Ok(None),
        Err(EditFault::Refused(refused)) => Ok(Some(refused)),
        Err(EditFault::NoMemory) => Err(LineFault::NoMemory),
    }
}
