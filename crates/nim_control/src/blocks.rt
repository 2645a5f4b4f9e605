ghost use Rattle.std.specs.Prelude.{◌≡◌, [], slice_index_or, IfOk, IsTrue};
ghost use Rattle.nim_job.specs.Objects.{objects_of};
ghost use Rattle.nim_job.specs.Whole.{are_vars, is_whole};
ghost use Rattle.nim_control.specs.Form.{forms_in};

use nim_base::{NoMemory, Seq, TaskForm};
use nim_job::{Job, Var, block_forms};
use std::alloc::Global;

/// The tasks of each block in order, their arguments not yet put in.
pub(crate) fn all_forms(alloc: Global, job: &Job) -> Result<Vec<Seq<TaskForm>>, NoMemory>
    requires { IsTrue (is_whole job.now) }
    ensures { IfOk result (λ forms. forms.items ≡ forms_in job.now) }
{
    let mut forms = Vec::new(alloc);
    for block in 0..job.blocks.len() {
        forms.push(Seq::from_vec(block_forms(alloc, job, block as u8)?))?;
    }
    Ok(forms)
}

/// How many objects variables have.
pub(crate) fn objects(vars: &[Var]) -> u16
    requires { IsTrue (are_vars vars.now) }
    ensures { result ≡ objects_of vars.now }
{
    let mut objects = 0u16;
    for var in vars {
        objects += var.parts as u16;
    }
    objects
}

/// The tasks of a block in order, their arguments not yet put in; none where there is no such block.
pub(crate) fn forms_of(forms: &[Seq<TaskForm>], block: u8) -> &[TaskForm]
    ensures { result.now ≡ slice_index_or forms.now block [] }
{
    match forms.get(usize::from(block)) {
        Some(forms) => forms.as_slice(),
        None => &[],
    }
}
