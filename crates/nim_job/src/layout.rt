ghost use Rattle.std.specs.Prelude.{◌≡◌, ◌<◌, ◌≤◌, ℕ, true, length, map, slice_index, IfOk, IsTrue};
ghost use Rattle.std.specs.List.{list_all};
ghost use Rattle.nim_job.specs.Objects.{first_object, parts_of};
ghost use Rattle.nim_job.specs.Tasks.{object_meant, part_of, task_count};
ghost use Rattle.nim_job.specs.Whole.{are_vars, is_place, is_ref};

use crate::{Place, Ref, Stage, Var};
use nim_base::{NoMemory, Object, Seq};
use std::alloc::Global;

/// How many tasks a stage has: one for each part of the first variable that it writes, or one. Its meaning is
/// `task_count` of `specs/Tasks.antt`.
pub fn task_count(vars: &[Var], stage: &Stage) -> u32
    ensures { result ≡ task_count vars.now stage.now }
{
    if !stage.each {
        return 1;
    }
    match stage.writes.as_slice().first() {
        Some(reference) => parts(vars, reference.var),
        None => 0,
    }
}

/// The object that is part 0 of a variable. Its meaning is `first_object` of `specs/Objects.antt`.
pub fn first_object(vars: &[Var], var: u8) -> u16
    requires vars { IsTrue (are_vars vars.now) }
    requires there { var < length vars.now }
    ensures { result ≡ first_object vars.now var }
{
    let mut first = 0;
    for var in &vars[..usize::from(var)] {
        first += var.parts as u16;
    }
    first
}

/// The variables, and for each the object that is its part 0.
#[derive(Drop)]
pub(crate) struct Layout<'a> {
    vars: &'a [Var],
    firsts: Vec<u16>,
    ghost whole: { IsTrue (are_vars vars.now) },
    ghost each: { (k : ℕ) → k < length vars.now → slice_index firsts.items k ≡ first_object vars.now k },
    ghost length: { length firsts.items ≡ length vars.now },
}

impl<'a> Layout<'a> {
    pub(crate) fn new(alloc: Global, vars: &'a [Var]) -> Result<Layout<'a>, NoMemory>
        requires { IsTrue (are_vars vars.now) }
        ensures { IfOk result (λ layout. layout.vars.now ≡ vars.now) }
    {
        let mut firsts = Vec::new(alloc);
        let mut next = 0;
        for var in vars {
            firsts.push(next)?;
            next += var.parts as u16;
        }
        Ok(Layout { vars, firsts })
    }

    /// How many tasks a stage has.
    pub(crate) fn task_count(&self, stage: &Stage) -> u32
        ensures { result ≡ task_count self.now.vars.now stage.now }
    {
        task_count(self.vars, stage)
    }

    /// The objects that references mean at task `index` of their stage, in order.
    pub(crate) fn objects(
        &self,
        alloc: Global,
        references: &[Ref],
        index: u32,
    ) -> Result<Seq<Object>, NoMemory>
        requires references { IsTrue (list_all (is_ref self.now.vars.now true) references.now) }
        requires index { index < 64 }
        ensures { IfOk result (λ objects. objects ≡ map (object_meant self.now.vars.now index) references.now) }
    {
        let mut objects = Seq::new(alloc);
        for reference in references {
            objects.push(self.object(*reference, index))?;
        }
        Ok(objects)
    }

    /// The object that a reference means at task `index` of its stage.
    fn object(&self, reference: Ref, index: u32) -> Object
        requires reference { IsTrue (is_ref self.now.vars.now true reference) }
        requires index { index < 64 }
        ensures { result ≡ object_meant self.now.vars.now index reference }
    {
        let part = part(reference.place, index, parts(self.vars, reference.var));
        Object(self.firsts[usize::from(reference.var)] + part as u16)
    }
}

/// The object that a reference means at task `index` of its stage, without a table of the first objects.
pub(crate) fn object(vars: &[Var], reference: Ref, index: u32) -> Object
    requires vars { IsTrue (are_vars vars.now) }
    requires reference { IsTrue (is_ref vars.now true reference) }
    requires index { index < 64 }
    ensures { result ≡ object_meant vars.now index reference }
{
    let part = part(reference.place, index, parts(vars, reference.var));
    Object(first_object(vars, reference.var) + part as u16)
}

/// How many parts a variable has; 0 where it isn't there.
fn parts(vars: &[Var], var: u8) -> u32
    ensures { result ≡ parts_of vars.now var }
{
    match vars.get(usize::from(var)) {
        Some(found) => found.parts,
        None => 0,
    }
}

/// The part that a place means at task `index` of its stage.
#[tactic(auto, using(crate::proofs::Whole::plus_part))]
fn part(place: Place, index: u32, parts: u32) -> u32
    requires index { index < 64 }
    requires parts { 1 ≤ parts }
    ensures part { result ≡ part_of place index parts }
    ensures within { result < parts }
{
    let parts = u64::from(parts);
    let index = u64::from(index);
    let part = match place {
        Place::Fixed(number) => number % parts,
        Place::Plus(number) => (index + number % parts) % parts,
        Place::Minus(number) => (index + (parts - number % parts)) % parts,
    };
    part as u32
}
