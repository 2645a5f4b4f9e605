use crate::lists::are_same;
use crate::movable::Movable;
use crate::scene::Scene;
use nim_base::{Copied, Worker};
use nim_command::WorkerTemplate;
use nim_lines::{LineFault, halves, number, push_count};
use nim_template::ControllerTemplate;
use std::alloc::Global;

/// Whether a template's halves are those of its block built anew, with each task moved straight to its owner.
pub fn is_straight(
    alloc: Global,
    template: &WorkerTemplate,
    scene: &Scene,
) -> Result<bool, LineFault> {
    let mut fresh = Movable::build(alloc, &recorded(template)?, scene)?;
    for (task, owner) in template.owners.as_slice().iter().enumerate() {
        move_straight(alloc, &mut fresh, task, *owner, scene)?;
    }
    are_same(
        alloc,
        template.halves.as_slice(),
        fresh.template.halves.as_slice(),
    )
}

fn recorded(template: &WorkerTemplate) -> Result<ControllerTemplate, LineFault> {
    Ok(ControllerTemplate {
        block: template.block,
        forms: template.forms.copy()?,
    })
}

/// Moves a task to a worker, where it isn't there, and sends the edits.
fn move_straight(
    alloc: Global,
    fresh: &mut Movable,
    task: usize,
    to: Worker,
    scene: &Scene,
) -> Result<(), LineFault> {
    fresh.move_to(number_of(task), to, scene.live.as_slice())?;
    fresh.send(alloc);
    Ok(())
}

/// A place as a number of 16 bits.
fn number_of(place: usize) -> u16 {
    u16::try_from(place).unwrap_or(u16::MAX)
}

/// Moves that follow from a number, and what came of them.
#[derive(Drop)]
struct Tries {
    state: u64,
    moved: u64,
    refused: u64,
    differ: u64,
}

impl Tries {
    /// The next number below another one.
    fn next(&mut self, below: usize) -> u16 {
        self.state = self
            .state
            .wrapping_mul(6_364_136_223_846_793_005)
            .wrapping_add(1_442_695_040_888_963_407);
        if below == 0 {
            return 0;
        }
        number_of((self.state >> 33) as usize % below)
    }

    fn count(&mut self, is_moved: bool, is_straight: bool) {
        self.moved = self.moved.wrapping_add(u64::from(is_moved));
        self.refused = self.refused.wrapping_add(u64::from(!is_moved));
        self.differ = self.differ.wrapping_add(u64::from(!is_straight));
    }
}

/// `moves COUNT SEED`: so many moves, of tasks to workers that follow from a number; before each fourth one the edits
/// are sent. How many were moved and refused, and behind how many of them the halves weren't those of a block built
/// anew with its tasks moved straight to their owners.
pub fn moves_line(
    alloc: Global,
    template: &mut Movable,
    scene: &Scene,
    text: &str,
    out: &mut String,
) -> Result<(), LineFault> {
    let (count, seed) = halves(text, " ")?;
    let mut tries = Tries {
        state: number::<u64>(seed)?,
        moved: 0,
        refused: 0,
        differ: 0,
    };
    for turn in 0..number::<u16>(count)? {
        if turn % 4 == 0 {
            template.send(alloc);
        }
        try_once(alloc, template, scene, &mut tries)?;
    }
    push_tries(alloc, out, &tries)
}

fn try_once(
    alloc: Global,
    template: &mut Movable,
    scene: &Scene,
    tries: &mut Tries,
) -> Result<(), LineFault> {
    let task = tries.next(template.template.forms.len());
    let to = Worker(tries.next(scene.live.len()));
    let refused = template.move_to(task, to, scene.live.as_slice())?;
    let is_straight = is_straight(alloc, &template.template, scene)?;
    tries.count(refused.is_none(), is_straight);
    Ok(())
}

fn push_tries(alloc: Global, out: &mut String, tries: &Tries) -> Result<(), LineFault> {
    push_count(alloc, out, "moved ", tries.moved)?;
    push_count(alloc, out, ", refused ", tries.refused)?;
    push_count(alloc, out, ", not straight ", tries.differ)?;
    out.push_str("\n")?;
    Ok(())
}
