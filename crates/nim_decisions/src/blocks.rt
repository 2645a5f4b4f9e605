use crate::forms::form;
use crate::movable::Movable;
use crate::scene::Scene;
use nim_command::{Half, WorkerTemplate};
use nim_lines::{LineFault, number, push_count};
use nim_template::Recorder;
use std::alloc::Global;
use std::mem;

/// The blocks that were built, by their numbers, and the one that lines are about, with the tasks recorded for it.
#[derive(Drop)]
pub struct Blocks {
    pub number: u8,
    pub recorder: Recorder,
    pub built: Vec<Movable>,
}

impl Blocks {
    /// No block is built, and lines are about block 0.
    pub fn new(alloc: Global) -> Blocks {
        Blocks {
            number: 0,
            recorder: Recorder::new(alloc, 0),
            built: Vec::new(alloc),
        }
    }

    /// The template of the block that lines are about.
    pub fn template(&mut self) -> Result<&mut Movable, LineFault> {
        match self.built.get_mut(usize::from(self.number)) {
            Some(template) => Ok(template),
            None => Err(LineFault::Form("the block isn't built")),
        }
    }
}

/// `block N`, `form FORM`: nothing; `build`: how many tasks, entries a worker, needs and leaves there are.
pub fn block_line(
    alloc: Global,
    blocks: &mut Blocks,
    scene: &Scene,
    word: &str,
    text: &str,
    out: &mut String,
) -> Result<(), LineFault> {
    match word {
        "block" => turn_to(alloc, blocks, number::<u8>(text)?),
        "form" => Ok(blocks.recorder.push_form(&form(alloc, text)?)?),
        _ => build_line(alloc, blocks, scene, out),
    }
}

/// From now on lines are about this block, of which no task is recorded yet.
fn turn_to(alloc: Global, blocks: &mut Blocks, number: u8) -> Result<(), LineFault> {
    blocks.number = number;
    blocks.recorder = Recorder::new(alloc, number);
    Ok(())
}

fn build_line(
    alloc: Global,
    blocks: &mut Blocks,
    scene: &Scene,
    out: &mut String,
) -> Result<(), LineFault> {
    if blocks.built.len() != usize::from(blocks.number) {
        return Err(LineFault::Form("blocks are built once, in the order of their numbers"));
    }
    let fresh = Recorder::new(alloc, blocks.number);
    let recorded = mem::replace(&mut blocks.recorder, fresh).finish();
    let made = Movable::build(alloc, &recorded, scene)?;
    push_sizes(alloc, out, &made.template)?;
    blocks.built.push(made)?;
    Ok(())
}

/// How many tasks, entries, needs and leaves a template has.
fn push_sizes(alloc: Global, out: &mut String, template: &WorkerTemplate) -> Result<(), LineFault> {
    push_count(alloc, out, "tasks ", template.forms.len() as u64)?;
    push_entries(alloc, out, template.halves.as_slice())?;
    push_count(alloc, out, ", needs ", template.preconditions.len() as u64)?;
    push_count(alloc, out, ", leaves ", template.effect.len() as u64)?;
    out.push_str("\n")?;
    Ok(())
}

fn push_entries(alloc: Global, out: &mut String, halves: &[Half]) -> Result<(), LineFault> {
    out.push_str(", entries")?;
    for half in halves {
        push_count(alloc, out, " ", half.entries().len() as u64)?;
    }
    Ok(())
}
