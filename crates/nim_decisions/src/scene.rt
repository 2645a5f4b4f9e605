ghost use Rattle.std.specs.Prelude.{◌≡◌, ◌≤◌, true, length};
ghost use Rattle.std.specs.List.{list_any};

use nim_base::{Object, Worker};
use nim_lines::{LineFault, number, push_count};
use nim_place::{Placement, home};
use std::alloc::Global;

/// The workers and objects that lines are about: how objects are placed, which workers are live, and how many objects
/// there are.
#[derive(Drop)]
pub struct Scene {
    pub place: Placement,
    pub live: Vec<bool>,
    pub objects: u16,
    ghost few: { length live.items ≤ 16 },
    ghost some: { list_any (λ flag. flag) live.items ≡ true },
    ghost kept: { objects ≤ 512 },
}

impl Scene {
    /// One worker and no object.
    pub fn new(alloc: Global) -> Result<Scene, LineFault> {
        Ok(Scene {
            place: Placement::Cyclic,
            live: vec![in alloc; true; 1]?,
            objects: 0,
        })
    }

    /// These workers, where they are up to 16 and one of them is live.
    fn with_live(&mut self, live: Vec<bool>) -> Result<(), LineFault> {
        if live.len() > 16 || !live.iter().any(|flag| *flag) {
            return Err(LineFault::Form("there are 1 to 16 workers, and one of them is live"));
        }
        self.live = live;
        Ok(())
    }

    /// So many objects.
    fn with_objects(&mut self, objects: u16) -> Result<(), LineFault> {
        if objects > 512 {
            return Err(LineFault::Form("there are at most 512 objects"));
        }
        self.objects = objects;
        Ok(())
    }
}

/// `place cyclic`, `place block`, `place mixed N`, `workers N`, `lost W`, `objects N`: nothing; `home O ..`.
pub fn scene_line(
    alloc: Global,
    scene: &mut Scene,
    word: &str,
    text: &str,
    out: &mut String,
) -> Result<(), LineFault> {
    match word {
        "place" => place_line(scene, text),
        "workers" => workers_line(alloc, scene, text),
        "lost" => lost_line(alloc, scene, text),
        "objects" => scene.with_objects(number::<u16>(text)?),
        _ => home_line(alloc, scene, text, out),
    }
}

fn place_line(scene: &mut Scene, text: &str) -> Result<(), LineFault> {
    scene.place = placement(text)?;
    Ok(())
}

fn placement(text: &str) -> Result<Placement, LineFault> {
    match text {
        "cyclic" => Ok(Placement::Cyclic),
        "block" => Ok(Placement::Block),
        _ => mixed(text),
    }
}

fn mixed(text: &str) -> Result<Placement, LineFault> {
    match text.strip_prefix("mixed ") {
        Some(mix) => Ok(Placement::Mixed(number::<u64>(mix)?)),
        None => Err(LineFault::Form("no placement is written so")),
    }
}

fn workers_line(alloc: Global, scene: &mut Scene, text: &str) -> Result<(), LineFault> {
    let live = vec![in alloc; true; usize::from(number::<u16>(text)?)]?;
    scene.with_live(live)
}

fn lost_line(alloc: Global, scene: &mut Scene, text: &str) -> Result<(), LineFault> {
    let mut live = Vec::from_slice(alloc, scene.live.as_slice())?;
    lose(live.as_mut_slice(), number::<u16>(text)?)?;
    scene.with_live(live)
}

fn lose(live: &mut [bool], worker: u16) -> Result<(), LineFault> {
    match live.get_mut(usize::from(worker)) {
        Some(flag) => {
            *flag = false;
            Ok(())
        }
        None => Err(LineFault::Form("there is no such worker")),
    }
}

fn home_line(alloc: Global, scene: &Scene, text: &str, out: &mut String) -> Result<(), LineFault> {
    out.push_str("at")?;
    for word in text.split_whitespace() {
        let worker = home_in(scene, Object(number::<u16>(word)?))?;
        push_count(alloc, out, " ", u64::from(worker.0))?;
    }
    out.push_str("\n")?;
    Ok(())
}

/// Where an object is placed.
pub fn home_in(scene: &Scene, object: Object) -> Result<Worker, LineFault> {
    if object.0 >= scene.objects {
        return Err(LineFault::Form("there is no such object"));
    }
    Ok(home(&scene.place, object, scene.objects, scene.live.as_slice()))
}
