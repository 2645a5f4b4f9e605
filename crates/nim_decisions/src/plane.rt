use crate::blocks::{Blocks, block_line};
use crate::edits::{move_line, push_unsent};
use crate::lists::list_line;
use crate::moves::{is_straight, moves_line};
use crate::patches::{cache_line, made, patch_line};
use crate::scene::{Scene, scene_line};
use crate::versions::versions_line;
use nim_lines::{LineFault, Subject, differences_from, parts, push_answer};
use nim_patch::PatchCache;
use nim_place::VersionMap;
use nim_txtar::{FileFault, Test};
use std::alloc::Global;

/// Transcripts of decisions.
pub struct Decisions;

impl Test for Decisions {
    fn differences(alloc: Global, file: &str) -> Result<Vec<String>, FileFault> {
        differences_from::<Plane>(alloc, file)
    }
}

/// What the lines of a section are about: workers and objects, the map of versions, blocks with their templates, and
/// the patches that are kept.
#[derive(Drop)]
struct Plane {
    scene: Scene,
    map: VersionMap,
    blocks: Blocks,
    patches: PatchCache,
}

impl Subject for Plane {
    fn begin(alloc: Global) -> Result<Plane, LineFault> {
        Ok(Plane {
            scene: Scene::new(alloc)?,
            map: VersionMap::new(alloc, 1, 0)?,
            blocks: Blocks::new(alloc),
            patches: PatchCache::new(alloc)?,
        })
    }

    fn answer(&mut self, alloc: Global, line: &str, out: &mut String) -> Result<(), LineFault> {
        let (word, text) = parts(line, " ");
        match word {
            "place" | "workers" | "lost" | "objects" | "home" => {
                scene_line(alloc, &mut self.scene, word, text, out)
            }
            "map" | "created" | "task" | "versions" => {
                versions_line(alloc, &mut self.map, &self.scene, word, text, out)
            }
            "block" | "form" | "build" => {
                block_line(alloc, &mut self.blocks, &self.scene, word, text, out)
            }
            _ => self.answer_template(alloc, word, text, out),
        }
    }
}

impl Plane {
    fn answer_template(
        &mut self,
        alloc: Global,
        word: &str,
        text: &str,
        out: &mut String,
    ) -> Result<(), LineFault> {
        let movable = self.blocks.template()?;
        let template = &movable.template;
        match word {
            "halves" | "as-built" | "needs" | "leaves" | "owners" | "homes" => {
                list_line(alloc, template, word, out)
            }
            "effect" | "failing" | "patch" | "mend" => {
                patch_line(alloc, template, &mut self.map, word, text, out)
            }
            "find" | "keep" => {
                let patch = made(alloc, template, &self.map)?;
                cache_line(alloc, &mut self.patches, patch, word, text, out)
            }
            _ => self.answer_move(alloc, word, text, out),
        }
    }

    fn answer_move(
        &mut self,
        alloc: Global,
        word: &str,
        text: &str,
        out: &mut String,
    ) -> Result<(), LineFault> {
        let movable = self.blocks.template()?;
        match word {
            "move" => move_line(movable, self.scene.live.as_slice(), text, out),
            "unsent" => push_unsent(alloc, out, movable.template.unsent.as_slice()),
            "sent" => {
                movable.send(alloc);
                Ok(())
            }
            "straight" => push_answer(out, is_straight(alloc, &movable.template, &self.scene)?),
            "moves" => moves_line(alloc, movable, &self.scene, text, out),
            _ => Err(LineFault::Form("no call is written so")),
        }
    }
}
