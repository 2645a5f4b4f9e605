ghost use Rattle.std.specs.Prelude.{◌≡◌, ℕ, Bool, List, ◌++◌, ◌<◌, ◌≤◌, [], true, length, map, slice_set, None};
ghost use Rattle.std.specs.Prelude.{IfOk, IfErr, OnOk, OnErr};
ghost use Rattle.std.specs.List.{fold, list_all};
ghost use Rattle.nim_command.specs.declared.entry.Entry.{Entry};
ghost use Rattle.nim_command.specs.Ruled.{entries_by_rule};
ghost use Rattle.nim_edit.specs.Form.{IsInForm, WasBuilt, is_edit_below, is_half_below};
ghost use Rattle.nim_edit.specs.Moves as moves;
ghost use Rattle.nim_edit.specs.Refusals as spec;
ghost use Rattle.nim_place.specs.Extends.{is_live};
ghost use Rattle.nim_place.specs.declared.placement.Placement.{Placement as Place};
ghost use Rattle.nim_template.specs.declared.template.ControllerTemplate.{ControllerTemplate};
ghost use Rattle.nim_template.specs.Ascends.{does_ascend};
ghost use Rattle.nim_template.specs.Written.{HasEffect};

use crate::edits::edits_of;
use crate::{EditFault, EditRefused};
use nim_base::{Copied, NoMemory, Seq, Worker};
use nim_command::{Edit, Half, WorkerTemplate};
use std::mem;

/// How many edits of a block a worker may have that weren't sent yet.
const MOST: usize = 4;

/// Moves a task of an installed template to a worker: each worker that this touches gets its edit, which counts at
/// once, and which is to be sent with the next instance. `live` has a flag for each worker. What the template is then
/// is `migrated` of `specs/Moves.antt`, and by which rule a move is refused is `refusal_of` of `specs/Refusals.antt`.
/// After a refusal and after want of memory the template is as it was.
pub fn migrate(
    template: &mut WorkerTemplate,
    task: u16,
    to: Worker,
    live: &[bool],
) -> Result<(), EditFault>
    requires form { IsInForm template.old }
    requires live { length live.now ≡ length template.old.built }
    ensures moved { OnOk result (template.new ≡ moves.migrated template.old task to) }
    ensures taken { OnOk result (spec.refusal_of template.old task to live.now ≡ None) }
    ensures told { IfErr result (λ fault. spec.IsToldBy (spec.refusal_of template.old task to live.now) fault) }
    ensures err { OnErr result (template.new ≡ template.old) }
    ensures form { IsInForm template.new }
    ensures built { (place : Place) (objects : ℕ) (living : List Bool) (recorded : ControllerTemplate)
        → WasBuilt place objects living recorded template.old → WasBuilt place objects living recorded template.new }
    ensures owned { list_all (is_live live.now) template.old.owners ≡ true
        → list_all (is_live live.now) template.new.owners ≡ true }
    ensures unsent { (sent : List (List Entry)) → template.old.halves ≡ fold moves.with_edit sent template.old.unsent
        → template.new.halves ≡ fold moves.with_edit sent template.new.unsent }
    ensures ascend { OnOk result (list_all (does_ascend 0) template.new.halves ≡ true) }
    ensures by_rule { OnOk result (map (entries_by_rule []) template.new.halves ≡ template.new.halves) }
    ensures effect { (objects : ℕ) → objects ≤ 512 → HasEffect (length template.old.built) objects template.old
        → HasEffect (length template.old.built) objects template.new }
{
    if let Some(refused) = refusal_of(template, task, to, live) {
        return Err(EditFault::Refused(refused));
    }
    let edits = edits_of(template, task, to)?;
    let touched = edited_halves(&template.halves, edits.as_slice())?;
    push_edits(&mut template.unsent, edits)?;
    put_halves(&mut template.halves, touched);
    put_owner(&mut template.owners, task, to);
    Ok(())
}

/// The first rule that refuses the move.
fn refusal_of(
    template: &WorkerTemplate,
    task: u16,
    to: Worker,
    live: &[bool],
) -> Option<EditRefused>
    requires form { IsInForm template.now }
    ensures { result ≡ spec.refusal_of template.now task to live.now }
{
    let place = usize::from(task);
    if place >= template.forms.len() {
        return Some(EditRefused::NoSuchTask);
    }
    if !is_live(live, to) {
        return Some(EditRefused::NotLive);
    }
    if template.owners.as_slice()[place].0 == to.0 {
        return Some(EditRefused::SamePlace);
    }
    if are_too_many(template, place, to) {
        return Some(EditRefused::TooMany);
    }
    None
}

fn is_live(live: &[bool], worker: Worker) -> bool
    ensures { result ≡ is_live live.now worker }
{
    match live.get(usize::from(worker.0)) {
        Some(flag) => *flag,
        None => false,
    }
}

/// Whether a worker that the move of a task touches has as many edits that weren't sent yet as it may have.
fn are_too_many(template: &WorkerTemplate, task: usize, to: Worker) -> bool
    requires form { IsInForm template.now }
    requires task { task < length template.now.forms }
    ensures { result ≡ spec.are_too_many template.now task to }
{
    let home = template.homes.as_slice()[task];
    let owner = template.owners.as_slice()[task];
    is_one_full(template.unsent.as_slice(), home, owner, to)
}

/// Whether one of these workers has as many edits that weren't sent yet as it may have.
fn is_one_full(unsent: &[(Worker, Edit)], home: Worker, owner: Worker, to: Worker) -> bool
    ensures { result ≡ spec.is_one_full unsent.now home owner to }
{
    is_full(unsent, home) || is_full(unsent, owner) || is_full(unsent, to)
}

/// Whether a worker has as many edits that weren't sent yet as it may have.
fn is_full(unsent: &[(Worker, Edit)], worker: Worker) -> bool
    ensures { result ≡ spec.is_full unsent.now worker }
{
    count_for(unsent, worker) >= MOST
}

/// How many of the edits are a worker's.
fn count_for(edits: &[(Worker, Edit)], worker: Worker) -> usize
    ensures { result ≡ spec.count_for edits.now worker }
{
    let mut count = 0;
    for edit in edits {
        if edit.0.0 == worker.0 {
            count += 1;
        }
    }
    count
}

/// The halves that edits touch, each with its edit, which stand for all edits once they are put in. No other half is
/// copied.
fn edited_halves(
    halves: &Seq<Half>,
    edits: &[(Worker, Edit)],
) -> Result<Vec<(Worker, Half)>, NoMemory>
    requires below { list_all (is_edit_below (length halves.now)) edits.now ≡ true }
    requires apart { moves.are_apart edits.now ≡ true }
    ensures value { IfOk result (λ touched. fold moves.with_half halves.now touched.items
        ≡ fold moves.with_edit halves.now edits.now) }
    ensures below { IfOk result (λ touched. list_all (is_half_below (length halves.now)) touched.items ≡ true) }
{
    let mut touched = Vec::new(halves.alloc());
    for (worker, edit) in edits {
        let mut half = halves.as_slice()[usize::from(worker.0)].copy()?;
        half.apply_edit(edit)?;
        touched.push((*worker, half))?;
    }
    Ok(touched)
}

/// Puts halves in place of those of their workers; takes no memory.
fn put_halves(halves: &mut Seq<Half>, touched: Vec<(Worker, Half)>)
    requires { list_all (is_half_below (length halves.old)) touched.items ≡ true }
    ensures { halves.new ≡ fold moves.with_half halves.old touched.items }
{
    let alloc = halves.alloc();
    let mut all = mem::replace(halves, Seq::new(alloc)).into_vec();
    for (worker, half) in touched {
        all[usize::from(worker.0)] = half;
    }
    *halves = Seq::from_vec(all);
}

/// Gives a task this owner; takes no memory.
fn put_owner(owners: &mut Seq<Worker>, task: u16, to: Worker)
    requires { task < length owners.old }
    ensures { owners.new ≡ slice_set owners.old task to }
{
    let alloc = owners.alloc();
    let mut all = mem::replace(owners, Seq::new(alloc)).into_vec();
    all[usize::from(task)] = to;
    *owners = Seq::from_vec(all);
}

/// Adds edits; where memory is refused, there are those that there were.
fn push_edits(unsent: &mut Seq<(Worker, Edit)>, edits: Vec<(Worker, Edit)>) -> Result<(), NoMemory>
    ensures ok { OnOk result (unsent.new ≡ unsent.old ++ edits.items) }
    ensures err { OnErr result (unsent.new ≡ unsent.old) }
{
    let alloc = unsent.alloc();
    let mut more = edits;
    let mut all = mem::replace(unsent, Seq::new(alloc)).into_vec();
    let outcome = all.append(&mut more);
    *unsent = Seq::from_vec(all);
    outcome?;
    Ok(())
}
