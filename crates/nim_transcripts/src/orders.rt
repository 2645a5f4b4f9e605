use crate::commands::commands;
use crate::edits::edits;
use crate::entries::{copies, entries};
use crate::shapes::shapes;
use crate::values::value;
use nim_base::{Object, Seq, Worker};
use nim_lines::{LineFault, halves, number, numbers, parts, words};
use nim_message::{Data, Message, ToWorker, in_range, order_length};
use std::alloc::Global;

/// An order, as a line writes it.
pub fn order(alloc: Global, line: &str) -> Result<ToWorker, LineFault> {
    let (word, text) = parts(line.trim(), " ");
    match word {
        "reset" => reset(alloc, text),
        "single" => single(alloc, text),
        "install" => install(alloc, text),
        "instantiate" => instantiate(alloc, text),
        "install_patch" => install_patch(alloc, text),
        "run_patch" => run_patch(alloc, text),
        "stop" => Ok(ToWorker::Stop),
        _ => Err(LineFault::Form("no order is written so")),
    }
}

/// `reset EPOCH SHAPE ..`: begins an epoch of one worker, with these shapes.
fn reset(alloc: Global, text: &str) -> Result<ToWorker, LineFault> {
    let (epoch, all) = parts(text.trim(), " ");
    Ok(ToWorker::Reset {
        epoch: number::<u32>(epoch)?,
        worker: Worker(0),
        workers: 1,
        shapes: Seq::from_vec(shapes(alloc, all)?),
    })
}

/// `single EPOCH INSTANCE: COMMAND; COMMAND ..`: asks once for commands; an instance that isn't there is 0.
fn single(alloc: Global, text: &str) -> Result<ToWorker, LineFault> {
    let (head, all) = halves(text, ":")?;
    let (epoch, instance) = parts(head.trim(), " ");
    Ok(ToWorker::Single {
        epoch: number::<u32>(epoch)?,
        instance: instance_of(instance)?,
        commands: Seq::from_vec(commands(alloc, all)?),
    })
}

fn instance_of(text: &str) -> Result<u32, LineFault> {
    if text.is_empty() {
        return Ok(0);
    }
    number::<u32>(text)
}

/// `install EPOCH BLOCK: ENTRY; ENTRY ..`: the half of a block.
fn install(alloc: Global, text: &str) -> Result<ToWorker, LineFault> {
    let (head, all) = halves(text, ":")?;
    let (epoch, block) = halves(head.trim(), " ")?;
    Ok(ToWorker::InstallTemplate {
        epoch: number::<u32>(epoch)?,
        block: number::<u8>(block)?,
        entries: Seq::from_vec(entries(alloc, all)?),
    })
}

/// `instantiate EPOCH INSTANCE BLOCK POSITION args A .. versions V .. edits EDIT; EDIT ..`: asks for an instance of a
/// block; lists that aren't there are empty.
fn instantiate(alloc: Global, text: &str) -> Result<ToWorker, LineFault> {
    let (head, changes) = parts(text, "edits");
    let (head, versions) = parts(head, "versions");
    let (head, args) = parts(head, "args");
    let head = words(alloc, head)?;
    let args = numbers::<i64>(alloc, args)?;
    let versions = numbers::<u64>(alloc, versions)?;
    instance(alloc, head.as_slice(), args, versions, changes)
}

fn instance(
    alloc: Global,
    head: &[&str],
    args: Vec<i64>,
    versions: Vec<u64>,
    changes: &str,
) -> Result<ToWorker, LineFault> {
    let [epoch, instance, block, base] = head else {
        return Err(LineFault::Form("an instance has an epoch, a number, a block and a position"));
    };
    Ok(ToWorker::Instantiate {
        epoch: number::<u32>(epoch)?,
        instance: number::<u32>(instance)?,
        block: number::<u8>(block)?,
        base: number::<u64>(base)?,
        args: Seq::from_vec(args),
        versions: Seq::from_vec(versions),
        edits: edits(alloc, changes)?,
    })
}

/// `install_patch EPOCH PATCH: COPY; COPY ..`: the worker's ends of the copies of a patch.
fn install_patch(alloc: Global, text: &str) -> Result<ToWorker, LineFault> {
    let (head, all) = halves(text, ":")?;
    let (epoch, patch) = halves(head.trim(), " ")?;
    Ok(ToWorker::InstallPatch {
        epoch: number::<u32>(epoch)?,
        patch: number::<u8>(patch)?,
        copies: copies(alloc, all)?,
    })
}

/// `run_patch EPOCH INSTANCE PATCH versions V ..`: asks for the copies of a patch.
fn run_patch(alloc: Global, text: &str) -> Result<ToWorker, LineFault> {
    let (head, versions) = parts(text, "versions");
    let head = words(alloc, head)?;
    patch_run(head.as_slice(), numbers::<u64>(alloc, versions)?)
}

fn patch_run(head: &[&str], versions: Vec<u64>) -> Result<ToWorker, LineFault> {
    let [epoch, instance, patch] = head else {
        return Err(LineFault::Form("a run of a patch has an epoch, an instance and a patch"));
    };
    Ok(ToWorker::RunPatch {
        epoch: number::<u32>(epoch)?,
        instance: number::<u32>(instance)?,
        patch: number::<u8>(patch)?,
        versions: Seq::from_vec(versions),
    })
}

/// `length ORDER`: the length of the order's frame, and whether its numbers are in their ranges.
pub fn length_line(alloc: Global, text: &str, out: &mut String) -> Result<(), LineFault> {
    let order = order(alloc, text)?;
    let length = order_length(&order);
    out.push_str(format!(in alloc; "{length}, ")?.as_str())?;
    out.push_str(range_of(order))?;
    Ok(())
}

fn range_of(order: ToWorker) -> &'static str {
    if in_range(&Message::Order(order)) {
        "in range\n"
    } else {
        "out of range\n"
    }
}

/// `data EPOCH INSTANCE ENTRY OBJECT@VERSION: VALUE`: a frame that another worker sent.
pub fn frame(alloc: Global, text: &str) -> Result<Data, LineFault> {
    let (key, carried) = halves(text, ":")?;
    let key = words(alloc, key)?;
    frame_of(alloc, key.as_slice(), carried)
}

fn frame_of(alloc: Global, key: &[&str], carried: &str) -> Result<Data, LineFault> {
    let [epoch, instance, entry, content] = key else {
        return Err(LineFault::Form("a frame has an epoch, an instance, an entry and a version"));
    };
    let (object, version) = halves(content, "@")?;
    Ok(Data {
        epoch: number::<u32>(epoch)?,
        instance: number::<u32>(instance)?,
        entry: number::<u32>(entry)?,
        object: Object(number::<u16>(object)?),
        version: number::<u64>(version)?,
        value: value(alloc, carried)?,
    })
}
