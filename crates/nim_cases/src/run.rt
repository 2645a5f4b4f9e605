use crate::case::{Given, files_of, words_of};
use crate::faults::Faults;
use crate::trace::{reads_text, trace_text};
use crate::wanted::Wanted;
use nim_cluster::{Cluster, let_go};
use nim_io::{MemFiles, MemSink};
use nim_top::{Status, top_check, top_replay};
use nim_txtar::{FileFault, Section, difference};
use std::alloc::Global;

/// Makes one run of a case, and adds what differs from what is wanted.
pub fn run(
    alloc: Global,
    given: Given,
    faults: &Faults,
    wanted: &Wanted,
    found: &mut Vec<String>,
) -> Result<(), FileFault> {
    let words = words_of(alloc, given)?;
    let entries = files_of(alloc, given)?;
    let mut files = MemFiles::new(entries, Vec::from_slice(alloc, faults.files.as_slice())?);
    let (mut out, mut err) = (faults.out.sink(alloc)?, faults.err.sink(alloc)?);
    let mut ran = Vec::new(alloc);
    let (status, compared) = performed(
        alloc,
        given.sections,
        words.as_slice(),
        &mut files,
        &mut out,
        &mut err,
        &mut ran,
    );
    compared?;
    let before = found.len();
    if status != wanted.status {
        let wanted = wanted.status;
        found.push(format!(in alloc; "  status: wanted {wanted}, got {status}")?)?;
    }
    for (stream, wanted, got) in [
        ("out", wanted.out.as_slice(), out.bytes()),
        ("err", wanted.err.as_slice(), err.bytes()),
    ] {
        compare(alloc, stream, wanted, got, found)?;
    }
    found.append(&mut ran)?;
    if let (Some(section), true) = (given.about, found.len() != before) {
        let (line, name) = (section.line, section.name.as_str());
        found.push(format!(in alloc; "  in the run of line {line}, {name}")?)?;
    }
    Ok(())
}

/// Performs the command, and adds where what ran differs from what is wanted. The cluster is let go of in one place.
fn performed(
    alloc: Global,
    sections: &[Section],
    words: &[String],
    files: &mut MemFiles,
    out: &mut MemSink,
    err: &mut MemSink,
    ran: &mut Vec<String>,
) -> (u8, Result<(), FileFault>) {
    let mut kept = None;
    let status = command(alloc, words, files, out, err, &mut kept).0;
    let compared = match &kept {
        Some(cluster) => compare_runs(alloc, sections, cluster, ran),
        None => Ok(()),
    };
    let_go(kept);
    (status, compared)
}

/// Compares what ran, where the case says it: in order by `trace`, by positions by `reads`.
fn compare_runs(
    alloc: Global,
    sections: &[Section],
    cluster: &Cluster,
    found: &mut Vec<String>,
) -> Result<(), FileFault> {
    for section in sections {
        let got = match section.name.as_str() {
            "trace" => trace_text(alloc, cluster)?,
            "reads" => reads_text(alloc, cluster)?,
            _ => continue,
        };
        let (name, wanted) = (section.name.as_str(), section.text.as_slice());
        compare(alloc, name, wanted, got.as_bytes(), found)?;
    }
    Ok(())
}

/// Adds where a text differs from the one that is wanted.
fn compare(
    alloc: Global,
    name: &str,
    wanted: &[u8],
    got: &[u8],
    found: &mut Vec<String>,
) -> Result<(), FileFault> {
    if let Some(text) = difference(alloc, name, wanted, got)? {
        found.push(text)?;
    }
    Ok(())
}

/// The top call of the command, as the program picks it.
fn command(
    alloc: Global,
    words: &[String],
    files: &mut MemFiles,
    out: &mut MemSink,
    err: &mut MemSink,
    kept: &mut Option<Cluster>,
) -> Status {
    match words.first() {
        Some(word) if word.as_str() == "check" => top_check(alloc, words, files, out, err),
        _ => top_replay(alloc, words, files, out, err, kept),
    }
}
