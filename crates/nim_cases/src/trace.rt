use nim_cluster::Cluster;
use nim_lockstep::Ran;
use std::alloc::{AllocError, Global};

/// What ran, in order: a line a task, `WORKER EPOCH POSITION` and an `OBJECT@VERSION` for each read.
pub fn trace_text(alloc: Global, cluster: &Cluster) -> Result<String, AllocError> {
    let mut text = String::new(alloc);
    for ran in cluster.trace() {
        let (worker, epoch) = (ran.worker.0, ran.epoch);
        text.push_str(format!(in alloc; "{worker} {epoch} ")?.as_str())?;
        push_reads(alloc, &mut text, ran)?;
    }
    Ok(text)
}

/// What ran by its positions, from 0 on, without worker and epoch. A position past the number of runs has no line, and
/// one that ran twice has two.
pub fn reads_text(alloc: Global, cluster: &Cluster) -> Result<String, AllocError> {
    let mut text = String::new(alloc);
    for position in 0..cluster.trace().len() as u64 {
        for ran in cluster.trace() {
            if ran.position == position {
                push_reads(alloc, &mut text, ran)?;
            }
        }
    }
    Ok(text)
}

/// The position of a run, and what it read.
fn push_reads(alloc: Global, text: &mut String, ran: &Ran) -> Result<(), AllocError> {
    let position = ran.position;
    text.push_str(format!(in alloc; "{position}")?.as_str())?;
    for (object, version) in ran.reads.as_slice() {
        let object = object.0;
        text.push_str(format!(in alloc; " {object}@{version}")?.as_str())?;
    }
    text.push('\n')
}
