use crate::given::{push_outs, push_text};
use crate::orders::{frame, order};
use crate::shapes::push_contents;
use nim_base::{Copied, Worker};
use nim_lines::{LineFault, number, push_answer, push_count, push_number};
use nim_message::{Data, ToWorker};
use nim_worker::{Batch, Work, WorkerCore};
use std::alloc::Global;

/// A worker, with a batch that is out or none.
#[derive(Drop)]
pub struct Working {
    core: WorkerCore,
    batch: Option<Batch>,
}

impl Working {
    /// A new worker of this number.
    pub fn new(alloc: Global, worker: Worker) -> Working {
        Working {
            core: WorkerCore::new(alloc, worker),
            batch: None,
        }
    }

    /// `worker N`, `data FRAME`, `busy`, `begin MOST`, `perform`, `finish`, `reports`, or an order.
    pub fn answer(
        &mut self,
        alloc: Global,
        line: &str,
        word: &str,
        text: &str,
        out: &mut String,
    ) -> Result<(), LineFault> {
        match word {
            "worker" => self.begin_anew(alloc, text, out),
            "data" => hand_frame(&mut self.core, &frame(alloc, text)?),
            "busy" => push_answer(out, self.core.busy()),
            "begin" => self.begin(alloc, most_of(text)?, out),
            "perform" => self.perform(),
            "finish" => self.finish(alloc, out),
            "reports" => self.reports(alloc, out),
            _ => hand_order(&mut self.core, &order(alloc, line)?),
        }
    }

    fn begin_anew(&mut self, alloc: Global, text: &str, out: &mut String) -> Result<(), LineFault> {
        *self = Working::new(alloc, Worker(number::<u16>(text)?));
        push_number(alloc, out, i64::from(self.core.worker().0))
    }

    /// `begin MOST`: the epoch of the batch, and of each work the position and what it reads.
    fn begin(&mut self, alloc: Global, most: u16, out: &mut String) -> Result<(), LineFault> {
        let batch = begun(&mut self.core, most)?;
        let batch = self.batch.insert(batch);
        push_batch(alloc, out, batch)
    }

    /// `perform`: each work of the batch.
    fn perform(&mut self) -> Result<(), LineFault> {
        match &mut self.batch {
            Some(batch) => perform_all(batch.works()),
            None => Err(LineFault::Form("no batch is out")),
        }
    }

    /// `finish`: what the batch gives.
    fn finish(&mut self, alloc: Global, out: &mut String) -> Result<(), LineFault> {
        match self.batch.take() {
            Some(batch) => finish_batch(alloc, &mut self.core, batch, out),
            None => Err(LineFault::Form("no batch is out")),
        }
    }

    /// `reports`: what is given until no command may be completed.
    fn reports(&mut self, alloc: Global, out: &mut String) -> Result<(), LineFault> {
        finish_rest(alloc, &mut self.core, out)
    }
}

/// How many commands a batch may have, one where nothing is said.
fn most_of(text: &str) -> Result<u16, LineFault> {
    if text.is_empty() {
        return Ok(1);
    }
    number::<u16>(text)
}

/// Hands a worker a copy of an order.
pub fn hand_order(core: &mut WorkerCore, order: &ToWorker) -> Result<(), LineFault> {
    core.on_message(order.copy()?)?;
    Ok(())
}

/// Hands a worker a copy of a frame.
pub fn hand_frame(core: &mut WorkerCore, frame: &Data) -> Result<(), LineFault> {
    core.on_data(frame.copy()?)?;
    Ok(())
}

/// Begins a batch, where none is out.
pub fn begun(core: &mut WorkerCore, most: u16) -> Result<Batch, LineFault> {
    if core.busy() {
        return Err(LineFault::Form("a batch is out"));
    }
    if most == 0 || most > 16 {
        return Err(LineFault::Form("a batch has 1 to 16 works"));
    }
    Ok(core.begin(most))
}

fn push_batch(alloc: Global, out: &mut String, batch: &Batch) -> Result<(), LineFault> {
    push_count(alloc, out, "epoch ", u64::from(batch.epoch()))?;
    push_text(out, "\n")?;
    for work in batch.as_slice() {
        push_work(alloc, out, work)?;
    }
    Ok(())
}

fn push_work(alloc: Global, out: &mut String, work: &Work) -> Result<(), LineFault> {
    match work.run() {
        Some(position) => push_count(alloc, out, "run ", position)?,
        None => push_text(out, "no run")?,
    }
    push_text(out, ":")?;
    push_contents(alloc, out, work.reads())?;
    push_text(out, "\n")
}

fn perform_all(works: &mut [Work]) -> Result<(), LineFault> {
    for work in works {
        work.perform()?;
    }
    Ok(())
}

/// Finishes the batch that is out, and adds what it gives.
pub fn finish_batch(
    alloc: Global,
    core: &mut WorkerCore,
    batch: Batch,
    out: &mut String,
) -> Result<(), LineFault> {
    let outs = core.finish(batch)?;
    push_outs(alloc, out, outs.as_slice())
}

/// Begins and finishes batches of one command until none may be completed, and adds what they give.
pub fn finish_rest(
    alloc: Global,
    core: &mut WorkerCore,
    out: &mut String,
) -> Result<(), LineFault> {
    for _ in 0..100u32 {
        if finish_one(alloc, core, out)? {
            return Ok(());
        }
    }
    Err(LineFault::Form("there are more reports"))
}

/// Whether there was none.
fn finish_one(alloc: Global, core: &mut WorkerCore, out: &mut String) -> Result<bool, LineFault> {
    let batch = begun(core, 1)?;
    let is_last = batch.is_empty();
    finish_batch(alloc, core, batch, out)?;
    Ok(is_last)
}
