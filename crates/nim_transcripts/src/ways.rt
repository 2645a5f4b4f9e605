use crate::draws::Draws;
use crate::given::push_text;
use crate::orders::{frame, order};
use crate::working::{begun, finish_batch, finish_rest, hand_frame, hand_order};
use nim_base::Worker;
use nim_lines::{LineFault, halves, number, push_count};
use nim_message::{Data, ToWorker};
use nim_worker::{Batch, WorkerCore};
use std::alloc::Global;

/// The orders of a job, which a worker is handed in turn, and the frames that it is handed at any time.
#[derive(Drop)]
pub struct Ways {
    orders: Vec<ToWorker>,
    frames: Vec<Data>,
}

impl Ways {
    /// A job with no order and no frame.
    pub fn new(alloc: Global) -> Ways {
        Ways {
            orders: Vec::new(alloc),
            frames: Vec::new(alloc),
        }
    }

    /// `keep ORDER` and `keep data FRAME`: nothing, it is the job's next; `ways COUNT SEED`.
    pub fn answer(
        &mut self,
        alloc: Global,
        word: &str,
        text: &str,
        out: &mut String,
    ) -> Result<(), LineFault> {
        match word {
            "keep" => self.keep(alloc, text),
            _ => ways_line(alloc, self, text, out),
        }
    }

    fn keep(&mut self, alloc: Global, text: &str) -> Result<(), LineFault> {
        match text.strip_prefix("data ") {
            Some(text) => self.frames.push(frame(alloc, text)?)?,
            None => self.orders.push(order(alloc, text)?)?,
        }
        Ok(())
    }
}

/// How a worker went through a job: which orders and frames it was handed, the tickets of its commands as they were
/// completed, and what it gave.
#[derive(Drop)]
struct Way {
    handed: usize,
    waiting: Vec<usize>,
    order: String,
    gave: String,
}

/// Goes so many random ways: what is given in the plain one, by lines in order, whether they complete the commands in
/// more orders than half as many, and whether the same lines are given in each.
fn ways_line(alloc: Global, job: &Ways, text: &str, out: &mut String) -> Result<(), LineFault> {
    let (count, seed) = halves(text, " ")?;
    let mut draws = Draws::new(number::<u64>(seed)?);
    let plain = gone(alloc, job, 0, &mut draws)?;
    let plain = sorted(alloc, plain.gave.as_str())?;
    out.push_str(plain.as_str())?;
    go_ways(
        alloc,
        job,
        number::<u16>(count)?,
        &mut draws,
        plain.as_str(),
        out,
    )
}

fn go_ways(
    alloc: Global,
    job: &Ways,
    count: u16,
    draws: &mut Draws,
    plain: &str,
    out: &mut String,
) -> Result<(), LineFault> {
    let (mut orders, mut differ) = (Vec::new(alloc), 0u16);
    for _ in 0..count {
        if !go_one(alloc, job, draws, plain, &mut orders)? {
            differ = differ.saturating_add(1);
        }
    }
    push_found(
        alloc,
        out,
        count,
        orders.len() > usize::from(count / 2),
        differ == 0,
    )
}

/// Whether the way gave what the plain one did; its order is noted where it is new.
fn go_one(
    alloc: Global,
    job: &Ways,
    draws: &mut Draws,
    plain: &str,
    orders: &mut Vec<String>,
) -> Result<bool, LineFault> {
    let Way { order, gave, .. } = gone(alloc, job, 100, draws)?;
    note(orders, order)?;
    let gave = sorted(alloc, gave.as_str())?;
    Ok(gave.as_str() == plain)
}

fn note(orders: &mut Vec<String>, order: String) -> Result<(), LineFault> {
    if !orders.iter().any(|other| other.as_str() == order.as_str()) {
        orders.push(order)?;
    }
    Ok(())
}

fn push_found(
    alloc: Global,
    out: &mut String,
    count: u16,
    is_varied: bool,
    is_same: bool,
) -> Result<(), LineFault> {
    push_count(alloc, out, "", u64::from(count))?;
    push_text(
        out,
        if is_varied {
            " ways, in more than "
        } else {
            " ways, in up to "
        },
    )?;
    push_count(alloc, out, "", u64::from(count / 2))?;
    push_text(
        out,
        if is_same {
            " orders, all the same\n"
        } else {
            " orders, not all the same\n"
        },
    )
}

/// The lines of a text, in order.
fn sorted(alloc: Global, text: &str) -> Result<String, LineFault> {
    let mut lines: Vec<&str> = text.lines().collect(alloc)?;
    lines.sort()?;
    let mut all = String::new(alloc);
    for line in &lines {
        push_text(&mut all, line)?;
        push_text(&mut all, "\n")?;
    }
    Ok(all)
}

/// A way with so many random turns, after which all that is left is handed and completed.
fn gone(alloc: Global, job: &Ways, turns: u16, draws: &mut Draws) -> Result<Way, LineFault> {
    let mut core = WorkerCore::new(alloc, Worker(0));
    let mut way = begin(alloc, job)?;
    go(alloc, job, turns, draws, &mut core, &mut way)?;
    Ok(way)
}

fn begin(alloc: Global, job: &Ways) -> Result<Way, LineFault> {
    Ok(Way {
        handed: 0,
        waiting: (0..job.frames.len()).collect(alloc)?,
        order: String::new(alloc),
        gave: String::new(alloc),
    })
}

fn go(
    alloc: Global,
    job: &Ways,
    turns: u16,
    draws: &mut Draws,
    core: &mut WorkerCore,
    way: &mut Way,
) -> Result<(), LineFault> {
    for _ in 0..turns {
        turn(alloc, job, draws, core, way)?;
    }
    hand_rest(job, core, way)?;
    complete_rest(alloc, core, way)
}

fn turn(
    alloc: Global,
    job: &Ways,
    draws: &mut Draws,
    core: &mut WorkerCore,
    way: &mut Way,
) -> Result<(), LineFault> {
    if draws.below(3) != 0 {
        return hand(job, draws, core, way);
    }
    let batch = begun(core, draws.size())?;
    complete(alloc, job, draws, core, way, batch)
}

/// The next order or any frame.
fn hand(
    job: &Ways,
    draws: &mut Draws,
    core: &mut WorkerCore,
    way: &mut Way,
) -> Result<(), LineFault> {
    if draws.below(4) == 0 {
        let place = draws.below(way.waiting.len());
        hand_frame_at(job, core, way, place)
    } else {
        hand_next(job, core, way)
    }
}

fn hand_next(job: &Ways, core: &mut WorkerCore, way: &mut Way) -> Result<(), LineFault> {
    match job.orders.get(way.handed) {
        Some(order) => {
            way.handed = way.handed.saturating_add(1);
            hand_order(core, order)
        }
        None => Ok(()),
    }
}

fn hand_frame_at(
    job: &Ways,
    core: &mut WorkerCore,
    way: &mut Way,
    place: usize,
) -> Result<(), LineFault> {
    if place >= way.waiting.len() {
        return Ok(());
    }
    match job.frames.get(way.waiting.swap_remove(place)) {
        Some(frame) => hand_frame(core, frame),
        None => Ok(()),
    }
}

fn hand_rest(job: &Ways, core: &mut WorkerCore, way: &mut Way) -> Result<(), LineFault> {
    for _ in 0..job.orders.len() {
        hand_next(job, core, way)?;
    }
    for _ in 0..job.frames.len() {
        hand_frame_at(job, core, way, 0)?;
    }
    Ok(())
}

/// Performs some works of a batch, hands something while it is out or not, and finishes it.
fn complete(
    alloc: Global,
    job: &Ways,
    draws: &mut Draws,
    core: &mut WorkerCore,
    way: &mut Way,
    mut batch: Batch,
) -> Result<(), LineFault> {
    note_works(alloc, &mut way.order, &batch)?;
    perform_some(draws, &mut batch)?;
    if draws.below(2) == 0 {
        hand(job, draws, core, way)?;
    }
    finish_batch(alloc, core, batch, &mut way.gave)
}

fn note_works(alloc: Global, order: &mut String, batch: &Batch) -> Result<(), LineFault> {
    for work in batch.as_slice() {
        push_count(alloc, order, " ", work.ticket())?;
    }
    Ok(())
}

/// Up to so many works as there are, in any order.
fn perform_some(draws: &mut Draws, batch: &mut Batch) -> Result<(), LineFault> {
    let works = batch.works();
    for _ in 0..works.len() {
        if let Some(work) = works.get_mut(draws.below(works.len())) {
            work.perform()?;
        }
    }
    Ok(())
}

fn complete_rest(alloc: Global, core: &mut WorkerCore, way: &mut Way) -> Result<(), LineFault> {
    finish_rest(alloc, core, &mut way.gave)
}
