ghost use Rattle.std.specs.Prelude.{◌≡◌};
ghost use Rattle.nim_job.specs.Driver.{scalar_count};
ghost use Rattle.nim_job.specs.Whole.{is_checked, is_whole};

mod blocks;
mod statements;
mod vars;

use crate::Job;
pub use blocks::has_distinct;

/// Whether a job is whole but that loaded values may be missing. Its meaning is `is_checked` of `specs/Whole.antt`.
/// Takes no memory.
pub fn is_checked(job: &Job) -> bool
    ensures { result ≡ is_checked job.now }
{
    job.steps >= 1
        && job.steps <= 1_000_000
        && vars::are_vars(job.vars.as_slice())
        && job.blocks.len() <= 32
        && blocks::are_blocks(job.vars.as_slice(), job.blocks.as_slice())
        && statements::scan_all(job, job.body.as_slice(), 0, 0).is_some()
}

/// Whether a job is whole, as the calls that read it need it: its limits, and that what it names is there. Its
/// meaning is `is_whole` of `specs/Whole.antt`. Takes no memory.
pub fn is_whole(job: &Job) -> bool
    ensures { result ≡ is_whole job.now }
{
    is_checked(job) && vars::are_filled(job.vars.as_slice())
}

/// How many scalars a job has.
pub(crate) fn scalar_count(job: &Job) -> u8
    ensures { result ≡ scalar_count job.now }
{
    match statements::scan_all(job, job.body.as_slice(), 0, 0) {
        Some(count) => count,
        None => 0,
    }
}
