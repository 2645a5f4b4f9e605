ghost use Rattle.std.specs.Prelude.{List};
ghost use Rattle.nim_printed.specs.Laws.{JobIsRead, JobStands, TreeIsRead, WordsAreRead};
ghost use Rattle.nim_printed.specs.Words.{Word};

use nim_job::Job;
use nim_parse::Tree;

/// Lines of words are read as one token a word, each with its text.
pub fn words_are_read()
    ensures { (lines : List (List Word)) → WordsAreRead lines }
{}

/// A tree that can be printed is read back from its text.
pub fn tree_is_read(tree: &Tree)
    ensures { TreeIsRead tree.now }
{}

/// The tree that a printer gives a job stands for that job, where the job is whole but for loaded data and
/// its names and numbers can be written: it can be printed, each line has its number, no rule refuses a
/// line, and it is read back as that job with no data loaded yet. The printer is `specs/Printer.antt`.
pub fn job_stands(job: &Job)
    ensures { JobStands job.now }
{}

/// What a printer prints of such a job, where it isn't too long, is taken as a driver and stands for that job.
pub fn job_is_read(job: &Job)
    ensures { JobIsRead job.now }
{}
