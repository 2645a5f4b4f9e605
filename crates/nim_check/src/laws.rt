ghost use Rattle.std.specs.Prelude.{◌≡◌, All, IsTrue, None};
ghost use Rattle.std.specs.List.{list_all};
ghost use Rattle.nim_job.specs.Whole.{is_whole};
ghost use Rattle.nim_check.specs.Loading.{data_refusal, loaded};
ghost use Rattle.nim_check.specs.Printing.{HasValues, has_name, printed};

use nim_job::Job;

/// What `output` prints of all loaded variables of a whole job, one after another, is a data file that
/// no rule refuses, and to load it changes nothing. The names are to be such as drivers have, and the
/// values such as every `Value` is.
pub fn printed_is_loaded(job: &Job)
    requires whole { IsTrue (is_whole job.now) }
    requires names { IsTrue (list_all has_name job.now.vars) }
    requires values { All (λ v. HasValues v.init) job.now.vars }
    ensures accepted { data_refusal job.now (printed job.now.vars) ≡ None }
    ensures same { loaded job.now (printed job.now.vars) ≡ job.now }
{}
