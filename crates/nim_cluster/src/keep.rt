ghost use Rattle.std.specs.Prelude.{◌≡◌, Err as err, IfErr, IfOk, Ok as ok};

use crate::Cluster;
use nim_base::NoMemory;

/// Lets go of a cluster, if there is one. Where a function lets one go out of scope, at its end or behind a `?`, the
/// destructors of all its parts are proved once more there; so whoever is through with one calls this.
pub fn let_go(kept: Option<Cluster>) {
    drop(kept)
}

/// Keeps a value behind a step that went well, and lets go of it behind one that memory was refused to.
pub(crate) fn keep_on_ok<T: Drop, U: Drop>(
    value: T,
    step: Result<U, NoMemory>,
) -> Result<(T, U), NoMemory>
    ensures kept { IfOk result (λ kept. (kept.0 ≡ value) × (step ≡ ok kept.1)) }
    ensures refused { IfErr result (λ refused. step ≡ err refused) }
{
    match step {
        Ok(got) => Ok((value, got)),
        Err(refused) => {
            drop(value);
            Err(refused)
        }
    }
}
