ghost use Rattle.std.specs.Prelude.{◌≡◌, ◌∷◌, ◌++◌, List, IfOk, OnOk, OnErr, IsTrue, drop, take};
ghost use Rattle.std.specs.Vec.Iter.{into_iter_items};
ghost use Rattle.nim_lex.specs.Refusals.{Answers};
ghost use Rattle.nim_job.specs.Whole.{is_checked, is_whole};
ghost use Rattle.nim_check.specs.Faults.{told};
ghost use Rattle.nim_check.specs.Loading.{data_refusal, parts_by_var, given_by, holding, holding_all, values_left, loaded, want, wanted, wants};

use crate::CheckFault;
use nim_base::{NoMemory, Seq, Value};
use nim_data::{DataFault, Wanted, read_data};
use nim_job::{Init, Job, Var};
use std::alloc::Global;
use std::mem;
use std::vec::IntoIter;

/// Puts the data of a file into a job's loaded variables: a part for each part of each of them, in
/// order of declaration and then of part, and nothing else. A part may have fewer rows than its
/// variable, down to none. Otherwise the first refused line with its rule; the rules are defined in
/// `specs/Parts.antt` and `specs/Wanted.antt` of `nim_data`, and the job that comes out in
/// `specs/Loading.antt`. After any fault the job is as it was; want of memory may come in place of any
/// answer.
pub fn load(alloc: Global, job: &mut Job, bytes: &[u8]) -> Result<(), CheckFault>
    requires checked { IsTrue (is_checked job.old) }
    ensures answers { Answers told (data_refusal job.old bytes.now) result }
    ensures loaded { OnOk result (job.new ≡ loaded job.old bytes.now) }
    ensures whole { OnOk result (IsTrue (is_whole job.new)) }
    ensures err { OnErr result (job.new ≡ job.old) }
{
    let given = read_parts(alloc, job, bytes)?;
    let vars = mem::replace(&mut job.vars, Seq::new(alloc));
    job.vars = loaded_vars(vars, given);
    Ok(())
}

/// What each variable of a job is given of a file.
fn read_parts(alloc: Global, job: &Job, bytes: &[u8]) -> Result<Seq<Option<Seq<Value>>>, CheckFault>
    requires checked { IsTrue (is_checked job.now) }
    ensures answers { Answers told (data_refusal job.now bytes.now) result }
    ensures given { IfOk result (λ given. record job.now { vars = holding_all job.now.vars given }
        ≡ loaded job.now bytes.now) }
    ensures whole { OnOk result (IsTrue (is_whole (loaded job.now bytes.now))) }
{
    let vars = job.vars.as_slice();
    let wanted = wanted_in(alloc, vars)?;
    match read_data(alloc, bytes, wanted.as_slice()) {
        Ok(values) => Ok(parts_by_var(alloc, vars, values)?),
        Err(DataFault::At(refusal)) => Err(CheckFault::At(refusal)),
        Err(DataFault::NoMemory) => Err(CheckFault::NoMemory),
    }
}

/// The parts that are to be loaded.
fn wanted_in(alloc: Global, vars: &[Var]) -> Result<Vec<Wanted>, NoMemory>
    ensures { IfOk result (λ all. all.items ≡ wanted vars.now) }
{
    let mut all = Vec::new(alloc);
    for v in vars {
        if matches!(v.init, Init::Loaded(_)) {
            want_all(alloc, v, &mut all)?;
        }
    }
    Ok(all)
}

fn want_all(alloc: Global, v: &Var, all: &mut Vec<Wanted>) -> Result<(), NoMemory>
    ensures { OnOk result (all.new.items ≡ all.old.items ++ wants v.now 0 v.now.parts) }
{
    for part in 0..v.parts {
        all.push(want(alloc, v, part)?)?;
    }
    Ok(())
}

fn want(alloc: Global, v: &Var, part: u32) -> Result<Wanted, NoMemory>
    ensures { IfOk result (λ one. one ≡ want v.now part) }
{
    let name = Vec::from_slice(alloc, v.name.as_str().as_bytes())?;
    Ok(Wanted {
        name: Seq::from_vec(name),
        part,
        shape: v.shape,
    })
}

/// What each variable is given of values.
fn parts_by_var(
    alloc: Global,
    vars: &[Var],
    values: Seq<Value>,
) -> Result<Seq<Option<Seq<Value>>>, NoMemory>
    ensures { IfOk result (λ given. given ≡ parts_by_var vars.now values) }
{
    let mut values = values.into_vec().into_iter();
    let mut given = Seq::new(alloc);
    for v in vars {
        given.push(take_parts(alloc, v, &mut values)?)?;
    }
    Ok(given)
}

/// What a variable is given: the next values, if it is a loaded one.
fn take_parts(
    alloc: Global,
    v: &Var,
    values: &mut IntoIter<Value>,
) -> Result<Option<Seq<Value>>, NoMemory>
    ensures var_parts { IfOk result (λ var_parts. var_parts ≡ given_by v.now (into_iter_items values.old)) }
    ensures rest { OnOk result (into_iter_items values.new ≡ values_left v.now (into_iter_items values.old)) }
{
    match v.init {
        Init::Loaded(_) => Ok(Some(take_values(alloc, v.parts, values)?)),
        _ => Ok(None),
    }
}

/// The next so many values, as far as there are some.
fn take_values(
    alloc: Global,
    count: u32,
    values: &mut IntoIter<Value>,
) -> Result<Seq<Value>, NoMemory>
    ensures taken { IfOk result (λ taken. taken ≡ take count (into_iter_items values.old)) }
    ensures rest { OnOk result (into_iter_items values.new ≡ drop count (into_iter_items values.old)) }
{
    let mut taken = Seq::new(alloc);
    for _turn in 0..count {
        if let Some(value) = values.next() {
            taken.push(value)?;
        }
    }
    Ok(taken)
}

/// Variables with what they are given. It takes no memory, so that it can't fail.
fn loaded_vars(vars: Seq<Var>, given: Seq<Option<Seq<Value>>>) -> Seq<Var>
    ensures { result ≡ holding_all vars given }
{
    let mut vars = vars.into_vec();
    give_all(&mut vars, given.into_vec());
    Seq::from_vec(vars)
}

fn give_all(vars: &mut [Var], given: Vec<Option<Seq<Value>>>)
    ensures { vars.new ≡ holding_all vars.old given.items }
{
    let mut given = given.into_iter();
    for v in vars.iter_mut() {
        give_next(v, &mut given);
    }
}

#[tactic(auto, using(crate::proofs::Loads::holding_none))]
fn give_next(v: &mut Var, given: &mut IntoIter<Option<Seq<Value>>>)
    ensures { (vars : List Var) → holding_all (v.old ∷ vars) (into_iter_items given.old) ≡ v.new
        ∷ holding_all vars (into_iter_items given.new) }
{
    if let Some(var_parts) = given.next() {
        give(v, var_parts);
    }
}

fn give(v: &mut Var, var_parts: Option<Seq<Value>>)
    ensures { v.new ≡ holding v.old var_parts }
{
    if let Some(values) = var_parts {
        v.init = Init::Loaded(values);
    }
}
