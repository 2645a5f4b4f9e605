ghost use Rattle.std.specs.Prelude.{◌≡◌, length, map, nat_lt};
ghost use Rattle.std.specs.List.{list_all};
ghost use Rattle.nim_job.specs.Whole.{is_atom, is_call, is_cond, is_rest, scan_all, scan_body, scan_of, set_at};

use crate::{Arith, Atom, Cond, Job, Stmt};

/// Whether an atom is a number, or one of the scalars that were set.
fn is_atom(scalars: u8, atom: Atom) -> bool
    ensures { result ≡ is_atom scalars atom }
{
    match atom {
        Atom::Const(_) => true,
        Atom::Scalar(scalar) => scalar < scalars,
    }
}

fn are_atoms(scalars: u8, atoms: &[Atom]) -> bool
    ensures { result ≡ list_all (is_atom scalars) atoms.now }
{
    for atom in atoms {
        if !is_atom(scalars, *atom) {
            return false;
        }
    }
    true
}

fn is_rest(scalars: u8, rest: Option<(Arith, Atom)>) -> bool
    ensures { result ≡ is_rest scalars rest }
{
    match rest {
        Some((_, atom)) => is_atom(scalars, atom),
        None => true,
    }
}

fn is_cond(scalars: u8, cond: Cond) -> bool
    ensures { result ≡ is_cond scalars cond }
{
    is_atom(scalars, cond.left) && is_atom(scalars, cond.right)
}

/// How many scalars are set once this one is; nothing where it may not be set yet.
fn set_at(scalars: u8, scalar: u8) -> Option<u8>
    ensures { result ≡ set_at scalars scalar }
{
    if scalar < scalars {
        Some(scalars)
    } else if scalar == scalars && scalar < 64 {
        Some(scalars + 1)
    } else {
        None
    }
}

/// Whether a block is there and takes so many arguments.
pub(super) fn is_call(job: &Job, block: u8, args: usize) -> bool
    ensures { result ≡ is_call job.now block args }
{
    match job.blocks.as_slice().get(block as usize) {
        Some(found) => args == found.args as usize,
        None => false,
    }
}

/// Whether a variable is there.
pub(super) fn is_named(job: &Job, var: u8) -> bool
    ensures { result ≡ nat_lt var (length job.now.vars) }
{
    (var as usize) < job.vars.len()
}

/// How many scalars are set behind a statement, where it is whole.
#[cycle(scan)]
fn scan(job: &Job, stmt: &Stmt, depth: u32, scalars: u8) -> Option<u8>
    ensures { result ≡ scan_of job.now stmt.now depth scalars }
{
    match stmt {
        Stmt::Do { block, args } => {
            if is_call(job, *block, args.len()) && are_atoms(scalars, args.as_slice()) {
                Some(scalars)
            } else {
                None
            }
        }
        Stmt::Let {
            scalar,
            first,
            rest,
        } => {
            if is_atom(scalars, *first) && is_rest(scalars, *rest) {
                set_at(scalars, *scalar)
            } else {
                None
            }
        }
        Stmt::Get { scalar, var, .. } => {
            if is_named(job, *var) {
                set_at(scalars, *scalar)
            } else {
                None
            }
        }
        Stmt::Loop { turns, body } => {
            if is_atom(scalars, *turns) {
                scan_body(job, body.as_slice(), depth, scalars)
            } else {
                None
            }
        }
        Stmt::While { cond, body } => {
            if is_cond(scalars, *cond) {
                scan_body(job, body.as_slice(), depth, scalars)
            } else {
                None
            }
        }
        Stmt::If {
            cond,
            first,
            second,
        } => {
            if !is_cond(scalars, *cond) {
                return None;
            }
            match scan_body(job, first.as_slice(), depth, scalars) {
                Some(behind) => scan_body(job, second.as_slice(), depth, behind),
                None => None,
            }
        }
        Stmt::Checkpoint => Some(scalars),
        Stmt::Output { var } => {
            if is_named(job, *var) {
                Some(scalars)
            } else {
                None
            }
        }
    }
}

/// How many scalars are set behind what a loop, while or if holds. Nothing where it would nest more than 16 deep:
/// it isn't looked at then.
#[cycle(scan)]
fn scan_body(job: &Job, body: &[Stmt], depth: u32, scalars: u8) -> Option<u8>
    ensures { result ≡ scan_body (map (scan_of job.now) body.now) depth scalars }
{
    if depth < 16 {
        scan_all(job, body, depth + 1, scalars)
    } else {
        None
    }
}

/// How many scalars are set behind statements one after another, where each is whole.
#[cycle(scan)]
pub(super) fn scan_all(job: &Job, body: &[Stmt], depth: u32, scalars: u8) -> Option<u8>
    ensures { result ≡ scan_all (map (scan_of job.now) body.now) depth scalars }
{
    let mut behind = scalars;
    for stmt in body {
        match scan(job, stmt, depth, behind) {
            Some(set) => behind = set,
            None => return None,
        }
    }
    Some(behind)
}
