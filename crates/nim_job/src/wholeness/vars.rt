ghost use Rattle.std.specs.Prelude.{◌≡◌, ◌≤◌, length, true};
ghost use Rattle.std.specs.List.{list_all, sum_by};
ghost use Rattle.nim_job.specs.Objects.{objects_of};
ghost use Rattle.nim_job.specs.Whole.{are_vars, cells_in, is_filled, is_loaded, is_var};

use crate::{Init, Var};
use nim_base::{Shape, Value};

/// Whether a variable is whole.
fn is_var(var: &Var) -> bool
    ensures { result ≡ is_var var.now }
{
    let area = var.shape.width as u64 * var.shape.rows as u64;
    var.parts >= 1
        && var.parts <= 64
        && var.shape.width >= 1
        && var.shape.width <= 65536
        && var.shape.rows >= 1
        && var.shape.rows <= 65536
        && area <= 65536
}

/// Whether each variable is whole.
fn are_each_var(vars: &[Var]) -> bool
    ensures { result ≡ list_all is_var vars.now }
{
    for var in vars {
        if !is_var(var) {
            return false;
        }
    }
    true
}

/// The objects of variables in all.
fn objects(vars: &[Var]) -> u64
    requires { length vars.now ≤ 32 }
    ensures { result ≡ objects_of vars.now }
{
    let mut objects: u64 = 0;
    for var in vars {
        objects += var.parts as u64;
    }
    objects
}

/// The cells of a variable.
fn cells_in(var: &Var) -> u64
    requires { is_var var.now ≡ true }
    ensures value { result ≡ cells_in var.now }
    ensures below { result ≤ 4194304 }
{
    let area = var.shape.width as u64 * var.shape.rows as u64;
    var.parts as u64 * area
}

/// The cells of variables in all.
fn cells(vars: &[Var]) -> u64
    requires few { length vars.now ≤ 32 }
    requires each { list_all is_var vars.now ≡ true }
    ensures { result ≡ sum_by cells_in vars.now }
{
    let mut cells: u64 = 0;
    for var in vars {
        cells += cells_in(var);
    }
    cells
}

/// Whether variables are whole.
pub(super) fn are_vars(vars: &[Var]) -> bool
    ensures { result ≡ are_vars vars.now }
{
    if vars.len() > 32 {
        return false;
    }
    if !are_each_var(vars) {
        return false;
    }
    objects(vars) <= 512 && cells(vars) <= 1_048_576
}

/// Whether each of these is a value that a data file gives for a part of the shape.
fn are_loaded(shape: Shape, values: &[Value]) -> bool
    ensures { result ≡ list_all (is_loaded shape) values.now }
{
    for value in values {
        if value.width() != shape.width || value.rows() > shape.rows {
            return false;
        }
    }
    true
}

/// Whether what a variable holds at first is there.
fn is_filled(var: &Var) -> bool
    ensures { result ≡ is_filled var.now }
{
    match &var.init {
        Init::Loaded(values) => {
            values.len() == var.parts as usize && are_loaded(var.shape, values.as_slice())
        }
        _ => true,
    }
}

/// Whether what each variable holds at first is there.
pub(super) fn are_filled(vars: &[Var]) -> bool
    ensures { result ≡ list_all is_filled vars.now }
{
    for var in vars {
        if !is_filled(var) {
            return false;
        }
    }
    true
}
