ghost use Rattle.std.specs.Prelude.{◌≡◌, IfOk};

use crate::{Atom, Stmt};
use nim_base::{Copied, NoMemory};
use sqlite_items::Items;
use std::alloc::Global;

impl Copied for Atom {
    fn copy(&self) -> Result<Atom, NoMemory> {
        Ok(*self)
    }
}

/// An equal statement.
#[cycle(copy)]
pub(crate) fn copy_stmt(alloc: Global, stmt: &Stmt) -> Result<Stmt, NoMemory>
    ensures { IfOk result (λ other. other ≡ stmt.now) }
{
    Ok(match stmt {
        Stmt::Do { block, args } => Stmt::Do {
            block: *block,
            args: args.copy()?,
        },
        Stmt::Let {
            scalar,
            first,
            rest,
        } => Stmt::Let {
            scalar: *scalar,
            first: *first,
            rest: *rest,
        },
        Stmt::Get {
            scalar,
            var,
            part,
            row,
            cell,
        } => Stmt::Get {
            scalar: *scalar,
            var: *var,
            part: *part,
            row: *row,
            cell: *cell,
        },
        Stmt::Loop { turns, body } => Stmt::Loop {
            turns: *turns,
            body: copy_stmts(alloc, body.as_slice())?,
        },
        Stmt::While { cond, body } => Stmt::While {
            cond: *cond,
            body: copy_stmts(alloc, body.as_slice())?,
        },
        Stmt::If {
            cond,
            first,
            second,
        } => Stmt::If {
            cond: *cond,
            first: copy_stmts(alloc, first.as_slice())?,
            second: copy_stmts(alloc, second.as_slice())?,
        },
        Stmt::Checkpoint => Stmt::Checkpoint,
        Stmt::Output { var } => Stmt::Output { var: *var },
    })
}

/// Equal statements, in order.
#[cycle(copy)]
pub(crate) fn copy_stmts(alloc: Global, stmts: &[Stmt]) -> Result<Items<Stmt>, NoMemory>
    ensures { IfOk result (λ other. other ≡ stmts.now) }
{
    let mut other = Items::new(alloc);
    for stmt in stmts {
        other.push(copy_stmt(alloc, stmt)?)?;
    }
    Ok(other)
}
