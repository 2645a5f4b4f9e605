ghost use Rattle.std.specs.Prelude.{◌≡◌, ◌≤◌, ◌<◌, ◌+◌, OnOk};
ghost use Rattle.nim_check.specs.DriverPlaces.{empty_scope, scope_with, with_scalar};

use crate::names::is_in;
use nim_base::{Copied, NoMemory, Seq};
use nim_parse::Statement;
use std::alloc::Global;

/// What is in scope at a line: the scalars that the statements before it set, in order, and how many loops, whiles and
/// ifs are open.
#[derive(Drop)]
pub struct Scope {
    pub scalars: Seq<Seq<u8>>,
    pub depth: u64,
}

impl Scope {
    /// Before the first statement: no scalar is set, and nothing is open.
    pub fn new(alloc: Global) -> Scope
        ensures { result ≡ empty_scope }
    {
        Scope {
            scalars: Seq::new(alloc),
            depth: 0,
        }
    }

    fn set(&mut self, name: &Seq<u8>) -> Result<(), NoMemory>
        ensures { OnOk result (self.new ≡ record self.old { scalars = with_scalar self.old.scalars name.now }) }
    {
        if !is_in(self.scalars.as_slice(), name.as_slice()) {
            self.scalars.push(name.copy()?)?;
        }
        Ok(())
    }

    /// Takes a statement in.
    pub fn take(&mut self, statement: &Statement) -> Result<(), NoMemory>
        requires { self.old.depth < 18446744073709551615 }
        ensures scope { OnOk result (self.new ≡ scope_with self.old statement.now) }
        ensures depth { OnOk result (self.new.depth ≤ self.old.depth + 1) }
    {
        match statement {
            Statement::Let { name, .. } => self.set(name)?,
            Statement::Get { name, .. } => self.set(name)?,
            Statement::Loop { .. } | Statement::While { .. } | Statement::If { .. } => {
                self.depth += 1;
            }
            Statement::End => self.depth = self.depth.saturating_sub(1),
            _ => {}
        }
        Ok(())
    }
}
