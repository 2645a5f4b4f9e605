ghost use Rattle.std.specs.Prelude.{◌≡◌, ◌∷◌, [], OnOk};
ghost use Rattle.nim_parse.specs.Nesting.{head, is_empty, nested, tail};

use crate::Statement;
use nim_base::NoMemory;
use std::alloc::Global;
use std::marker::Model;

/// What an `end` would close.
#[derive(Clone, Copy)]
pub enum Open {
    /// A `loop` or a `while`.
    Turns,
    /// An `if` without its `else`.
    If,
    /// An `if` that has its `else`.
    Else,
}

/// The loops, whiles and ifs that stand open. Contracts see them as a list, the innermost first.
#[derive(Drop)]
pub struct Nest {
    stack: Vec<Open>,
}

impl Model for Nest {
    ghost use Rattle.std.specs.Prelude.{List, reverse};
    ghost use Rattle.nim_parse.specs.declared.nest.Open.{Open};
    ghost use Rattle.nim_parse.specs.contracts.nest.Open as opening;
    ghost use Rattle.std.specs.Coded.{coded_list};

    ghost Value = { List Open };

    ghost coded = { coded_list opening.the_row.coded };

    ghost view = { λ n. reverse n.stack.items };
}

impl Nest {
    /// Nothing is open.
    pub fn new(alloc: Global) -> Nest
        ensures { result ≡ [] }
    {
        Nest {
            stack: Vec::new(alloc),
        }
    }

    /// Whether nothing is open.
    pub fn is_empty(&self) -> bool
        ensures { result ≡ is_empty self.now }
    {
        self.stack.is_empty()
    }

    /// What was opened last of all that is still open.
    pub fn innermost(&self) -> Option<Open>
        ensures { result ≡ head self.now }
    {
        self.stack.last().copied()
    }

    fn push(&mut self, opening: Open) -> Result<(), NoMemory>
        ensures { OnOk result (self.new ≡ opening ∷ self.old) }
    {
        self.stack.push(opening)?;
        Ok(())
    }

    fn pop(&mut self)
        ensures { self.new ≡ tail self.old }
    {
        self.stack.pop();
    }

    /// Takes a statement in: a head opens, an `else` goes on, and an `end` closes.
    pub fn take(&mut self, statement: &Statement) -> Result<(), NoMemory>
        ensures { OnOk result (self.new ≡ nested statement.now self.old) }
    {
        match statement {
            Statement::Loop { .. } | Statement::While { .. } => self.push(Open::Turns),
            Statement::If { .. } => self.push(Open::If),
            Statement::Else => {
                self.pop();
                self.push(Open::Else)
            }
            Statement::End => {
                self.pop();
                Ok(())
            }
            _ => Ok(()),
        }
    }
}
