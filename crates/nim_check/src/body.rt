//! The statements of a job, put together from the last line on.

ghost use Rattle.std.specs.Prelude.{◌≡◌, map, reverse, IfOk, OnOk};
ghost use Rattle.nim_check.specs.Body as spec;
ghost use Rattle.nim_job.specs.declared.stmt.Stmt.TheVariants as stmt;
ghost use Rattle.nim_check.specs.Body.{AreFew, bodies_in, body_of, onto, opened, parted, with_line};
ghost use Rattle.nim_check.specs.Names.{place_in as spec_place};

use crate::names::place_in;
use nim_base::{NoMemory, Seq};
use nim_job::{Arith, Atom as JobAtom, Cmp, Cond, Stmt};
use nim_parse::{Atom, Condition, Expression, Line, Operator, Relation, Statement};
use sqlite_items::Items;
use std::alloc::Global;

/// The names that statements use, each by its number.
#[derive(Drop)]
pub struct Names {
    pub vars: Seq<Seq<u8>>,
    pub blocks: Seq<Seq<u8>>,
    pub scalars: Seq<Seq<u8>>,
}

/// The statements of a body that isn't opened yet, the last one first, and for an `if` those behind its `else`.
#[derive(Drop)]
pub struct Held {
    first: Vec<Stmt>,
    second: Vec<Stmt>,
}

/// The statements that lines stand for.
pub fn make_body(alloc: Global, names: &Names, lines: &[Line]) -> Result<Items<Stmt>, NoMemory>
    requires { AreFew names.now }
    ensures { IfOk result (λ made. made ≡ body_of names.now lines.now) }
{
    let mut bodies = Vec::new(alloc);
    bodies.push(Held {
        first: Vec::new(alloc),
        second: Vec::new(alloc),
    })?;
    let mut left = lines.len();
    while left > 0 {
        left -= 1;
        take_line(alloc, names, &lines[left].statement, &mut bodies)?;
    }
    match bodies.pop() {
        Some(body) => Ok(in_order(body.first)),
        None => Ok(Items::new(alloc)),
    }
}

fn atom_of(names: &Names, atom: &Atom) -> JobAtom
    requires { AreFew names.now }
    ensures { result ≡ spec.atom_of names.now atom.now }
{
    match atom {
        Atom::Number(number) => JobAtom::Const(*number),
        Atom::Name(word) => JobAtom::Scalar(
            place_in(names.scalars.as_slice(), word.as_slice()) as u8,
        ),
    }
}

fn atoms_of(alloc: Global, names: &Names, atoms: &[Atom]) -> Result<Seq<JobAtom>, NoMemory>
    requires { AreFew names.now }
    ensures { IfOk result (λ made. made ≡ map (spec.atom_of names.now) atoms.now) }
{
    let mut made = Seq::new(alloc);
    for atom in atoms {
        made.push(atom_of(names, atom))?;
    }
    Ok(made)
}

fn arith_of(operator: Operator) -> Arith
    ensures { result ≡ spec.arith_of operator }
{
    match operator {
        Operator::Add => Arith::Plus,
        Operator::Subtract => Arith::Minus,
        Operator::Multiply => Arith::Times,
        Operator::Divide => Arith::Divide,
        Operator::Remainder => Arith::Remainder,
    }
}

fn cmp_of(relation: Relation) -> Cmp
    ensures { result ≡ spec.cmp_of relation }
{
    match relation {
        Relation::Less => Cmp::Less,
        Relation::AtMost => Cmp::AtMost,
        Relation::Equal => Cmp::Equal,
        Relation::NotEqual => Cmp::Differs,
        Relation::Greater => Cmp::Greater,
        Relation::AtLeast => Cmp::AtLeast,
    }
}

fn cond_of(names: &Names, condition: &Condition) -> Cond
    requires { AreFew names.now }
    ensures { result ≡ spec.cond_of names.now condition.now }
{
    match condition {
        Condition::NotZero(atom) => Cond {
            left: atom_of(names, atom),
            cmp: Cmp::Differs,
            right: JobAtom::Const(0),
        },
        Condition::Holds {
            left,
            relation,
            right,
        } => Cond {
            left: atom_of(names, left),
            cmp: cmp_of(*relation),
            right: atom_of(names, right),
        },
    }
}

fn first_of(names: &Names, value: &Expression) -> JobAtom
    requires { AreFew names.now }
    ensures { result ≡ spec.first_of names.now value.now }
{
    match value {
        Expression::Alone(atom) => atom_of(names, atom),
        Expression::Two { left, .. } => atom_of(names, left),
    }
}

fn rest_of(names: &Names, value: &Expression) -> Option<(Arith, JobAtom)>
    requires { AreFew names.now }
    ensures { result ≡ spec.rest_of names.now value.now }
{
    match value {
        Expression::Alone(_) => None,
        Expression::Two {
            operator,
            right,
            ..
        } => Some((arith_of(*operator), atom_of(names, right))),
    }
}

fn in_order(held: Vec<Stmt>) -> Items<Stmt>
    ensures { result ≡ reverse held.items }
{
    let mut statements = held;
    statements.reverse();
    Items::from_vec(statements)
}

/// Puts a statement before the others of the innermost body.
fn put(bodies: &mut Vec<Held>, made: Stmt) -> Result<(), NoMemory>
    ensures { OnOk result (bodies_in bodies.new.items ≡ onto made (bodies_in bodies.old.items)) }
{
    if let Some(Held { mut first, second }) = bodies.pop() {
        first.push(made)?;
        bodies.push(Held { first, second })?;
    }
    Ok(())
}

fn do_of(alloc: Global, names: &Names, block: &[u8], arguments: &[Atom]) -> Result<Stmt, NoMemory>
    requires { AreFew names.now }
    ensures { IfOk result (λ made. made ≡ stmt.Do (spec_place names.now.blocks block.now)
        (map (spec.atom_of names.now) arguments.now)) }
{
    Ok(Stmt::Do {
        block: place_in(names.blocks.as_slice(), block) as u8,
        args: atoms_of(alloc, names, arguments)?,
    })
}

fn let_of(names: &Names, name: &[u8], value: &Expression) -> Stmt
    requires { AreFew names.now }
    ensures { result ≡ stmt.Let (spec_place names.now.scalars name.now) (spec.first_of names.now value.now)
        (spec.rest_of names.now value.now) }
{
    Stmt::Let {
        scalar: place_in(names.scalars.as_slice(), name) as u8,
        first: first_of(names, value),
        rest: rest_of(names, value),
    }
}

/// A loop takes the innermost body in.
fn open_loop(names: &Names, turns: &Atom, bodies: &mut Vec<Held>) -> Result<(), NoMemory>
    requires { AreFew names.now }
    ensures { OnOk result (bodies_in bodies.new.items
        ≡ opened (λ body. stmt.Loop (spec.atom_of names.now turns.now) body.first) (bodies_in bodies.old.items)) }
{
    match bodies.pop() {
        Some(Held { first, .. }) => {
            let made = Stmt::Loop {
                turns: atom_of(names, turns),
                body: in_order(first),
            };
            put(bodies, made)
        }
        None => Ok(()),
    }
}

/// A while takes the innermost body in.
fn open_while(names: &Names, condition: &Condition, bodies: &mut Vec<Held>) -> Result<(), NoMemory>
    requires { AreFew names.now }
    ensures { OnOk result (bodies_in bodies.new.items
        ≡ opened (λ body. stmt.While (spec.cond_of names.now condition.now) body.first) (bodies_in bodies.old.items)) }
{
    match bodies.pop() {
        Some(Held { first, .. }) => {
            let made = Stmt::While {
                cond: cond_of(names, condition),
                body: in_order(first),
            };
            put(bodies, made)
        }
        None => Ok(()),
    }
}

/// An if takes both parts of the innermost body in.
fn open_if(names: &Names, condition: &Condition, bodies: &mut Vec<Held>) -> Result<(), NoMemory>
    requires { AreFew names.now }
    ensures { OnOk result (bodies_in bodies.new.items
        ≡ opened (λ body. stmt.If (spec.cond_of names.now condition.now) body.first body.second)
        (bodies_in bodies.old.items)) }
{
    match bodies.pop() {
        Some(Held { first, second }) => {
            let made = Stmt::If {
                cond: cond_of(names, condition),
                first: in_order(first),
                second: in_order(second),
            };
            put(bodies, made)
        }
        None => Ok(()),
    }
}

/// What is behind an `else` becomes the second part of the innermost body.
fn part(alloc: Global, bodies: &mut Vec<Held>) -> Result<(), NoMemory>
    ensures { OnOk result (bodies_in bodies.new.items ≡ parted (bodies_in bodies.old.items)) }
{
    if let Some(Held { first, .. }) = bodies.pop() {
        bodies.push(Held {
            first: Vec::new(alloc),
            second: first,
        })?;
    }
    Ok(())
}

/// Takes the line before those that made the bodies.
fn take_line(
    alloc: Global,
    names: &Names,
    statement: &Statement,
    bodies: &mut Vec<Held>,
) -> Result<(), NoMemory>
    requires { AreFew names.now }
    ensures { OnOk result (bodies_in bodies.new.items ≡ with_line names.now statement.now
        (bodies_in bodies.old.items)) }
{
    match statement {
        Statement::Do { block, arguments } => {
            let made = do_of(alloc, names, block.as_slice(), arguments.as_slice())?;
            put(bodies, made)
        }
        Statement::Let { name, value } => put(bodies, let_of(names, name.as_slice(), value)),
        Statement::Get {
            name,
            variable,
            part,
            row,
            column,
        } => {
            let made = Stmt::Get {
                scalar: place_in(names.scalars.as_slice(), name.as_slice()) as u8,
                var: place_in(names.vars.as_slice(), variable.as_slice()) as u8,
                part: *part,
                row: *row,
                cell: *column,
            };
            put(bodies, made)
        }
        Statement::Loop { turns } => open_loop(names, turns, bodies),
        Statement::While { condition } => open_while(names, condition, bodies),
        Statement::If { condition } => open_if(names, condition, bodies),
        Statement::Else => part(alloc, bodies),
        Statement::End => Ok(bodies.push(Held {
            first: Vec::new(alloc),
            second: Vec::new(alloc),
        })?),
        Statement::Checkpoint => put(bodies, Stmt::Checkpoint),
        Statement::Output { variable } => {
            let made = Stmt::Output {
                var: place_in(names.vars.as_slice(), variable.as_slice()) as u8,
            };
            put(bodies, made)
        }
    }
}
