//! The parts of lines, each a production of `specs/Grammar.antt`.

ghost use Rattle.std.specs.Prelude.{◌≡◌};
ghost use Rattle.nim_parse.specs.Grammar as spec;
ghost use Rattle.nim_parse.specs.Input.{Reads, name};

use crate::cursor::Cursor;
use crate::fault::Unread;
use crate::lists::{Item, ends, listed, some_after};
use crate::{Atom, Condition, Expression, Index, Init, Operator, Ref, Relation};
use nim_base::Seq;
use std::alloc::Global;

impl Item for Seq<u8> {
    ghost parser = { name };

    fn read(alloc: Global, cursor: &mut Cursor<'_>) -> Result<Seq<u8>, Unread> {
        cursor.name(alloc)
    }
}

impl Item for Atom {
    ghost parser = { spec.atom };

    fn read(alloc: Global, cursor: &mut Cursor<'_>) -> Result<Atom, Unread> {
        atom(alloc, cursor)
    }
}

impl Item for Ref {
    ghost parser = { spec.reference };

    fn read(alloc: Global, cursor: &mut Cursor<'_>) -> Result<Ref, Unread> {
        reference(alloc, cursor)
    }
}

/// Names with commas between them, in brackets; there may be none.
#[tactic(auto, unfolding(crate::specs::Grammar::names))]
pub fn names(alloc: Global, cursor: &mut Cursor<'_>) -> Result<Seq<Seq<u8>>, Unread>
    ensures { Reads (spec.names cursor.old) result cursor.new }
{
    listed(alloc, cursor)
}

/// A number with its sign, or a name.
#[tactic(auto, unfolding(crate::specs::Grammar::atom))]
pub fn atom(alloc: Global, cursor: &mut Cursor<'_>) -> Result<Atom, Unread>
    ensures { Reads (spec.atom cursor.old) result cursor.new }
{
    if cursor.sees_name() {
        Ok(Atom::Name(cursor.name(alloc)?))
    } else {
        Ok(Atom::Number(cursor.int()?))
    }
}

/// Atoms with commas between them, in brackets; there may be none.
#[tactic(auto, unfolding(crate::specs::Grammar::atoms))]
pub fn atoms(alloc: Global, cursor: &mut Cursor<'_>) -> Result<Seq<Atom>, Unread>
    ensures { Reads (spec.atoms cursor.old) result cursor.new }
{
    listed(alloc, cursor)
}

#[tactic(auto, unfolding(crate::specs::Grammar::own_index))]
fn own_index(cursor: &mut Cursor<'_>) -> Result<Index, Unread>
    ensures { Reads (spec.own_index cursor.old) result cursor.new }
{
    if cursor.eat(b"+") {
        return Ok(Index::After(cursor.number()?));
    }
    if cursor.eat(b"-") {
        return Ok(Index::Before(cursor.number()?));
    }
    Ok(Index::Own)
}

#[tactic(auto, unfolding(crate::specs::Grammar::index))]
fn index(cursor: &mut Cursor<'_>) -> Result<Index, Unread>
    ensures { Reads (spec.index cursor.old) result cursor.new }
{
    if cursor.eat(b"i") {
        own_index(cursor)
    } else {
        Ok(Index::Part(cursor.number()?))
    }
}

#[tactic(auto, unfolding(crate::specs::Grammar::reference))]
fn reference(alloc: Global, cursor: &mut Cursor<'_>) -> Result<Ref, Unread>
    ensures { Reads (spec.reference cursor.old) result cursor.new }
{
    let name = cursor.name(alloc)?;
    cursor.expect(b"[")?;
    let index = index(cursor)?;
    cursor.expect(b"]")?;
    Ok(Ref { name, index })
}

/// What a variable holds at first: `fill` with a number, `iota`, or `load`.
#[tactic(auto, unfolding(crate::specs::Grammar::init))]
pub fn init(cursor: &mut Cursor<'_>) -> Result<Init, Unread>
    ensures { Reads (spec.init cursor.old) result cursor.new }
{
    if cursor.eat(b"fill") {
        return Ok(Init::Fill(cursor.int()?));
    }
    if cursor.eat(b"iota") {
        return Ok(Init::Iota);
    }
    cursor.expect(b"load")?;
    Ok(Init::Load)
}

/// The references that a stage reads, up to its `->`; there may be none.
pub fn reads(alloc: Global, cursor: &mut Cursor<'_>) -> Result<Seq<Ref>, Unread>
    ensures { Reads (spec.reads cursor.old) result cursor.new }
{
    let mut found = Seq::new(alloc);
    for _turn in 0..cursor.left() {
        if cursor.eat(b"->") {
            return Ok(found);
        }
        found.push(reference(alloc, cursor)?)?;
    }
    Err(Unread::Malformed)
}

/// The references that a stage writes, one or more, up to `with`, `each` or the end of the line.
#[tactic(auto, unfolding(crate::specs::Grammar::writes))]
pub fn writes(alloc: Global, cursor: &mut Cursor<'_>) -> Result<Seq<Ref>, Unread>
    ensures { Reads (spec.writes cursor.old) result cursor.new }
{
    let first = reference(alloc, cursor)?;
    some_after(alloc, cursor, first)
}

#[tactic(auto, unfolding(crate::specs::Grammar::values))]
fn values(alloc: Global, cursor: &mut Cursor<'_>) -> Result<Seq<Atom>, Unread>
    ensures { Reads (spec.values cursor.old) result cursor.new }
{
    if ends(cursor) {
        return Err(Unread::Malformed);
    }
    let first = atom(alloc, cursor)?;
    some_after(alloc, cursor, first)
}

/// The atoms behind `with`, one or more; none where the word isn't there.
#[tactic(auto, unfolding(crate::specs::Grammar::parameters))]
pub fn parameters(alloc: Global, cursor: &mut Cursor<'_>) -> Result<Seq<Atom>, Unread>
    ensures { Reads (spec.parameters cursor.old) result cursor.new }
{
    if cursor.eat(b"with") {
        values(alloc, cursor)
    } else {
        Ok(Seq::new(alloc))
    }
}

/// Whether `each i` comes next, which is taken; `Malformed` where `each` stands without `i`.
#[tactic(auto, unfolding(crate::specs::Grammar::each))]
pub fn each(cursor: &mut Cursor<'_>) -> Result<bool, Unread>
    ensures { Reads (spec.each cursor.old) result cursor.new }
{
    if cursor.eat(b"each") {
        cursor.expect(b"i")?;
        Ok(true)
    } else {
        Ok(false)
    }
}

#[tactic(auto, unfolding(crate::specs::Grammar::operator))]
fn operator(cursor: &mut Cursor<'_>) -> Option<Operator>
    ensures { spec.operator cursor.old ≡ Some (result, cursor.new) }
{
    if cursor.eat(b"+") {
        Some(Operator::Add)
    } else if cursor.eat(b"-") {
        Some(Operator::Subtract)
    } else if cursor.eat(b"*") {
        Some(Operator::Multiply)
    } else if cursor.eat(b"/") {
        Some(Operator::Divide)
    } else if cursor.eat(b"%") {
        Some(Operator::Remainder)
    } else {
        None
    }
}

/// The value of a `let`: an atom, or two with a sign between.
#[tactic(auto, unfolding(crate::specs::Grammar::expression))]
pub fn expression(alloc: Global, cursor: &mut Cursor<'_>) -> Result<Expression, Unread>
    ensures { Reads (spec.expression cursor.old) result cursor.new }
{
    let left = atom(alloc, cursor)?;
    match operator(cursor) {
        None => Ok(Expression::Alone(left)),
        Some(operator) => Ok(Expression::Two {
            left,
            operator,
            right: atom(alloc, cursor)?,
        }),
    }
}

#[tactic(auto, unfolding(crate::specs::Grammar::relation))]
fn relation(cursor: &mut Cursor<'_>) -> Option<Relation>
    ensures { spec.relation cursor.old ≡ Some (result, cursor.new) }
{
    if cursor.eat(b"<") {
        Some(Relation::Less)
    } else if cursor.eat(b"<=") {
        Some(Relation::AtMost)
    } else if cursor.eat(b"=") {
        Some(Relation::Equal)
    } else if cursor.eat(b"!=") {
        Some(Relation::NotEqual)
    } else if cursor.eat(b">") {
        Some(Relation::Greater)
    } else if cursor.eat(b">=") {
        Some(Relation::AtLeast)
    } else {
        None
    }
}

/// An atom, or two with a comparison between.
#[tactic(auto, unfolding(crate::specs::Grammar::condition))]
pub fn condition(alloc: Global, cursor: &mut Cursor<'_>) -> Result<Condition, Unread>
    ensures { Reads (spec.condition cursor.old) result cursor.new }
{
    let left = atom(alloc, cursor)?;
    match relation(cursor) {
        None => Ok(Condition::NotZero(left)),
        Some(relation) => Ok(Condition::Holds {
            left,
            relation,
            right: atom(alloc, cursor)?,
        }),
    }
}
