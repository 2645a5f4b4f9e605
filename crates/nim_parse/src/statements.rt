//! The statements, each a production of `specs/Grammar.antt`, and the first word of a line.

ghost use Rattle.std.specs.Prelude.{◌≡◌};
ghost use Rattle.nim_parse.specs.Grammar as spec;
ghost use Rattle.nim_parse.specs.Input.{Reads};

use crate::Statement;
use crate::cursor::Cursor;
use crate::fault::Unread;
use crate::form::Head;
use crate::parts::{atom, atoms, condition, expression};
use std::alloc::Global;

#[tactic(auto, unfolding(crate::specs::Grammar::do_line))]
fn read_do(alloc: Global, cursor: &mut Cursor<'_>) -> Result<Statement, Unread>
    ensures { Reads (spec.do_line cursor.old) result cursor.new }
{
    cursor.expect(b"do")?;
    let block = cursor.name(alloc)?;
    let arguments = atoms(alloc, cursor)?;
    cursor.done()?;
    Ok(Statement::Do { block, arguments })
}

#[tactic(auto, unfolding(crate::specs::Grammar::let_line))]
fn read_let(alloc: Global, cursor: &mut Cursor<'_>) -> Result<Statement, Unread>
    ensures { Reads (spec.let_line cursor.old) result cursor.new }
{
    cursor.expect(b"let")?;
    let name = cursor.name(alloc)?;
    cursor.expect(b"=")?;
    let value = expression(alloc, cursor)?;
    cursor.done()?;
    Ok(Statement::Let { name, value })
}

#[tactic(auto, unfolding(crate::specs::Grammar::get_line))]
fn read_get(alloc: Global, cursor: &mut Cursor<'_>) -> Result<Statement, Unread>
    ensures { Reads (spec.get_line cursor.old) result cursor.new }
{
    cursor.expect(b"get")?;
    let name = cursor.name(alloc)?;
    cursor.expect(b"=")?;
    let variable = cursor.name(alloc)?;
    cursor.expect(b"[")?;
    let part = cursor.number()?;
    cursor.expect(b"]")?;
    let row = cursor.number()?;
    let column = cursor.number()?;
    cursor.done()?;
    Ok(Statement::Get {
        name,
        variable,
        part,
        row,
        column,
    })
}

#[tactic(auto, unfolding(crate::specs::Grammar::loop_line))]
fn read_loop(alloc: Global, cursor: &mut Cursor<'_>) -> Result<Statement, Unread>
    ensures { Reads (spec.loop_line cursor.old) result cursor.new }
{
    cursor.expect(b"loop")?;
    let turns = atom(alloc, cursor)?;
    cursor.done()?;
    Ok(Statement::Loop { turns })
}

#[tactic(auto, unfolding(crate::specs::Grammar::while_line))]
fn read_while(alloc: Global, cursor: &mut Cursor<'_>) -> Result<Statement, Unread>
    ensures { Reads (spec.while_line cursor.old) result cursor.new }
{
    cursor.expect(b"while")?;
    let condition = condition(alloc, cursor)?;
    cursor.done()?;
    Ok(Statement::While { condition })
}

#[tactic(auto, unfolding(crate::specs::Grammar::if_line))]
fn read_if(alloc: Global, cursor: &mut Cursor<'_>) -> Result<Statement, Unread>
    ensures { Reads (spec.if_line cursor.old) result cursor.new }
{
    cursor.expect(b"if")?;
    let condition = condition(alloc, cursor)?;
    cursor.done()?;
    Ok(Statement::If { condition })
}

/// A word that stands alone on its line.
#[tactic(auto, unfolding(crate::specs::Grammar::alone))]
fn read_alone(
    cursor: &mut Cursor<'_>,
    word: &[u8],
    statement: Statement,
) -> Result<Statement, Unread>
    ensures { Reads (spec.alone word.now statement cursor.old) result cursor.new }
{
    cursor.expect(word)?;
    cursor.done()?;
    Ok(statement)
}

#[tactic(auto, unfolding(crate::specs::Grammar::output_line))]
fn read_output(alloc: Global, cursor: &mut Cursor<'_>) -> Result<Statement, Unread>
    ensures { Reads (spec.output_line cursor.old) result cursor.new }
{
    cursor.expect(b"output")?;
    let variable = cursor.name(alloc)?;
    cursor.done()?;
    Ok(Statement::Output { variable })
}

/// The statement on a line that begins with this word; `Malformed` where the line isn't of its form.
pub fn read_statement(
    alloc: Global,
    cursor: &mut Cursor<'_>,
    head: Head,
) -> Result<Statement, Unread>
    ensures { Reads (spec.statement_by head cursor.old) result cursor.new }
{
    match head {
        Head::Do => read_do(alloc, cursor),
        Head::Let => read_let(alloc, cursor),
        Head::Get => read_get(alloc, cursor),
        Head::Loop => read_loop(alloc, cursor),
        Head::While => read_while(alloc, cursor),
        Head::If => read_if(alloc, cursor),
        Head::Else => read_alone(cursor, b"else", Statement::Else),
        Head::End => read_alone(cursor, b"end", Statement::End),
        Head::Checkpoint => read_alone(cursor, b"checkpoint", Statement::Checkpoint),
        Head::Output => read_output(alloc, cursor),
        _ => Err(Unread::Malformed),
    }
}

/// The first word of a line of which nothing was read.
#[tactic(auto, unfolding(crate::specs::Grammar::head_of))]
pub fn head_of(cursor: &Cursor<'_>) -> Head
    ensures { result ≡ spec.head_of cursor.now }
{
    if cursor.sees(b"nimbus") {
        Head::Nimbus
    } else if cursor.sees(b"steps") {
        Head::Steps
    } else if cursor.sees(b"var") {
        Head::Var
    } else if cursor.sees(b"block") {
        Head::Block
    } else if cursor.sees(b"do") {
        Head::Do
    } else if cursor.sees(b"let") {
        Head::Let
    } else if cursor.sees(b"get") {
        Head::Get
    } else if cursor.sees(b"loop") {
        Head::Loop
    } else if cursor.sees(b"while") {
        Head::While
    } else if cursor.sees(b"if") {
        Head::If
    } else if cursor.sees(b"else") {
        Head::Else
    } else if cursor.sees(b"end") {
        Head::End
    } else if cursor.sees(b"checkpoint") {
        Head::Checkpoint
    } else if cursor.sees(b"output") {
        Head::Output
    } else {
        Head::Other
    }
}
