//! The lines of a driver, each a production of `specs/Grammar.antt`.

ghost use Rattle.std.specs.Prelude.{◌≡◌};
ghost use Rattle.nim_parse.specs.Grammar as spec;
ghost use Rattle.nim_parse.specs.Input.{Reads};

use crate::cursor::Cursor;
use crate::fault::Unread;
use crate::form::{Form, Head};
use crate::parts::{each, init, names, parameters, reads, writes};
use crate::statements::read_statement;
use crate::{Block, Line, Stage, Steps, Var};
use nim_base::Seq;
use std::alloc::Global;

#[tactic(auto, unfolding(crate::specs::Grammar::header))]
fn read_header(cursor: &mut Cursor<'_>) -> Result<Form, Unread>
    ensures { Reads (spec.header cursor.old) result cursor.new }
{
    cursor.expect(b"nimbus")?;
    cursor.expect(b"1")?;
    cursor.done()?;
    Ok(Form::Header)
}

#[tactic(auto, unfolding(crate::specs::Grammar::steps))]
fn read_steps(cursor: &mut Cursor<'_>, line: u32) -> Result<Form, Unread>
    ensures { Reads (spec.steps line cursor.old) result cursor.new }
{
    cursor.expect(b"steps")?;
    let most = cursor.number()?;
    cursor.done()?;
    Ok(Form::Steps(Steps { line, most }))
}

#[tactic(auto, unfolding(crate::specs::Grammar::var))]
fn read_var(alloc: Global, cursor: &mut Cursor<'_>, line: u32) -> Result<Form, Unread>
    ensures { Reads (spec.var line cursor.old) result cursor.new }
{
    cursor.expect(b"var")?;
    let name = cursor.name(alloc)?;
    cursor.expect(b"parts")?;
    let parts = cursor.number()?;
    cursor.expect(b"width")?;
    let width = cursor.number()?;
    cursor.expect(b"rows")?;
    let rows = cursor.number()?;
    let init = init(cursor)?;
    cursor.done()?;
    Ok(Form::Var(Var {
        line,
        name,
        parts,
        width,
        rows,
        init,
    }))
}

#[tactic(auto, unfolding(crate::specs::Grammar::block))]
fn read_block(alloc: Global, cursor: &mut Cursor<'_>, line: u32) -> Result<Form, Unread>
    ensures { Reads (spec.block line cursor.old) result cursor.new }
{
    cursor.expect(b"block")?;
    let name = cursor.name(alloc)?;
    let arguments = names(alloc, cursor)?;
    cursor.done()?;
    Ok(Form::Block(Block {
        line,
        name,
        arguments,
        stages: Seq::new(alloc),
    }))
}

#[tactic(auto, unfolding(crate::specs::Grammar::stage))]
fn read_stage(alloc: Global, cursor: &mut Cursor<'_>, line: u32) -> Result<Form, Unread>
    ensures { Reads (spec.stage line cursor.old) result cursor.new }
{
    let function = cursor.name(alloc)?;
    let reads = reads(alloc, cursor)?;
    let writes = writes(alloc, cursor)?;
    let parameters = parameters(alloc, cursor)?;
    let each = each(cursor)?;
    cursor.done()?;
    Ok(Form::Stage(Stage {
        line,
        function,
        reads,
        writes,
        parameters,
        each,
    }))
}

#[tactic(auto, unfolding(crate::specs::Grammar::block_end))]
fn read_block_end(cursor: &mut Cursor<'_>) -> Result<Form, Unread>
    ensures { Reads (spec.block_end cursor.old) result cursor.new }
{
    cursor.expect(b"end")?;
    cursor.done()?;
    Ok(Form::BlockEnd)
}

#[tactic(auto, unfolding(crate::specs::Grammar::end_or_stage))]
fn end_or_stage(alloc: Global, cursor: &mut Cursor<'_>, line: u32) -> Result<Form, Unread>
    ensures { Reads (spec.end_or_stage line cursor.old) result cursor.new }
{
    if cursor.left() == 1 {
        read_block_end(cursor)
    } else {
        read_stage(alloc, cursor, line)
    }
}

fn inside(alloc: Global, cursor: &mut Cursor<'_>, line: u32, head: Head) -> Result<Form, Unread>
    ensures { Reads (spec.inside line head cursor.old) result cursor.new }
{
    match head {
        Head::Steps => read_steps(cursor, line),
        Head::Var => read_var(alloc, cursor, line),
        Head::Block => read_block(alloc, cursor, line),
        Head::End => end_or_stage(alloc, cursor, line),
        _ => read_stage(alloc, cursor, line),
    }
}

fn outside(alloc: Global, cursor: &mut Cursor<'_>, line: u32, head: Head) -> Result<Form, Unread>
    ensures { Reads (spec.outside line head cursor.old) result cursor.new }
{
    match head {
        Head::Nimbus => read_header(cursor),
        Head::Steps => read_steps(cursor, line),
        Head::Var => read_var(alloc, cursor, line),
        Head::Block => read_block(alloc, cursor, line),
        _ => {
            let statement = read_statement(alloc, cursor, head)?;
            Ok(Form::Statement(Line { line, statement }))
        }
    }
}

/// A line, which stands inside a block or not, by its first word.
#[tactic(auto, unfolding(crate::specs::Grammar::line_form))]
pub fn read_line(
    alloc: Global,
    cursor: &mut Cursor<'_>,
    in_block: bool,
    line: u32,
    head: Head,
) -> Result<Form, Unread>
    ensures { Reads (spec.line_form in_block line head cursor.old) result cursor.new }
{
    if in_block {
        inside(alloc, cursor, line, head)
    } else {
        outside(alloc, cursor, line, head)
    }
}
