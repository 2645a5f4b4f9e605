//! Lists of items of one kind, each a production of `specs/Grammar.antt`.

ghost use Rattle.std.specs.Prelude.{◌≡◌};
ghost use Rattle.nim_parse.specs.Grammar as spec;
ghost use Rattle.nim_parse.specs.Input.{Parser, Reads};

use crate::cursor::Cursor;
use crate::fault::Unread;
use nim_base::Seq;
use std::alloc::Global;

/// What stands in lists, with the production that reads one.
pub trait Item: Drop {
    ghost parser: { Parser Self };

    fn read(alloc: Global, cursor: &mut Cursor<'_>) -> Result<Self, Unread>
        ensures { Reads (parser cursor.old) result cursor.new };
}

/// Items in brackets, with commas between them.
pub fn listed<T: Item>(alloc: Global, cursor: &mut Cursor<'_>) -> Result<Seq<T>, Unread>
    ensures { Reads (spec.listed T.parser cursor.old) result cursor.new }
{
    cursor.expect(b"(")?;
    if cursor.eat(b")") {
        return Ok(Seq::new(alloc));
    }
    let first = T::read(alloc, cursor)?;
    more(alloc, cursor, first)
}

fn more<T: Item>(alloc: Global, cursor: &mut Cursor<'_>, first: T) -> Result<Seq<T>, Unread>
    ensures { Reads (spec.more T.parser first cursor.old) result cursor.new }
{
    let mut found = Seq::new(alloc);
    found.push(first)?;
    for _turn in 0..cursor.left() {
        if cursor.eat(b")") {
            return Ok(found);
        }
        cursor.expect(b",")?;
        found.push(T::read(alloc, cursor)?)?;
    }
    Err(Unread::Malformed)
}

/// The list ends here: behind it stand the words `with` and `each` or the end of the line.
#[tactic(auto, unfolding(crate::specs::Grammar::ends))]
pub fn ends(cursor: &Cursor<'_>) -> bool
    ensures { result ≡ spec.ends cursor.now }
{
    cursor.left() == 0 || cursor.sees(b"with") || cursor.sees(b"each")
}

/// The first item with those behind it, up to the end of the list.
pub fn some_after<T: Item>(
    alloc: Global,
    cursor: &mut Cursor<'_>,
    first: T,
) -> Result<Seq<T>, Unread>
    ensures { Reads (spec.some_after T.parser first cursor.old) result cursor.new }
{
    let mut found = Seq::new(alloc);
    found.push(first)?;
    for _turn in 0..cursor.left() {
        if ends(cursor) {
            return Ok(found);
        }
        found.push(T::read(alloc, cursor)?)?;
    }
    Ok(found)
}
