ghost use Rattle.std.specs.Prelude.{◌≡◌, ◌+◌, ◌<◌, ◌≤◌, ◌∷◌, ◌++◌, [], true, false, length, map, slice_get};
ghost use Rattle.std.specs.Prelude.{Some, option_copied, if◌then◌else◌};
ghost use Rattle.std.specs.Vec.{vec_capacity};
ghost use Rattle.nim_job.specs.declared.item.Item.TheVariants.{Run};
ghost use Rattle.nim_job.specs.declared.stmt.Stmt.{out-Stmt};
ghost use Rattle.nim_job.specs.Levels.{body_entered, body_in, closing_of, holds_kind, is_loop, is_path, is_settled};
ghost use Rattle.nim_job.specs.Levels.{IsOpen, moved_on, spot_of, stmt_before, stmt_behind, stmt_next, todo_of};
ghost use Rattle.nim_job.specs.Quiet.{again, is_quiet, is_quiet_stmt, items_left, items_scalars, stmt_left};
ghost use Rattle.nim_job.specs.Quiet.{stmt_scalars};

use crate::arith::{atom, is_met, set, value};
use crate::{Level, LevelKind, Stmt};

/// Takes the first item that is to do, where it asks nothing, and says whether there was such an item.
pub(crate) fn pass_first(whole: &[Stmt], levels: &mut Vec<Level>, scalars: &mut [i64]) -> bool
    requires open { IsOpen whole.now (vec_capacity levels.old) levels.old.items }
    ensures open { IsOpen whole.now (vec_capacity levels.new) levels.new.items }
    ensures quiet { result ≡ is_quiet (todo_of whole.now levels.old.items) }
    ensures todo { let todo = todo_of whole.now levels.old.items in
        todo_of whole.now levels.new.items ≡ (if result then items_left scalars.old todo else todo) }
    ensures scalars { let todo = todo_of whole.now levels.old.items in
        scalars.new ≡ (if result then items_scalars scalars.old todo else scalars.old) }
{
    let body = close(whole, levels);
    match levels.pop() {
        None => false,
        Some(last) => match stmt_at(body, last.next) {
            Some(stmt) => pass_stmt(whole, levels, last, body, stmt, scalars),
            None => {
                turn(whole, levels, last);
                true
            }
        },
    }
}

/// Leaves each body that is done, but a loop's, and gives the innermost body. What is to do stays: behind the body of a
/// `while` the `while` comes again.
pub(crate) fn close<'a>(whole: &'a [Stmt], levels: &mut Vec<Level>) -> &'a [Stmt]
    requires open { IsOpen whole.now (vec_capacity levels.old) levels.old.items }
    ensures open { IsOpen whole.now (vec_capacity levels.new) levels.new.items }
    ensures todo { todo_of whole.now levels.new.items ≡ todo_of whole.now levels.old.items }
    ensures body { result.now ≡ (spot_of whole.now levels.new.items).body }
    ensures settled { 0 < length levels.new.items → is_settled (spot_of whole.now levels.new.items) ≡ true }
{
    loop {
        let body = body_at(whole, levels.as_slice());
        if !leave(whole, levels, body) {
            return body;
        }
    }
}

/// Goes behind the statement that comes next.
pub(crate) fn skip_first(whole: &[Stmt], levels: &mut Vec<Level>, body: &[Stmt], stmt: &Stmt)
    requires open { IsOpen whole.now (vec_capacity levels.old) levels.old.items }
    requires body { body.now ≡ (spot_of whole.now levels.old.items).body }
    requires next { stmt_next (spot_of whole.now levels.old.items) ≡ Some stmt.now }
    ensures open { IsOpen whole.now (vec_capacity levels.new) levels.new.items }
    ensures todo { Run stmt.now ∷ todo_of whole.now levels.new.items ≡ todo_of whole.now levels.old.items }
{
    if let Some(last) = levels.pop() {
        skip(whole, levels, last, body, stmt);
    }
}

/// The statement that comes next in the innermost body.
pub(crate) fn next_stmt<'a>(whole: &[Stmt], levels: &[Level], body: &'a [Stmt]) -> Option<&'a Stmt>
    requires { body.now ≡ (spot_of whole.now levels.now).body }
    ensures { option_copied result ≡ stmt_next (spot_of whole.now levels.now) }
{
    match levels.last() {
        Some(last) => stmt_at(body, last.next),
        None => None,
    }
}

/// Puts other levels in place of these.
pub(crate) fn replace(whole: &[Stmt], levels: &mut Vec<Level>, others: &[Level])
    requires open { IsOpen whole.now (vec_capacity levels.old) levels.old.items }
    requires path { is_path whole.now others.now ≡ true }
    ensures open { IsOpen whole.now (vec_capacity levels.new) levels.new.items }
    ensures items { levels.new.items ≡ others.now }
{
    levels.clear();
    for level in others {
        levels.push_reserved(*level);
    }
}

/// Takes the statement that comes next in a level, where it asks nothing, and says whether it does.
fn pass_stmt(
    whole: &[Stmt],
    levels: &mut Vec<Level>,
    last: Level,
    body: &[Stmt],
    stmt: &Stmt,
    scalars: &mut [i64],
) -> bool
    requires open { IsOpen whole.now (vec_capacity levels.old) (levels.old.items ++ last ∷ []) }
    requires body { body.now ≡ (spot_of whole.now (levels.old.items ++ last ∷ [])).body }
    requires next { stmt_next (spot_of whole.now (levels.old.items ++ last ∷ [])) ≡ Some stmt.now }
    ensures open { IsOpen whole.now (vec_capacity levels.new) levels.new.items }
    ensures quiet { result ≡ is_quiet_stmt (out-Stmt stmt.now) }
    ensures todo { let rest = todo_of whole.now (levels.old.items ++ moved_on last ∷ []) in
        todo_of whole.now levels.new.items ≡ (if result then stmt_left scalars.old stmt.now (out-Stmt stmt.now) rest
        else Run stmt.now ∷ rest) }
    ensures scalars { scalars.new ≡ (if result then stmt_scalars scalars.old (out-Stmt stmt.now) else scalars.old) }
{
    if !is_quiet(stmt) {
        put(whole, levels, last);
        return false;
    }
    skip(whole, levels, last, body, stmt);
    take(whole, levels, stmt, scalars);
    true
}

/// Takes a statement that asks nothing and that a driver's innermost level is behind.
fn take(whole: &[Stmt], levels: &mut Vec<Level>, stmt: &Stmt, scalars: &mut [i64])
    requires open { IsOpen whole.now (vec_capacity levels.old) levels.old.items }
    requires behind { stmt_behind (spot_of whole.now levels.old.items) ≡ Some stmt.now }
    ensures open { IsOpen whole.now (vec_capacity levels.new) levels.new.items }
    ensures todo { let rest = todo_of whole.now levels.old.items in
        todo_of whole.now levels.new.items ≡ stmt_left scalars.old stmt.now (out-Stmt stmt.now) rest }
    ensures scalars { scalars.new ≡ stmt_scalars scalars.old (out-Stmt stmt.now) }
{
    match stmt {
        Stmt::Let {
            scalar,
            first,
            rest,
        } => {
            let number = value(scalars, *first, *rest);
            set(scalars, *scalar, number);
        }
        Stmt::Loop { turns, body: _ } => {
            let number = atom(scalars, *turns);
            if number > 0 {
                enter(whole, levels, stmt, LevelKind::Loop, number as u64 - 1);
            }
        }
        Stmt::While { cond, body: _ } => {
            if is_met(scalars, *cond) {
                enter(whole, levels, stmt, LevelKind::While, 0);
            }
        }
        Stmt::If { cond, .. } => {
            if is_met(scalars, *cond) {
                enter(whole, levels, stmt, LevelKind::First, 0);
            } else {
                enter(whole, levels, stmt, LevelKind::Second, 0);
            }
        }
        _ => {}
    }
}

/// Whether a statement asks nothing.
fn is_quiet(stmt: &Stmt) -> bool
    ensures { result ≡ is_quiet_stmt (out-Stmt stmt.now) }
{
    match stmt {
        Stmt::Let { .. } | Stmt::Loop { .. } | Stmt::While { .. } | Stmt::If { .. } => true,
        Stmt::Do { .. } | Stmt::Get { .. } | Stmt::Checkpoint | Stmt::Output { .. } => false,
    }
}

/// Goes into a body that the statement before the next one holds.
fn enter(whole: &[Stmt], levels: &mut Vec<Level>, stmt: &Stmt, kind: LevelKind, turns: u64)
    requires open { IsOpen whole.now (vec_capacity levels.old) levels.old.items }
    requires behind { stmt_behind (spot_of whole.now levels.old.items) ≡ Some stmt.now }
    requires holds { holds_kind kind (out-Stmt stmt.now) ≡ true }
    ensures open { IsOpen whole.now (vec_capacity levels.new) levels.new.items }
    ensures todo { let body = body_in kind (out-Stmt stmt.now) in
        todo_of whole.now levels.new.items ≡ map Run body
        ++ (closing_of kind turns body (Some stmt.now) ++ todo_of whole.now levels.old.items) }
{
    let level = Level {
        next: 0,
        kind,
        turns,
    };
    put(whole, levels, level);
}

/// Puts a level behind the others.
fn put(whole: &[Stmt], levels: &mut Vec<Level>, level: Level)
    requires { IsOpen whole.now (vec_capacity levels.old) (levels.old.items ++ level ∷ []) }
    ensures items { levels.new.items ≡ levels.old.items ++ level ∷ [] }
    ensures open { IsOpen whole.now (vec_capacity levels.new) levels.new.items }
{
    levels.push_reserved(level);
}

/// Begins a loop's next turn once its body is done, or leaves the loop after the last.
fn turn(whole: &[Stmt], levels: &mut Vec<Level>, last: Level)
    requires open { IsOpen whole.now (vec_capacity levels.old) (levels.old.items ++ last ∷ []) }
    requires kind { is_loop last.kind ≡ true }
    ensures open { IsOpen whole.now (vec_capacity levels.new) levels.new.items }
    ensures todo { let body = (spot_of whole.now (levels.old.items ++ last ∷ [])).body in
        todo_of whole.now levels.new.items ≡ again last.turns body (todo_of whole.now levels.old.items) }
{
    if last.turns > 0 {
        let level = Level {
            next: 0,
            kind: last.kind,
            turns: last.turns - 1,
        };
        put(whole, levels, level);
    }
}

/// Leaves the innermost body where it is done and isn't a loop's, and says whether it did.
fn leave(whole: &[Stmt], levels: &mut Vec<Level>, body: &[Stmt]) -> bool
    requires open { IsOpen whole.now (vec_capacity levels.old) levels.old.items }
    requires body { body.now ≡ (spot_of whole.now levels.old.items).body }
    ensures open { IsOpen whole.now (vec_capacity levels.new) levels.new.items }
    ensures todo { todo_of whole.now levels.new.items ≡ todo_of whole.now levels.old.items }
    ensures fewer { result ≡ true → length levels.new.items < length levels.old.items }
    ensures same { result ≡ false → levels.new.items ≡ levels.old.items }
    ensures settled { let spot = spot_of whole.now levels.old.items in
        result ≡ false → 0 < length levels.old.items → is_settled spot ≡ true }
{
    match levels.pop() {
        None => false,
        Some(last) => {
            if (last.next as usize) < body.len() {
                put(whole, levels, last);
                return false;
            }
            match last.kind {
                LevelKind::Loop => {
                    put(whole, levels, last);
                    false
                }
                LevelKind::While => {
                    step_back(whole, levels, last);
                    true
                }
                _ => true,
            }
        }
    }
}

/// Goes back to a `while` whose body, which was left, is done.
fn step_back(whole: &[Stmt], levels: &mut Vec<Level>, last: Level)
    requires open { IsOpen whole.now (vec_capacity levels.old) (levels.old.items ++ last ∷ []) }
    requires kind { last.kind ≡ LevelKind.While }
    requires done { length (spot_of whole.now (levels.old.items ++ last ∷ [])).body ≤ last.next }
    ensures open { IsOpen whole.now (vec_capacity levels.new) levels.new.items }
    ensures todo { todo_of whole.now levels.new.items ≡ todo_of whole.now (levels.old.items ++ last ∷ []) }
    ensures same { length levels.new.items ≡ length levels.old.items }
{
    match levels.pop() {
        None => {}
        Some(around) => {
            let level = Level {
                next: around.next - 1,
                kind: around.kind,
                turns: around.turns,
            };
            put(whole, levels, level);
        }
    }
}

/// Goes behind the statement that comes next in a level.
fn skip(whole: &[Stmt], levels: &mut Vec<Level>, last: Level, body: &[Stmt], stmt: &Stmt)
    requires open { IsOpen whole.now (vec_capacity levels.old) (levels.old.items ++ last ∷ []) }
    requires body { body.now ≡ (spot_of whole.now (levels.old.items ++ last ∷ [])).body }
    requires next { stmt_next (spot_of whole.now (levels.old.items ++ last ∷ [])) ≡ Some stmt.now }
    ensures open { IsOpen whole.now (vec_capacity levels.new) levels.new.items }
    ensures items { levels.new.items ≡ levels.old.items ++ moved_on last ∷ [] }
{
    let within = last.next < body.len() as u64;
    prove!(within);
    let level = Level {
        next: last.next + 1,
        kind: last.kind,
        turns: last.turns,
    };
    put(whole, levels, level);
}

/// The body that the innermost of some levels is in.
fn body_at<'a>(whole: &'a [Stmt], levels: &[Level]) -> &'a [Stmt]
    ensures { result.now ≡ (spot_of whole.now levels.now).body }
{
    let mut body: &'a [Stmt] = &[];
    let mut next = 0;
    for level in levels {
        body = entered(whole, level.kind, before(body, next));
        next = level.next;
    }
    body
}

/// The statement with this number.
fn stmt_at<'a>(body: &'a [Stmt], next: u64) -> Option<&'a Stmt>
    ensures { option_copied result ≡ slice_get body.now next }
{
    body.get(next as usize)
}

/// The statement before the one with this number.
fn before<'a>(body: &'a [Stmt], next: u64) -> Option<&'a Stmt>
    ensures { option_copied result ≡ stmt_before body.now next }
{
    match next.checked_sub(1) {
        Some(at) => body.get(at as usize),
        None => None,
    }
}

/// The body of a kind that is entered from around.
fn entered<'a>(whole: &'a [Stmt], kind: LevelKind, around: Option<&'a Stmt>) -> &'a [Stmt]
    ensures { result.now ≡ body_entered whole.now kind (option_copied around.entry) }
{
    match (kind, around) {
        (LevelKind::Driver, _) => whole,
        (LevelKind::Loop, Some(Stmt::Loop { body, .. })) => body.as_slice(),
        (LevelKind::While, Some(Stmt::While { body, .. })) => body.as_slice(),
        (LevelKind::First, Some(Stmt::If { first, .. })) => first.as_slice(),
        (LevelKind::Second, Some(Stmt::If { second, .. })) => second.as_slice(),
        _ => &[],
    }
}
