use nim_base::{Object, Seq, Worker};
use nim_command::{Edit, Spec};
use nim_lines::{LineFault, func, halves, number, numbers, params, parts, words};
use std::alloc::Global;

/// An edit: `away T to W mask M SPEC`, `here T from W mask M SPEC`, `gone T` or `home T SPEC`, where SPEC is the task,
/// `FUNC PARAM .. of OBJECT+OFFSET .. -> OBJECT ..`.
pub fn edit(alloc: Global, text: &str) -> Result<Edit, LineFault> {
    let (head, tail) = parts(text.trim(), " of ");
    let head = words(alloc, head)?;
    edit_of(alloc, head.as_slice(), tail)
}

fn edit_of(alloc: Global, head: &[&str], tail: &str) -> Result<Edit, LineFault> {
    let [word, task, rest @ ..] = head else {
        return Err(LineFault::Form("no edit is written so"));
    };
    let task = number::<u16>(task)?;
    match *word {
        "away" => away(alloc, task, rest, tail),
        "here" => here(alloc, task, rest, tail),
        "gone" => Ok(Edit::Gone { task }),
        "home" => back_home(alloc, task, rest, tail),
        _ => Err(LineFault::Form("no edit is written so")),
    }
}

fn away(alloc: Global, task: u16, rest: &[&str], tail: &str) -> Result<Edit, LineFault> {
    let ["to", to, "mask", mask, given @ ..] = rest else {
        return Err(LineFault::Form("a task goes away to a worker, with a mask"));
    };
    Ok(Edit::Away {
        task,
        to: Worker(number::<u16>(to)?),
        mask: number::<u8>(mask)?,
        spec: spec(alloc, given, tail)?,
    })
}

fn here(alloc: Global, task: u16, rest: &[&str], tail: &str) -> Result<Edit, LineFault> {
    let ["from", from, "mask", mask, given @ ..] = rest else {
        return Err(LineFault::Form("a task comes here from a worker, with a mask"));
    };
    Ok(Edit::Here {
        task,
        from: Worker(number::<u16>(from)?),
        mask: number::<u8>(mask)?,
        spec: spec(alloc, given, tail)?,
    })
}

fn back_home(alloc: Global, task: u16, rest: &[&str], tail: &str) -> Result<Edit, LineFault> {
    Ok(Edit::Home {
        task,
        spec: spec(alloc, rest, tail)?,
    })
}

/// Edits with `;` between them.
pub fn edits(alloc: Global, text: &str) -> Result<Seq<Edit>, LineFault> {
    let mut all = Vec::new(alloc);
    for one in text.split(';') {
        if !one.trim().is_empty() {
            all.push(edit(alloc, one)?)?;
        }
    }
    Ok(Seq::from_vec(all))
}

fn spec(alloc: Global, head: &[&str], sides: &str) -> Result<Spec, LineFault> {
    let [name, given @ ..] = head else {
        return Err(LineFault::Form("a task has a function"));
    };
    let func = func(name)?;
    let (from, to) = halves(sides, "->")?;
    let params = Seq::from_vec(params(alloc, given)?);
    let reads = read_objects(alloc, from)?;
    Ok(Spec {
        func,
        params,
        reads,
        writes: objects(alloc, to)?,
    })
}

fn read_objects(alloc: Global, text: &str) -> Result<Seq<(Object, u16)>, LineFault> {
    let mut all = Vec::new(alloc);
    for word in text.split_whitespace() {
        all.push(read_object(word)?)?;
    }
    Ok(Seq::from_vec(all))
}

fn read_object(word: &str) -> Result<(Object, u16), LineFault> {
    let (object, offset) = halves(word, "+")?;
    Ok((Object(number::<u16>(object)?), number::<u16>(offset)?))
}

fn objects(alloc: Global, text: &str) -> Result<Seq<Object>, LineFault> {
    let mut all = Vec::new(alloc);
    for object in numbers::<u16>(alloc, text)? {
        all.push(Object(object))?;
    }
    Ok(Seq::from_vec(all))
}
