use crate::LineFault;
use crate::reading::number;
use nim_base::{Func, Param};
use std::alloc::Global;

/// The function of a name.
pub fn func(name: &str) -> Result<Func, LineFault> {
    Ok(match name {
        "set" => Func::Set,
        "copy" => Func::Copy,
        "addc" => Func::Addc,
        "mulc" => Func::Mulc,
        "add" => Func::Add,
        "sub" => Func::Sub,
        "max" => Func::Max,
        "sum" => Func::Sum,
        "total" => Func::Total,
        "count" => Func::Count,
        "stencil" => Func::Stencil,
        "keep" => Func::Keep,
        "group" => Func::Group,
        "merge" => Func::Merge,
        "split" => Func::Split,
        _ => return Err(LineFault::Form("there is no function of this name")),
    })
}

/// The name of a function.
pub fn func_name(func: Func) -> &'static str {
    match func {
        Func::Set => "set",
        Func::Copy => "copy",
        Func::Addc => "addc",
        Func::Mulc => "mulc",
        Func::Add => "add",
        Func::Sub => "sub",
        Func::Max => "max",
        Func::Sum => "sum",
        Func::Total => "total",
        Func::Count => "count",
        Func::Stencil => "stencil",
        Func::Keep => "keep",
        Func::Group => "group",
        Func::Merge => "merge",
        Func::Split => "split",
    }
}

/// Parameters: a number each, or `#N` for an argument.
pub fn params(alloc: Global, given: &[&str]) -> Result<Vec<Param>, LineFault> {
    let mut all = Vec::new(alloc);
    for one in given {
        let param = match one.strip_prefix("#") {
            Some(place) => Param::Arg(number::<u8>(place)?),
            None => Param::Const(number::<i64>(one)?),
        };
        all.push(param)?;
    }
    Ok(all)
}
