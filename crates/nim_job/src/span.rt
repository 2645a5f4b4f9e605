ghost use Rattle.std.specs.Prelude.{◌≡◌, true, IfOk, IsTrue};
ghost use Rattle.std.specs.List.{list_all};
ghost use Rattle.nim_job.specs.Machine.{is_span, span_object, spans_of};
ghost use Rattle.nim_job.specs.Whole.{are_vars};

use crate::Var;
use nim_base::{NoMemory, Object};
use std::alloc::Global;

/// Where the objects of a variable are: the one that is its part 0, and how many parts it has.
#[derive(Clone, Copy, Debug, PartialEq, Eq)]
pub struct Span {
    pub first: u16,
    pub parts: u32,
}

/// Where the objects of each variable are.
pub(crate) fn spans(alloc: Global, vars: &[Var]) -> Result<Vec<Span>, NoMemory>
    requires { IsTrue (are_vars vars.now) }
    ensures spans { IfOk result (λ spans. spans.items ≡ spans_of vars.now) }
    ensures each { IfOk result (λ spans. list_all is_span spans.items ≡ true) }
{
    let mut spans = Vec::new(alloc);
    let mut first = 0;
    for var in vars {
        spans.push(Span {
            first,
            parts: var.parts,
        })?;
        first += var.parts as u16;
    }
    Ok(spans)
}

/// The object of a variable's part, taken modulo the variable's parts.
pub(crate) fn object_of_part(spans: &[Span], var: u8, part: u64) -> Object
    requires { list_all is_span spans.now ≡ true }
    ensures { result ≡ span_object spans.now var part }
{
    match spans.get(usize::from(var)) {
        Some(span) => Object(span.first + (part % u64::from(span.parts)) as u16),
        None => Object(0),
    }
}
