use crate::LineFault;
use nim_txtar::{FileFault, difference, sections};
use std::alloc::Global;

/// What the lines of a section are about.
pub trait Subject: Drop {
    /// What it is before the first line of a section.
    fn begin(alloc: Global) -> Result<Self, LineFault>;

    /// Answers a line, in lines that it adds.
    fn answer(&mut self, alloc: Global, line: &str, out: &mut String) -> Result<(), LineFault>;
}

/// What differs in a transcript from what comes of its lines. Each section is a session of its own: a line that begins
/// with `> ` is answered, and any other must be what was answered.
pub fn differences_from<S: Subject>(alloc: Global, file: &str) -> Result<Vec<String>, FileFault> {
    let mut found = Vec::new(alloc);
    for section in &sections(alloc, file)? {
        let Ok(text) = str::from_utf8(section.text.as_slice()) else {
            return Err(FileFault::At {
                line: section.line,
                what: "a transcript is text",
            });
        };
        let got = replayed::<S>(alloc, text)?;
        let name = section.name.as_str();
        if let Some(difference) = difference(alloc, name, text.as_bytes(), got.as_bytes())? {
            found.push(difference)?;
        }
    }
    Ok(found)
}

/// The lines of a section that are answered, each with its answer.
fn replayed<S: Subject>(alloc: Global, text: &str) -> Result<String, FileFault> {
    let Ok(mut subject) = S::begin(alloc) else {
        return Err(FileFault::NoMemory);
    };
    let mut got = String::new(alloc);
    for line in text.lines() {
        if let Some(asked) = line.strip_prefix("> ") {
            got.push_str(format!(in alloc; "{line}\n")?.as_str())?;
            let answer = answer_to(alloc, &mut subject, asked)?;
            got.push_str(answer.as_str())?;
        }
    }
    Ok(got)
}

/// The answer to a line; of one that can't be answered, just why.
fn answer_to<S: Subject>(alloc: Global, subject: &mut S, line: &str) -> Result<String, FileFault> {
    let mut answer = String::new(alloc);
    match subject.answer(alloc, line, &mut answer) {
        Ok(()) => Ok(answer),
        Err(LineFault::Form(what)) => Ok(format!(in alloc; "? {what}\n")?),
        Err(LineFault::NoMemory) => Err(FileFault::NoMemory),
    }
}
