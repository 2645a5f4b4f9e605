use crate::FileFault;
use crate::generators::push_line;
use std::alloc::Global;

/// A section of a file: the name in its heading, the line of the heading, and the text below it, in which lines that
/// begin with `%` are written out.
#[derive(Debug, Drop)]
pub struct Section {
    pub name: String,
    pub line: usize,
    pub text: Vec<u8>,
}

/// The sections of a file, in order; a heading is a line `-- NAME --`. What stands before the first is a comment.
pub fn sections(alloc: Global, file: &str) -> Result<Vec<Section>, FileFault> {
    let mut all: Vec<Section> = Vec::new(alloc);
    for (before, text) in file.lines().enumerate() {
        let line = before.saturating_add(1);
        if let Some(name) = heading(text) {
            all.push(Section {
                name: String::from_str(alloc, name)?,
                line,
                text: Vec::new(alloc),
            })?;
        } else if let Some(section) = all.last_mut() {
            push_line(alloc, &mut section.text, text, line)?;
        }
    }
    Ok(all)
}

/// The text of the section of this name, empty where there is none.
pub fn text_of<'a>(sections: &'a [Section], name: &str) -> &'a [u8] {
    for section in sections {
        if section.name.as_str() == name {
            return section.text.as_slice();
        }
    }
    &[]
}

fn heading(line: &str) -> Option<&str> {
    line.strip_prefix("-- ")?.strip_suffix(" --")
}
