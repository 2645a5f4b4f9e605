use nim_txtar::{FileFault, Section, text_of};
use std::alloc::Global;

/// What a run must answer.
#[derive(Debug, Drop)]
pub struct Wanted {
    pub status: u8,
    pub out: Vec<u8>,
    pub err: Vec<u8>,
}

impl Wanted {
    /// What the sections `status`, `out` and `err` say.
    pub fn of_sections(alloc: Global, sections: &[Section]) -> Result<Wanted, FileFault> {
        Ok(Wanted {
            status: status_of(sections)?,
            out: Vec::from_slice(alloc, text_of(sections, "out"))?,
            err: Vec::from_slice(alloc, text_of(sections, "err"))?,
        })
    }

    /// What a heading says: `FILE: accepted`, `FILE: driver line 4 rule 47` (or of `data` or `schedule`),
    /// `words: refused`, or `the same`, which is what the sections say.
    pub fn of_heading(
        alloc: Global,
        said: &str,
        sections: &[Section],
    ) -> Result<Wanted, FileFault> {
        let (status, out, err) = match said {
            "the same" => return Wanted::of_sections(alloc, sections),
            "accepted" => (0, "accepted\n", String::new(alloc)),
            "refused" => (1, "", String::from_str(alloc, "nimbus: words refused\n")?),
            _ => (2, "", format!(in alloc; "nimbus: {said}\n")?),
        };
        Ok(Wanted {
            status,
            out: Vec::from_slice(alloc, out.as_bytes())?,
            err: err.into_bytes(),
        })
    }
}

/// The number in the section `status`; 0 where there is none.
fn status_of(sections: &[Section]) -> Result<u8, FileFault> {
    for section in sections {
        if section.name.as_str() == "status" {
            return match str::from_utf8(section.text.as_slice()) {
                Ok(text) => text.trim().parse::<u8>().or(Err(no_status(section))),
                Err(_) => Err(no_status(section)),
            };
        }
    }
    Ok(0)
}

fn no_status(section: &Section) -> FileFault {
    FileFault::At {
        line: section.line,
        what: "the section `status` has one number",
    }
}
