use crate::faults::Faults;
use crate::made::{MADE, Made};
use crate::run::run;
use crate::wanted::Wanted;
use nim_txtar::{FileFault, Section, Test, push_escaped, sections, text_of};
use std::alloc::Global;

/// The sections that aren't files.
const OWN: &[&str] = &[
    "words",
    "faults",
    "schedules",
    "status",
    "out",
    "err",
    "trace",
    "reads",
];

/// Cases of commands. A section `FILE: RESULT` is a run of its own with this text for the file, `words: RESULT` one
/// with these words; a case without any is one run, or one for each schedule that is made.
pub struct Cases;

/// What a run is given: the sections of its case, the one that it is about, and the schedule that was made for it.
#[derive(Clone, Copy)]
pub struct Given<'a> {
    pub sections: &'a [Section],
    pub about: Option<&'a Section>,
    pub made: Option<&'a [u8]>,
}

impl Test for Cases {
    fn differences(alloc: Global, file: &str) -> Result<Vec<String>, FileFault> {
        let all = sections(alloc, file)?;
        let faults = Faults::of_sections(alloc, &all)?;
        let mut found = Vec::new(alloc);
        let mut runs = 0u32;
        for section in &all {
            if let Some((_, said)) = section.name.as_str().split_once(": ") {
                let wanted = Wanted::of_heading(alloc, said, &all)?;
                let given = Given {
                    sections: &all,
                    about: Some(section),
                    made: None,
                };
                run(alloc, given, &faults, &wanted, &mut found)?;
                runs = runs.saturating_add(1);
            }
        }
        if runs == 0 {
            plain_runs(alloc, &all, &faults, &mut found)?;
        }
        Ok(found)
    }
}

/// The runs of a case without headings that say a result.
fn plain_runs(
    alloc: Global,
    sections: &[Section],
    faults: &Faults,
    found: &mut Vec<String>,
) -> Result<(), FileFault> {
    let wanted = Wanted::of_sections(alloc, sections)?;
    let Some(made) = Made::of_sections(alloc, sections)? else {
        let given = Given {
            sections,
            about: None,
            made: None,
        };
        return run(alloc, given, faults, &wanted, found);
    };
    for number in 0..made.count {
        let schedule = made.text(alloc, number)?;
        let before = found.len();
        made_run(alloc, sections, schedule.as_slice(), faults, &wanted, found)?;
        if found.len() != before {
            found.push(format!(in alloc; "  with schedule {number}")?)?;
        }
    }
    Ok(())
}

/// A run with a schedule that was made.
fn made_run<'a>(
    alloc: Global,
    sections: &'a [Section],
    schedule: &'a [u8],
    faults: &Faults,
    wanted: &Wanted,
    found: &mut Vec<String>,
) -> Result<(), FileFault> {
    let given = Given {
        sections,
        about: None,
        made: Some(schedule),
    };
    run(alloc, given, faults, wanted, found)
}

/// The words of the command of a run: what stands between blanks, with escapes; `""` is the empty word.
pub fn words_of(alloc: Global, given: Given) -> Result<Vec<String>, FileFault> {
    let what = "the words are text";
    let text = match given.about {
        Some(section) if section.name.as_str().starts_with("words: ") => section.text.as_slice(),
        _ => text_of(given.sections, "words"),
    };
    let Ok(text) = str::from_utf8(text) else {
        return Err(FileFault::At { line: 0, what });
    };
    let mut words = Vec::new(alloc);
    for word in text.split_whitespace() {
        let mut bytes = Vec::new(alloc);
        if word != "\"\"" {
            push_escaped(alloc, &mut bytes, word, 0, 0)?;
        }
        let Ok(word) = String::from_utf8(bytes) else {
            return Err(FileFault::At { line: 0, what });
        };
        words.push(word)?;
    }
    Ok(words)
}

/// The files of a run: the one that it is about, the schedule that was made, and the sections that are files.
pub fn files_of(alloc: Global, given: Given) -> Result<Vec<(String, Vec<u8>)>, FileFault> {
    let mut files = Vec::new(alloc);
    if let Some(schedule) = given.made {
        files.push((
            String::from_str(alloc, MADE)?,
            Vec::from_slice(alloc, schedule)?,
        ))?;
    }
    if let Some(section) = given.about {
        if let Some((name, _)) = section.name.as_str().split_once(": ")
            && name != "words"
        {
            files.push((String::from_str(alloc, name)?, section.text.clone()?))?;
        }
    }
    for section in given.sections {
        let name = section.name.as_str();
        if OWN.contains(&name) || name.contains(": ") {
            continue;
        }
        if !name.contains('.') {
            return Err(FileFault::At {
                line: section.line,
                what: "a section is a file, whose name has a dot, or one of words, faults, schedules, status, out, err, trace, reads",
            });
        }
        files.push((String::from_str(alloc, name)?, section.text.clone()?))?;
    }
    Ok(files)
}
