use nim_txtar::{FileFault, Section};
use std::alloc::{AllocError, Global};

/// The file that a made schedule stands in.
pub const MADE: &str = "made.txt";

/// Schedules that are made from numbers, from 0 on: so many, of so many lines each.
#[derive(Clone, Copy, Debug)]
pub struct Made {
    pub count: u32,
    lines: u32,
}

impl Made {
    /// What the section `schedules` says: how many there are, and how many lines each has.
    pub fn of_sections(alloc: Global, sections: &[Section]) -> Result<Option<Made>, FileFault> {
        for section in sections {
            if section.name.as_str() == "schedules" {
                return match numbers(alloc, section)?.as_slice() {
                    [count, lines] => Ok(Some(Made {
                        count: *count,
                        lines: *lines,
                    })),
                    _ => Err(no_numbers(section)),
                };
            }
        }
        Ok(None)
    }

    /// The schedule of a number. Its lines name workers 0 to 3; many of them aren't enabled when their turn comes.
    pub fn text(self, alloc: Global, number: u32) -> Result<Vec<u8>, AllocError> {
        let mut text = String::new(alloc);
        let mut chance = u64::from(number);
        for _ in 0..self.lines {
            chance = chance
                .wrapping_add(1)
                .wrapping_mul(6_364_136_223_846_793_005);
            push_line(alloc, &mut text, chance >> 33)?;
        }
        Ok(text.into_bytes())
    }
}

/// The line that a number makes.
fn push_line(alloc: Global, text: &mut String, chance: u64) -> Result<(), AllocError> {
    let (one, other) = (chance / 5 % 4, chance / 20 % 4);
    let line = match chance % 5 {
        0 => format!(in alloc; "order {one}\n")?,
        1 => format!(in alloc; "report {one}\n")?,
        2 => format!(in alloc; "data {one} {other}\n")?,
        3 => {
            let most = chance / 80 % 16 + 1;
            format!(in alloc; "begin {one} {most}\n")?
        }
        _ => format!(in alloc; "finish {one}\n")?,
    };
    text.push_str(line.as_str())
}

/// The numbers of a section.
fn numbers(alloc: Global, section: &Section) -> Result<Vec<u32>, FileFault> {
    let Ok(text) = str::from_utf8(section.text.as_slice()) else {
        return Err(no_numbers(section));
    };
    let mut numbers = Vec::new(alloc);
    for word in text.split_whitespace() {
        numbers.push(word.parse::<u32>().or(Err(no_numbers(section)))?)?;
    }
    Ok(numbers)
}

fn no_numbers(section: &Section) -> FileFault {
    FileFault::At {
        line: section.line,
        what: "the section `schedules` has two numbers: how many, and how many lines each has",
    }
}
