use nim_io::{FileFail, MemSink};
use nim_txtar::{FileFault, Section};
use std::alloc::{AllocError, Global};

/// How many bytes a sink takes a call where nothing is said.
const TAKES: usize = 64;

/// Where the files and both streams of a run are to fail.
#[derive(Debug, Drop)]
pub struct Faults {
    pub files: Vec<FileFail>,
    pub out: Stream,
    pub err: Stream,
}

/// How many bytes a stream takes a call, and the numbers of the calls that fail, from 0.
#[derive(Debug, Drop)]
pub struct Stream {
    most: usize,
    fails: Vec<u32>,
}

impl Stream {
    fn new(alloc: Global) -> Stream {
        Stream {
            most: TAKES,
            fails: Vec::new(alloc),
        }
    }

    /// An empty sink of this kind.
    pub fn sink(&self, alloc: Global) -> Result<MemSink, AllocError> {
        Ok(MemSink::new(
            alloc,
            self.most,
            Vec::from_slice(alloc, self.fails.as_slice())?,
        ))
    }

    fn add(&mut self, what: &str, number: u32, line: usize) -> Result<(), FileFault> {
        match what {
            "takes" => self.most = number as usize,
            "fails" => self.fails.push(number)?,
            _ => return Err(no_fault(line)),
        }
        Ok(())
    }
}

impl Faults {
    /// What the section `faults` says, a line a fault: `open N`, `read OPENED N`, and of both streams `out takes N`
    /// (bytes a call) and `out fails N`. All numbers but those of bytes count calls from 0.
    pub fn of_sections(alloc: Global, sections: &[Section]) -> Result<Faults, FileFault> {
        let mut faults = Faults {
            files: Vec::new(alloc),
            out: Stream::new(alloc),
            err: Stream::new(alloc),
        };
        for section in sections {
            if section.name.as_str() == "faults" {
                let Ok(text) = str::from_utf8(section.text.as_slice()) else {
                    return Err(no_fault(section.line));
                };
                for line in text.lines() {
                    faults.add(alloc, line, section.line)?;
                }
            }
        }
        Ok(faults)
    }

    fn add(&mut self, alloc: Global, text: &str, line: usize) -> Result<(), FileFault> {
        let words: Vec<&str> = text.split_whitespace().collect(alloc)?;
        match words.as_slice() {
            ["open", call] => self.files.push(FileFail::Open(number(call, line)?))?,
            ["read", opened, read] => self.files.push(FileFail::Read {
                opened: number(opened, line)?,
                read: number(read, line)?,
            })?,
            ["out", what, told] => self.out.add(what, number(told, line)?, line)?,
            ["err", what, told] => self.err.add(what, number(told, line)?, line)?,
            _ => return Err(no_fault(line)),
        }
        Ok(())
    }
}

fn number(text: &str, line: usize) -> Result<u32, FileFault> {
    text.parse::<u32>().or(Err(no_fault(line)))
}

fn no_fault(line: usize) -> FileFault {
    FileFault::At {
        line,
        what: "a fault is `open N`, `read OPENED N`, `out takes N` or `out fails N` (or `err`)",
    }
}
