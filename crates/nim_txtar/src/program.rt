use crate::FileFault;
use std::alloc::Global;
use std::rt::{Env, Files};
use std::{env, fs, io};

/// Tests of one kind, a file each.
pub trait Test {
    /// What differs from what a file says, as lines to be printed.
    fn differences(alloc: Global, file: &str) -> Result<Vec<String>, FileFault>;
}

/// Whether each file that the program's words name is as it says. Prints `ok NAME` for one that is, and what differs in
/// any other.
pub fn all_pass<T: Test, R: Env + Files + Print + Alloc<A = Global>>(rt: &R) -> io::Result<bool> {
    let mut pass = true;
    for name in env::args(rt)?.skip(1) {
        let text = fs::read_to_string(rt, name.as_str())?;
        let found = T::differences(rt.alloc(), text.as_str());
        if !tell(rt, name.as_str(), found)? {
            pass = false;
        }
    }
    Ok(pass)
}

/// Prints what was found in a file; whether nothing differs.
fn tell<R: Print>(rt: &R, name: &str, found: Result<Vec<String>, FileFault>) -> io::Result<bool> {
    match found {
        Ok(found) if found.is_empty() => {
            println!(rt; "ok {name}")?;
            return Ok(true);
        }
        Ok(found) => {
            println!(rt; "FAILED {name}")?;
            for difference in &found {
                rt.println(difference.as_str())?;
            }
        }
        Err(FileFault::At { line, what }) => println!(rt; "FAULTY {name}\n  line {line}: {what}")?,
        Err(FileFault::NoMemory) => println!(rt; "FAULTY {name}\n  memory")?,
    }
    Ok(false)
}
