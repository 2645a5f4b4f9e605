//! What no program shows: laws called once, copies, the system's files and streams, and calls of the libraries that no
//! command, case or transcript makes. Everything else is tried by the cases of `nim_cases` and `nim_transcripts`.
#![tactic(auto)]

#[cfg(test)]
mod tests;
