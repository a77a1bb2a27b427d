//! The files that a script names. A message that one is at fault names the script's line too.
use anyhow::anyhow;
use std::fs::File;
use std::io::Write;
use std::{fs, io};

/// What a saved sheet's file has.
pub fn read_sheet(rt: &HostRuntime, line: usize, path: &str) -> anyhow::Result<Vec<u8>> {
    told(rt, line, path, "read", fs::read(rt, path))
}

/// Puts a sheet into its file.
pub fn write_sheet(rt: &HostRuntime, line: usize, path: &str, sheet: &[u8]) -> anyhow::Result<()> {
    told(rt, line, path, "written", replace(rt, path, sheet))
}

/// What came of a file, or the end of the program with a message.
fn told<T>(
    rt: &HostRuntime,
    line: usize,
    path: &str,
    deed: &str,
    outcome: io::Result<T>,
) -> anyhow::Result<T> {
    match outcome {
        Ok(value) => Ok(value),
        Err(error) => {
            eprintln!(rt; "rehearse: line {line}: `{path}` cannot be {deed}: {error}")?;
            Err(anyhow!("a file cannot be {deed}"))
        }
    }
}

/// Writes a file beside the old one, which it then takes the place of: the old one can be read until the new one is whole.
fn replace(rt: &HostRuntime, path: &str, bytes: &[u8]) -> io::Result<()> {
    let beside = format!(in rt.alloc(); "{path}.new")?;
    let mut file = File::create(rt, beside.as_str())?;
    let mut outcome = fill(&mut file, bytes);
    if outcome.is_ok() {
        outcome = fs::rename(rt, beside.as_str(), path);
    }
    if outcome.is_err() {
        // A part of a sheet is of no use. Where it cannot be removed, what is told is still why it was not written.
        let _ = fs::remove_file(rt, beside.as_str());
    }
    outcome
}

fn fill(file: &mut File, bytes: &[u8]) -> io::Result<()> {
    file.write_all(bytes)?;
    // Some failures show only when the bytes reach the disk.
    file.sync_all()
}
