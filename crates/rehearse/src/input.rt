use anyhow::anyhow;
use std::{env, fs, io};

/// The text of the script: from the file that is named, else from standard input.
pub fn read_script(rt: &HostRuntime) -> anyhow::Result<String> {
    let mut words = env::args(rt)?;
    let _program = words.next();
    match (words.next(), words.next()) {
        (None, _) => text_of(
            rt,
            "standard input",
            io::read_to_string(rt.alloc(), rt.stdin()),
        ),
        (Some(path), None) => text_of(rt, path.as_str(), fs::read_to_string(rt, path.as_str())),
        (Some(_), Some(_)) => {
            eprintln!(rt; "rehearse: one script at a time: rehearse FILE")?;
            Err(anyhow!("more than one script"))
        }
    }
}

/// What was read, or the end of the program with a message that names the file.
fn text_of(rt: &HostRuntime, name: &str, read: io::Result<String>) -> anyhow::Result<String> {
    match read {
        Ok(text) => Ok(text),
        Err(error) => {
            eprintln!(rt; "rehearse: {name} cannot be read: {error}")?;
            Err(anyhow!("the script cannot be read"))
        }
    }
}
