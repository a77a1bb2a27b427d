//! Reads a script line by line.
ghost use Rattle.std.specs.Prelude.{◌≡◌, ◌++◌, IfOk, OnOk};
ghost use Rattle.script.specs.Faithful.{IsRead, SoFar};
ghost use Rattle.script.specs.Kept.{kept_of, kept_so_far};

use crate::error::ScriptError;
use crate::script::{Line, Script};
use lines::{Fault, Words, layout, order};
use std::alloc::Global;

/// Reads a whole script. The first line that cannot be read decides the error.
pub fn parse<'a>(heap: Global, text: &'a str) -> Result<Script<'a>, ScriptError<'a>>
    ensures { IfOk result (IsRead text.now) }
{
    let mut script = None;
    for (index, line) in text.lines().enumerate() {
        let number = index + 1;
        read_line(heap, &mut script, number, line).map_err(|fault| ScriptError {
            line: number,
            fault,
        })?;
    }
    script.ok_or(ScriptError {
        line: 1,
        fault: Fault::LayoutMissing,
    })
}

/// Adds what the line says to the script, which is none until the table is laid out.
fn read_line<'a>(
    heap: Global,
    script: &mut Option<Script<'a>>,
    number: usize,
    line: &'a str,
) -> Result<(), Fault<'a>>
    requires { SoFar script.old }
    ensures { OnOk result (SoFar script.new × (kept_so_far script.new ≡ kept_so_far script.old ++ kept_of number line.now)) }
{
    let mut words = Words::new(line);
    let Some(first) = words.next() else {
        return Ok(());
    };
    match script {
        None => {
            let layout_words = Words::new(line).joined(heap)?;
            *script = Some(Script {
                layout_number: number,
                layout_words,
                layout: layout(heap, first, words)?,
                lines: Vec::new(heap),
            });
        }
        Some(script) => {
            let order = order(first, words)?;
            let words = Words::new(line).joined(heap)?;
            script.lines.push(Line {
                number,
                words,
                order,
            })?;
        }
    }
    Ok(())
}
