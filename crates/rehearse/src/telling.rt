//! Tells a run as it goes.
use crate::answer::{described, saved};
use crate::closing::list_keys;
use anyhow::anyhow;
use rules::ask::{Ask, Reply, Told};
use rules::cause::Cause;
use runs::make::reply;
use runs::observer::Observer;
use runs::step::Step;
use script::{Line, Order, Script};
use shown::{ShownRefusal, ShownReply};
use std::alloc::{AllocError, AllocFailed};
use std::{fmt, io};
use table::calls::Calls;

/// Is shown each point of a run: prints what the call answered, notes the keys that it eradicated, and answers what is asked
/// before the next call.
#[derive(Drop)]
pub struct Teller<'s> {
    rt: &'s HostRuntime,
    script: &'s Script<'s>,
    /// The mark of a row without a unit.
    mark: u32,
    /// Whether the table can be laid out.
    check: Result<(), Cause>,
    /// The next line to tell.
    next: usize,
    /// The keys of the table at the last point.
    keys: Vec<u32>,
    /// Those that were eradicated, in the order in which they went.
    gone: Vec<u32>,
    /// Whether something kept it from telling on; from then on it tells nothing.
    outcome: Result<(), Halted>,
}

/// A run is told no further. What there was to say of the reason has been said. An error with its text is some three hundred bytes, and
/// handed on by each function below, at every point of a run, it would take longer than the call.
#[derive(Clone, Copy)]
struct Halted;

impl From<io::Error> for Halted {
    fn from(_error: io::Error) -> Halted {
        Halted
    }
}

impl From<AllocError> for Halted {
    fn from(_error: AllocError) -> Halted {
        Halted
    }
}

impl<T: Drop> From<AllocFailed<T>> for Halted {
    fn from(_error: AllocFailed<T>) -> Halted {
        Halted
    }
}

impl From<anyhow::Error> for Halted {
    fn from(_error: anyhow::Error) -> Halted {
        Halted
    }
}

impl Observer for Teller<'_> {
    fn see<C: Calls>(&mut self, table: &C, made: &[Step]) {
        if self.outcome.is_ok() {
            self.outcome = self.tell(table, made);
        }
    }
}

impl<'s> Teller<'s> {
    pub fn new(
        rt: &'s HostRuntime,
        script: &'s Script<'s>,
        mark: u32,
        check: Result<(), Cause>,
    ) -> Teller<'s> {
        Teller {
            rt,
            script,
            mark,
            check,
            next: 0,
            keys: Vec::new(rt.alloc()),
            gone: Vec::new(rt.alloc()),
            outcome: Ok(()),
        }
    }

    /// The keys that were eradicated, where all was told.
    pub fn end(self) -> anyhow::Result<Vec<u32>> {
        match self.outcome {
            Ok(()) => Ok(self.gone),
            Err(Halted) => Err(anyhow!("the run is not told to its end")),
        }
    }

    fn tell<C: Calls>(&mut self, table: &C, made: &[Step]) -> Result<(), Halted> {
        match made.last() {
            None => self.tell_layout()?,
            Some(step) => self.tell_step(step)?,
        }
        self.note_gone(table)?;
        self.tell_until_call(table)
    }

    fn tell_layout(&self) -> Result<(), Halted> {
        let words = self.script.layout_words.as_str();
        match self.check {
            Ok(()) => println!(self.rt; "{words} => open")?,
            Err(cause) => {
                let refusal = ShownRefusal { cause, asked: None };
                println!(self.rt; "{words} => closed, {refusal}")?;
            }
        }
        Ok(())
    }

    /// The answer to the call of the next line.
    fn tell_step(&mut self, step: &Step) -> Result<(), Halted> {
        if let Some(line) = self.script.lines.get(self.next) {
            self.tell_reply(line, Ask::Call(step.call), step.answer.map(Told::Answered))?;
        }
        self.next = self.next.saturating_add(1);
        Ok(())
    }

    /// The answers to the lines before the next call.
    fn tell_until_call<C: Calls>(&mut self, table: &C) -> Result<(), Halted> {
        let Some(lines) = self.script.lines.get(self.next..) else {
            return Ok(());
        };
        for line in lines {
            // Looked at here, so that a call does not pay for what only the other lines need.
            if let Order::Ask(Ask::Call(_)) = line.order {
                break;
            }
            self.tell_line(table, line)?;
            self.next = self.next.saturating_add(1);
        }
        Ok(())
    }

    /// The answer to a line that only looks at the table.
    fn tell_line<C: Calls>(&self, table: &C, line: &Line) -> Result<(), Halted> {
        match line.order {
            // None comes here: it ends what is told before it, and is told once it is made.
            Order::Ask(Ask::Call(_)) => Ok(()),
            Order::Ask(Ask::Question(question)) => {
                self.tell_reply(line, Ask::Question(question), reply(table, question))
            }
            Order::Describe => self.say(line, &described(table)),
            Order::Save { path } => self.say(line, &saved(self.rt, table, line.number, path)?),
        }
    }

    fn tell_reply(&self, line: &Line, ask: Ask, reply: Reply) -> Result<(), Halted> {
        let shown = ShownReply {
            ask,
            reply,
            mark: self.mark,
            with_status: true,
        };
        self.say(line, &shown)
    }

    fn say<A: fmt::Display>(&self, line: &Line, answer: &A) -> Result<(), Halted> {
        let words = line.words.as_str();
        println!(self.rt; "{words} => {answer}")?;
        Ok(())
    }

    /// Notes which of the keys at the last point are held no more.
    fn note_gone<C: Calls>(&mut self, table: &C) -> Result<(), Halted> {
        for serial in &self.keys {
            if !table.holds(*serial) {
                self.gone.push(*serial)?;
            }
        }
        list_keys(table, &mut self.keys)?;
        Ok(())
    }
}
