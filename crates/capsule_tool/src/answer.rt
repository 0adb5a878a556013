ghost use Rattle.std.specs.Prelude.{◌≡◌, IfOk};
ghost use Rattle.capsule_tool.specs.Answers.{usage, done, refused, faulty_board, faulty_recipe};
ghost use Rattle.capsule_tool.specs.Answers.{faulty_script, later, unread, long};
ghost use Rattle.capsule_tool.specs.Steps.{AnswersFault};

use crate::output::Output;
use crate::status::Status;
use cu_base::{Blob, NoMemory, Text};
use cu_io::ReadFault;
use std::alloc::Global;

/// A status, and the text that is written with it.
#[derive(Drop)]
pub struct Answer {
    pub status: Status,
    pub text: Output,
}

const USAGE: &str =
    "usage: check FILE | show FILE | rebuild FILE | make RECIPE | play BOARD SCRIPT | load N\n";

impl Answer {
    /// The words are no command.
    pub fn usage(alloc: Global) -> Result<Answer, NoMemory>
        ensures { IfOk result (λ answer. answer ≡ usage) }
    {
        Ok(Answer {
            status: Status::Usage,
            text: Output::bytes(Blob::from_slice(alloc, USAGE.as_bytes())?),
        })
    }

    /// The whole input is one capsule of this many bytes.
    pub fn done(alloc: Global, length: usize) -> Result<Answer, NoMemory>
        ensures { IfOk result (λ answer. answer ≡ done length) }
    {
        match format!(in alloc; "ok {length}\n") {
            Ok(text) => Answer::new(alloc, Status::Done, text.as_str()),
            Err(_) => Err(NoMemory),
        }
    }

    /// The bytes are refused at a place, for a cause of this name.
    pub fn refused(alloc: Global, at: usize, why: &str) -> Result<Answer, NoMemory>
        ensures { IfOk result (λ answer. answer ≡ refused at why.now) }
    {
        match format!(in alloc; "refused {at} {why}\n") {
            Ok(text) => Answer::new(alloc, Status::Refused, text.as_str()),
            Err(_) => Err(NoMemory),
        }
    }

    /// The board is refused, for a kind of fault at a key.
    pub fn faulty_board(alloc: Global, kind: &str, key: &str) -> Result<Answer, NoMemory>
        ensures { IfOk result (λ answer. answer ≡ faulty_board kind.now key.now) }
    {
        match format!(in alloc; "board {kind} {key}\n") {
            Ok(text) => Answer::new(alloc, Status::Faulty, text.as_str()),
            Err(_) => Err(NoMemory),
        }
    }

    /// The recipe is refused, for a kind of fault at a key.
    pub fn faulty_recipe(alloc: Global, kind: &str, key: &str) -> Result<Answer, NoMemory>
        ensures { IfOk result (λ answer. answer ≡ faulty_recipe kind.now key.now) }
    {
        match format!(in alloc; "recipe {kind} {key}\n") {
            Ok(text) => Answer::new(alloc, Status::Faulty, text.as_str()),
            Err(_) => Err(NoMemory),
        }
    }

    /// The script is refused at a line, for a kind of fault.
    pub fn faulty_script(alloc: Global, line: u32, kind: &str) -> Result<Answer, NoMemory>
        ensures { IfOk result (λ answer. answer ≡ faulty_script line kind.now) }
    {
        match format!(in alloc; "script {line} {kind}\n") {
            Ok(text) => Answer::new(alloc, Status::Faulty, text.as_str()),
            Err(_) => Err(NoMemory),
        }
    }

    /// What is asked for is not built yet.
    pub fn later(alloc: Global, what: &str) -> Result<Answer, NoMemory>
        ensures { IfOk result (λ answer. answer ≡ later what.now) }
    {
        match format!(in alloc; "later {what}\n") {
            Ok(text) => Answer::new(alloc, Status::Later, text.as_str()),
            Err(_) => Err(NoMemory),
        }
    }

    /// The input of this name could not be read.
    pub fn unread(alloc: Global, name: &str) -> Result<Answer, NoMemory>
        ensures { IfOk result (λ answer. answer ≡ unread name.now) }
    {
        match format!(in alloc; "unread {name}\n") {
            Ok(text) => Answer::new(alloc, Status::Unread, text.as_str()),
            Err(_) => Err(NoMemory),
        }
    }

    /// The input of this name passes a limit.
    pub fn long(alloc: Global, name: &str) -> Result<Answer, NoMemory>
        ensures { IfOk result (λ answer. answer ≡ long name.now) }
    {
        match format!(in alloc; "long {name}\n") {
            Ok(text) => Answer::new(alloc, Status::Long, text.as_str()),
            Err(_) => Err(NoMemory),
        }
    }

    /// The input of this name was not read whole, for this fault.
    pub fn read_fault(alloc: Global, name: &Text, fault: ReadFault) -> Result<Answer, NoMemory>
        ensures { IfOk result (AnswersFault name.now fault) }
    {
        match fault {
            ReadFault::Read => Answer::unread(alloc, name.as_str()),
            ReadFault::TooLong => Answer::long(alloc, name.as_str()),
            ReadFault::Memory => Err(NoMemory),
        }
    }

    fn new(alloc: Global, status: Status, text: &str) -> Result<Answer, NoMemory>
        ensures { IfOk result (λ answer. answer ≡ record { status = status; text = text.now }) }
    {
        Ok(Answer {
            status,
            text: Output::bytes(Blob::from_slice(alloc, text.as_bytes())?),
        })
    }
}
