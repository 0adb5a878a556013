//! `capsule_tool` checks, shows, rebuilds and makes UEFI capsule files, and plays a platform that
//! takes them. Its words are `check FILE`, `show FILE`, `rebuild FILE`, `make RECIPE` and `play
//! BOARD SCRIPT`; `load N` is still to be built, and answers so.
//!
//! `run` is the whole program over inputs and a sink: what it writes, its status and the trace of a
//! play are a function of the words and of the bytes of the inputs, wherever nothing outside fails.
#![tactic(auto)]

mod answer;
mod check;
mod command;
mod found;
mod input;
mod laws;
mod limits;
mod make;
mod names;
mod output;
mod play;
mod program;
mod rebuild;
mod scan;
mod show;
mod status;
mod stop;
#[cfg(test)]
mod tests;
mod verdict;

use cu_base::{Names, NoMemory, Text};
use cu_io::{FileInputs, StdSink};
pub use laws::{
    limits_are_as_specified, shown_text_is_the_text, told_faults_are_those_of_texts,
    told_plays_are_those_of_the_machine, told_refusals_are_verdicts,
};
use mem_bench::MemBench;
pub use program::{Outcome, run};
use status::Status;
use std::alloc::Global;
use std::io::ErrorKind;
use std::process::ExitCode;
use std::rt::Env;
use std::{env, io};

fn main(rt: HostRuntime) -> ExitCode {
    match words_of(&rt) {
        Ok(words) => {
            let mut inputs = FileInputs::new(rt.alloc(), &rt);
            let mut bench = MemBench::new(rt.alloc());
            let mut out = StdSink::new(io::writer(&rt));
            let outcome = run(
                rt.alloc(),
                words.as_slice(),
                &mut inputs,
                &mut bench,
                &mut out,
            );
            ExitCode::from(outcome.status)
        }
        Err(NoMemory) => ExitCode::from(Status::Memory.code()),
    }
}

/// The arguments behind the program's name, or no words where one of them is not UTF-8.
fn words_of<R: Env + AllocGlobal>(rt: &R) -> Result<Names, NoMemory> {
    let alloc = rt.alloc();
    let mut words = Names::new(alloc);
    match env::args(rt) {
        Ok(args) => {
            for arg in args.skip(1) {
                words.push(Text::from_str(alloc, arg.as_str())?)?;
            }
        }
        Err(error) if error.kind() == ErrorKind::OutOfMemory => return Err(NoMemory),
        Err(_) => {}
    }
    Ok(words)
}
