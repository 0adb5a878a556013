//! What `bench/bench.py` measures, by the words of this program; it is no part of the product.
//! With no word it prints its words. What it measures is time and memory, of which no clause
//! speaks.
#![tactic(auto)]

mod boards;
mod commits;
mod delivery;
mod image;
mod lists;
mod opens;
mod pieces;
mod slot;
mod small;
mod stop;

use boards::{laid_out, many_devices};
use std::alloc::Global;
use std::process::ExitCode;
use std::rt::Env;
use std::{env, io};
use stop::Stop;

/// The words, each with what it does: a board of 16 devices with 512 MiB in sum is laid out; an
/// image of 64 MiB is written in pieces, synced and read back; small writes with syncs go all over
/// that board; an image of 64 MiB is set as the slot of a device; a scatter list of 65,536
/// descriptors in 256 segments is walked; a list of one block of 64 MiB is laid; it is laid and
/// joined; a full bank of variables is opened 20 times; that bank is read as
/// often; a batch is committed 20,000 times; a delivery of 64 MiB is fed in pieces.
const WORDS: [&str; 11] = [
    "layout",
    "image",
    "small",
    "slot",
    "walk",
    "list",
    "join",
    "log",
    "log_reads",
    "commits",
    "feed",
];

fn main(rt: HostRuntime) -> ExitCode {
    let done = match words_of(&rt) {
        Some(0) => layout(rt.alloc()),
        Some(1) => image::measure(rt.alloc()),
        Some(2) => small::measure(rt.alloc()),
        Some(3) => slot::measure(rt.alloc()),
        Some(4) => lists::measure_walk(rt.alloc()),
        Some(5) => lists::measure_list(rt.alloc()),
        Some(6) => lists::measure_join(rt.alloc()),
        Some(7) => opens::measure(rt.alloc()),
        Some(8) => opens::measure_reads(rt.alloc()),
        Some(9) => commits::measure(rt.alloc()),
        Some(_) => delivery::measure(rt.alloc()),
        None => tell_words(&rt),
    };
    match done {
        Ok(()) => ExitCode::SUCCESS,
        Err(_) => ExitCode::FAILURE,
    }
}

/// Lays a board of many devices out.
fn layout(alloc: Global) -> Result<(), Stop> {
    let _bench = laid_out(alloc, &many_devices(alloc)?)?;
    Ok(())
}

/// The number of the first argument among the words, where it is one.
fn words_of<R: Env + AllocGlobal>(rt: &R) -> Option<usize> {
    let mut args = env::args(rt).ok()?.skip(1);
    let word = args.next()?;
    WORDS.iter().position(|known| *known == word.as_str())
}

/// Prints the words.
fn tell_words<R: Print>(rt: &R) -> Result<(), Stop> {
    for word in WORDS {
        if println!(rt; "{word}").is_err() {
            return Err(Stop::Unwritten);
        }
    }
    Ok(())
}
