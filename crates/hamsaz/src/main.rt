//! The program: the words of the command line, files and standard output, handed to the top call.
#![tactic(auto)]

ghost use Rattle.std.specs.Prelude.{◌≡◌, vec_len, IfOk};

use ham_bytes::{FileShelf, OutSink, Words};
use ham_cli::{Exit, run};
use ham_links::{SleepClock, TcpBoard};
use ham_node_cli::run_node;
use ham_workers::MAX_SEATS;
use std::alloc::{Alloc, AllocError, Global};
use std::process::ExitCode;
use std::rt::Env;
use std::{env, io};

/// The words after the program's name; none where they can't be read as text, since no command has such a word.
fn words_of(rt: &(impl Env + Alloc), alloc: Global) -> Result<Words, Exit> {
    let mut words = Words::new(alloc);
    let all = match env::args(rt) {
        Ok(all) => all,
        Err(error) if error.kind() == io::ErrorKind::OutOfMemory => return Err(Exit::NoMemory),
        Err(_) => return Ok(words),
    };
    for word in all.skip(1) {
        if words.push(word.as_str().as_bytes()).is_err() {
            return Err(Exit::NoMemory);
        }
    }
    Ok(words)
}

/// As many clocks as a node may need.
fn clocks_of(rt: HostRuntime) -> Result<Vec<SleepClock<HostRuntime>>, AllocError>
    ensures { IfOk result (λ clocks. vec_len clocks ≡ MAX_SEATS) }
{
    let mut clocks = Vec::new(rt.alloc());
    for _seat in 0..MAX_SEATS {
        clocks.push(SleepClock::new(rt))?;
    }
    Ok(clocks)
}

/// Whether the words are those of a node.
fn is_node(words: &Words) -> bool {
    match words.items() {
        [verb, ..] => verb.items() == b"node".as_slice(),
        _ => false,
    }
}

fn main(rt: HostRuntime) -> ExitCode {
    let alloc = rt.alloc();
    let words = match words_of(&rt, alloc) {
        Ok(words) => words,
        Err(exit) => return ExitCode::from(exit.number()),
    };
    let mut shelf = FileShelf::new(alloc, &rt);
    let mut out = OutSink::new(io::writer(&rt));
    if is_node(&words) {
        let clocks = match clocks_of(rt) {
            Ok(clocks) => clocks,
            Err(_) => return ExitCode::from(Exit::NoMemory.number()),
        };
        let mut board = TcpBoard::new(rt);
        let end = run_node(&rt, alloc, &words, &mut shelf, &mut board, &mut out, clocks);
        return ExitCode::from(end.number());
    }
    let exit = run(alloc, &words, &mut shelf, &mut out);
    ExitCode::from(exit.number())
}
