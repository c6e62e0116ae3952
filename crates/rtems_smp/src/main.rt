//! Reads a scenario from standard input, and writes its schedule to standard output.
#![tactic(auto)]

ghost use Rattle.std.specs.Prelude.{◌≡◌, [], Ok, IfOk, IfErr};

use rk_cli::top;
use rk_io::{OpenGate, StdSink, StdSource};
use std::alloc::Global;
use std::io::ErrorKind;
use std::process::ExitCode;
use std::{env, io};

/// The status for want of memory.
const NO_MEMORY: u8 = 3;

/// The words behind the program's name.
fn read_words(rt: &HostRuntime) -> io::Result<Vec<String>> {
    let mut words = Vec::new(rt.alloc());
    for word in env::args(rt)?.skip(1) {
        words.push(word)?;
    }
    Ok(words)
}

/// The words that were read; none where one of them is no text, as it is none of the words that the
/// program knows.
///
/// # Errors
///
/// `NO_MEMORY` where memory was wanted for them.
fn words_or_status(alloc: Global, read: io::Result<Vec<String>>) -> Result<Vec<String>, u8>
    ensures words { IfOk read (λ words. result ≡ Ok words) }
    ensures none { IfErr read (λ error. IfOk result (λ words. words.items ≡ [])) }
    ensures status { IfErr result (λ status. status ≡ 3) }
{
    match read {
        Ok(words) => Ok(words),
        Err(error) if error.kind() == ErrorKind::OutOfMemory => Err(NO_MEMORY),
        Err(_) => Ok(Vec::new(alloc)),
    }
}

fn main(rt: HostRuntime) -> ExitCode {
    let words = match words_or_status(rt.alloc(), read_words(&rt)) {
        Ok(words) => words,
        Err(status) => return ExitCode::from(status),
    };
    let mut source = StdSource::new(rt.stdin());
    let mut sink = StdSink::new(rt.stdout());
    let status = top(
        &rt,
        rt.alloc(),
        words.as_slice(),
        &mut source,
        &mut sink,
        OpenGate,
    );
    ExitCode::from(status)
}
