// The program: the top call over standard input, output and error.
#![tactic(auto)]

use sl_actor::FreeGate;
use sl_app::{Refusal, refuse, speedlight};
use sl_io::{StdSink, StdSource};
use std::alloc::{AllocError, Global};
use std::env::{self, Args};
use std::io::{self, ErrorKind};
use std::process::ExitCode;

/// The words after the program's name.
fn words_from(alloc: Global, args: Args) -> Result<Vec<String>, AllocError> {
    let mut words = Vec::new(alloc);
    for word in args.skip(1) {
        words.push(word)?;
    }
    Ok(words)
}

/// The words of the command line, or none of them where one is no text: such a word stands in no
/// command.
fn read_words(alloc: Global, args: io::Result<Args>) -> Result<Vec<String>, AllocError> {
    match args {
        Ok(args) => words_from(alloc, args),
        Err(error) if error.kind() == ErrorKind::InvalidData => Ok(Vec::new(alloc)),
        Err(_) => Err(AllocError),
    }
}

fn main(rt: HostRuntime) -> ExitCode {
    let mut input = StdSource::new(rt.stdin());
    let mut out = StdSink::new(rt.stdout());
    let mut err = StdSink::new(rt.stderr());
    let ended = match read_words(rt.alloc(), env::args(&rt)) {
        Ok(words) => speedlight(
            &rt,
            rt.alloc(),
            &words,
            &mut input,
            &mut out,
            &mut err,
            &FreeGate,
        ),
        Err(_) => refuse(&Refusal::Memory, &mut err),
    };
    ExitCode::from(ended.status)
}
