//! Reads a script of macro calls from standard input, and prints what each call is lowered to.
//! All that it does is one call of `cfgfmt::run`, over the real input, output and arguments.
#![tactic(auto)]

use cfgfmt::{Session, StdSink, StdSource, run};
use std::process::ExitCode;
use std::{env, io};
use sym_core::Symbol;

// The arguments without the program's name.
fn words(rt: &HostRuntime) -> io::Result<Vec<Symbol>> {
    let mut words = Vec::new(rt.alloc());
    for word in env::args(rt)?.skip(1) {
        words.push(Symbol::new(rt.alloc(), word.as_str())?)?;
    }
    Ok(words)
}

fn main(rt: HostRuntime) -> ExitCode {
    let Ok(words) = words(&rt) else {
        return ExitCode::from(6);
    };
    let Ok(mut session) = Session::new(rt.alloc()) else {
        return ExitCode::from(6);
    };
    let mut source = StdSource::new(rt.stdin());
    let mut sink = StdSink::new(rt.stdout());
    ExitCode::from(run(rt.alloc(), &words, &mut source, &mut sink, &mut session))
}
