//! `relayd`, a store-and-forward SMTP relay.
#![tactic(auto)]

mod release;

use relay_program::{command, hold_standard_streams, refuse_streams, refuse_words};
use release::VERSION;
use std::process::ExitCode;
use std::{env, io};

/// The standard streams are opened before any file.
fn main(rt: HostRuntime) -> ExitCode {
    if hold_standard_streams(&rt).is_err() {
        return ExitCode::from(refuse_streams(&mut rt.stderr()));
    }
    let status = match given_words(&rt) {
        Ok(words) => command(
            rt.alloc(),
            &rt,
            VERSION,
            words.as_slice(),
            &mut rt.stdin(),
            &mut rt.stdout(),
            &mut rt.stderr(),
            rt.stderr(),
        ),
        Err(error) => refuse_words(&error, &mut rt.stderr()),
    };
    ExitCode::from(status)
}

/// Returns the program's arguments, the first of which is its name. Fails if memory runs out, or if an argument isn't
/// UTF-8.
fn given_words(rt: &HostRuntime) -> io::Result<Vec<String>> {
    Ok(env::args(rt)?.collect(rt.alloc())?)
}
