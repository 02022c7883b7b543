//! Makes calls of the library on the text of standard input, and reports what they return. `test_harness` has what it does,
//! and which kinds of calls there are.
#![tactic(auto)]

use std::process::ExitCode;
use std::{env, io};
use test_harness::calls;

fn main(rt: HostRuntime) -> io::Result<ExitCode> {
    let form = env::args(&rt)?.nth(1);
    match form.as_deref() {
        Some("calls") => calls::tell(&rt, rt.stdin())?,
        Some(_) | None => {
            // Where standard error fails, nothing is left to report to.
            let _ = eprintln!(rt; "run_calls: calls KIND CALL ..");
            return Ok(ExitCode::from(2));
        }
    }
    Ok(ExitCode::SUCCESS)
}
