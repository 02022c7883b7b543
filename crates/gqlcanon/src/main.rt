//! Reads a source from standard input, and writes its canonical text or its first lexical error; or writes how it is used, or
//! its version.
#![tactic(auto)]

ghost use Rattle.std.specs.Prelude.{◌≡◌};
ghost use Rattle.gqlcanon.specs.Ends.{status_at};

mod report;

use report::CanonicalEnd;
use std::process::ExitCode;
use streams::{Question, Stop, Watched, run, write_all};

const HELP: &str = "\
usage: gqlcanon < query.graphql

Reads a source of GraphQL (October 2021) from standard input, and writes its canonical text, without a line end, or its
first lexical error.

  --help     writes this, and ends
  --version  writes the version, and ends

Another argument is ignored. Statuses: 0 a canonical text, 1 a lexical error, 2 not UTF-8, 3 a read or a write failed,
4 out of memory.
";

const VERSION: &str = "gqlcanon 0.1.0\n";

fn main(rt: HostRuntime) -> ExitCode {
    let mut writer = Watched::new(rt.stdout());
    let end = match Question::asked(&rt) {
        Some(question) => {
            if write_all(&mut writer, text_of(question).as_bytes()) {
                return ExitCode::SUCCESS;
            }
            Err(Stop::Device)
        }
        None => run(rt.alloc(), &mut Watched::new(rt.stdin()), &mut writer),
    };
    if let Err(stop) = &end {
        // If standard error fails too, nothing is left to report to.
        let _ = eprintln!(rt; "gqlcanon: {stop}");
    }
    ExitCode::from(status_of(end))
}

fn text_of(question: Question) -> &'static str {
    match question {
        Question::Help => HELP,
        Question::Version => VERSION,
    }
}

// The exit status of a run.
fn status_of(end: Result<CanonicalEnd, Stop>) -> u8
    ensures { result ≡ status_at end }
{
    match end {
        Ok(CanonicalEnd::Text) => 0,
        Ok(CanonicalEnd::Refused) => 1,
        Ok(CanonicalEnd::NotUtf8) => 2,
        Err(Stop::Device) => 3,
        Err(Stop::Memory) => 4,
    }
}
