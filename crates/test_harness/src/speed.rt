//! The speed of reading a text over and over: of each stage its best round.
//!
//! The words are the number of rounds, how often a round reads the text, and the one stage that is measured, by its
//! name. Where they aren't there, each number is 1, and every stage is measured.

mod measured;

use measured::{Speed, Stage, speed_of};
use std::alloc::Global;
use std::io::Read;
use std::rt::{Clock, Env};
use std::time::Instant;
use std::{env, io};

/// Measures as the arguments say, on the text of a reader, and reports on standard error.
pub fn tell<R: Clock + Env + Eprint + AllocGlobal, T: Read + Drop>(
    rt: &R,
    reader: T,
) -> io::Result<()> {
    let source = io::read_to_string(rt.alloc(), reader)?;
    let rounds = number_at(rt, 1)?;
    let inner = number_at(rt, 2)?;
    let only = env::args(rt)?.nth(3);
    for stage in Stage::ALL {
        let is_wanted = match &only {
            Some(name) => name.as_str() == stage.name(),
            None => true,
        };
        if is_wanted {
            let word = stage.word();
            let best = best_of(rt, stage, source.as_str(), rounds, inner)?;
            eprintln!(rt; "{word} {best} MB/s")?;
        }
    }
    Ok(())
}

// The number that an argument is, or 1 where there is none.
fn number_at<R: Env + AllocGlobal>(rt: &R, place: usize) -> io::Result<u32> {
    match env::args(rt)?.nth(place) {
        Some(text) => Ok(text.as_str().parse::<u32>().unwrap_or(1)),
        None => Ok(1),
    }
}

// The best speed of `rounds` rounds. A round in which nothing is read counts as none.
fn best_of<R: Clock + AllocGlobal>(
    rt: &R,
    stage: Stage,
    source: &str,
    rounds: u32,
    inner: u32,
) -> io::Result<Speed> {
    let mut best = Speed(0);
    for _ in 0..rounds {
        let start = Instant::now(rt)?;
        let is_read = is_read_often(rt.alloc(), stage, source, inner);
        let time = start.elapsed(rt)?;
        if is_read {
            best = best.max(speed_of(source.len(), inner, time));
        }
    }
    Ok(best)
}

// Reads a text `count` times, and returns whether it could be read each time.
fn is_read_often(alloc: Global, stage: Stage, source: &str, count: u32) -> bool {
    let mut is_read = count > 0;
    for _ in 0..count {
        is_read = is_read && stage.reads(alloc, source);
    }
    is_read
}
