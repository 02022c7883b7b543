//! Calls on a text: what they return, and what stands after them.
//!
//! The words say the kind, and then the calls, if the kind has any. The first line that is written says that the calls
//! come now: an allocator that refuses requests counts them from there on. What is reported then goes into a buffer
//! that was taken before. So the requests are those of the calls, and before them those of what they are made on; `not
//! called` is reported where one of these is refused.

use crate::{kinds, parses};
use std::io::Read;
use std::rt::Env;
use std::{env, io};

// The number of bytes that may be reported without a request.
const ROOM: usize = 65536;

/// Makes the calls of the arguments from the second on, on the text of a reader.
pub fn tell<R: Env + Print + AllocGlobal, T: Read + Drop>(rt: &R, reader: T) -> io::Result<()> {
    let text = io::read_to_string(rt.alloc(), reader)?;
    let mut words = env::args(rt)?.skip(2);
    let kind = words.next();
    let kind = kind.as_deref().unwrap_or("");
    let mut calls = String::new(rt.alloc());
    for call in words {
        calls.push_str(call.as_str())?;
        calls.push('\n')?;
    }
    if kind == "parse" {
        return parses::tell(rt, calls.trim_end(), text.as_str());
    }
    tell_answers(rt, kind, text.as_str(), calls.as_str())
}

fn tell_answers<R: Print + AllocGlobal>(
    rt: &R,
    kind: &str,
    text: &str,
    calls: &str,
) -> io::Result<()> {
    let mut out = String::with_capacity(rt.alloc(), ROOM)?;
    println!(rt; "calling")?;
    match kinds::write_answer(rt.alloc(), &mut out, kind, text, calls) {
        Ok(()) => print!(rt; "{out}"),
        Err(_) => println!(rt; "not called"),
    }
}
