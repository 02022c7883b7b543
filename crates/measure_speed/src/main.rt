//! Measures how fast the text of standard input is read, as `test_harness::speed` says by its arguments.
//!
//! It is a program of its own, which reads one scalar type and calls nothing else. Where a program calls the parser for
//! several scalar types, the compiler inlines less of it.
#![tactic(auto)]

use std::io;
use test_harness::speed;

fn main(rt: HostRuntime) -> io::Result<()> {
    speed::tell(&rt, rt.stdin())
}
