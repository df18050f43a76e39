//! Reads a script from standard input and writes its account to standard output.
#![tactic(auto)]

use script::account_text;
use std::io;
use std::io::{Read, Write};

fn main(rt: HostRuntime) -> io::Result<()> {
    let heap = rt.alloc();
    let mut script = Vec::new(heap);
    rt.stdin().read_to_end(&mut script)?;
    let text = account_text(heap, &script)?;
    rt.stdout().write_all(text.as_bytes())
}
