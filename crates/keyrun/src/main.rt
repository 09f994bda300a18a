// Reads `key.prog` ("one it cannot open counts as empty") and prints what `printed_run` makes of it.
#![tactic(auto)]

ghost use Rattle.std.specs.Prelude.{◌≤◌, length};

use std::rt::Files;
use std::{fs, io};

// A legal text is far below 65,536 bytes, so a longer one is refused in the part that is read.
fn read_text(rt: &impl Files, text: &mut [u8]) -> usize
    ensures { result ≤ length text.new }
{
    match fs::open(rt, "key.prog") {
        Ok(mut file) => input::read_full(&mut file, text),
        Err(_) => 0,
    }
}

fn main(rt: HostRuntime) -> io::Result<()> {
    let mut text = [0u8; 65536];
    let n = read_text(&rt, &mut text);
    let page = printed_run::print_run(&text[..n]);
    rt.write_all(page.as_slice())
}
