// Replays a script of calls, read from standard input, and prints what each call gave: a bench for setters. Numbers are in base ten,
// with one space between words and byte 10 at the end of each line; blank lines and lines that begin with `#` are passed over.
//
// load FILE          loaded; program and configuration are those of FILE
// program FILE       program; the program is that of FILE, the configuration stays
// sense S P A B ..   sensed made M gone G
// step               fired S R plan ID | fired S R atom ID | fired S R none | moved PHASE | executed PLAN empty | .. held | .. done |
//                    .. failed | waits PLAN P A B | ended CYCLE, each with made M gone G
// answer N           answered made 0 gone 0
// delete N           deleted made 0 gone G
// run N              ran STEPS until phase0 | waiting | limit | refused K, with made M gone G
// trace N            each step of run N, then its line
// show               the live instances, as keyrun lists them
// dump               the whole configuration, as the three lines below
// config PHASE CYCLE NEXT WAITING                               begins a configuration without instances
// atom ID P A B CYCLE                                           one more atom
// plan ID SET RULE LEFT FLAGS SUB J1 J2 J3 J4 V1 .. V8          one more plan
// clock              clock T; processor time in microseconds
//
// A refused call prints `refused N: WORDS`, a refused load `refused N line L: WORDS`. A line that is not understood prints
// `error line L: REASON` and ends the replay, as output that cannot be written does.
#![tactic(auto)]

mod calls;
mod lines;
mod output;
mod raw;
mod reasons;

use calls::Bench;
use std::io;

// A proved loop has to end: so many lines no script has.
const MOST_LINES: u64 = 1000000000000000000;

fn main(rt: HostRuntime) -> io::Result<()> {
    let mut stdin = rt.stdin();
    let mut bench = Bench::new(rt.stdout());
    let mut script = [0u8; 65536];
    let mut from: usize = 0;
    let mut to: usize = 0;
    for line in 1..MOST_LINES {
        bench.line = line;
        match input::next_line(&mut stdin, &mut script, from, to) {
            Ok(next) => {
                bench.turn(&rt, &script[next.from..next.end]);
                from = next.behind;
                to = next.to;
            }
            Err(reason) => bench.leave(reason),
        }
        bench.page.written?;
        if bench.is_over {
            return Ok(());
        }
    }
    Ok(())
}
