// A line of the script: what it asks for is done, or the script is left.
ghost use Rattle.std.specs.Prelude.{◌≤◌, length};
ghost use Rattle.script.specs.Reading.{Within};

use crate::calls::Bench;
use crate::raw;
use input::NoLine;
use script::{Command, Misread};
use state::Config;
use std::rt::Files;
use std::time::{CpuClock, Duration};
use std::{fs, io, str};

// Up to 65,536 bytes of a file: a program's text is shorter. "one it cannot open counts as empty"
fn read_file(rt: &impl Files, path: &[u8], text: &mut [u8]) -> usize
    ensures { result ≤ length text.new }
{
    match str::from_utf8(path) {
        Ok(name) => read_named(rt, name, text),
        Err(_) => 0,
    }
}

fn read_named(rt: &impl Files, name: &str, text: &mut [u8]) -> usize
    ensures { result ≤ length text.new }
{
    match fs::open(rt, name) {
        Ok(mut file) => input::read_full(&mut file, text),
        Err(_) => 0,
    }
}

// 0 where the time cannot be told.
fn microseconds(time: io::Result<Duration>) -> u64 {
    match time {
        Ok(spent) => u64::try_from(spent.as_micros()).unwrap_or(0),
        Err(_) => 0,
    }
}

// How many numbers a command takes.
fn wanted(command: Command) -> usize {
    match command {
        Command::Answer | Command::Delete | Command::Run | Command::Trace => 1,
        Command::Config => 4,
        Command::Atom => 5,
        Command::Plan => 18,
        _ => 0,
    }
}

fn find_numbers(
    command: Command,
    line: &[u8],
    end: usize,
    numbers: &mut [u32],
) -> Result<usize, Misread>
    requires { (end ≤ length line.now) × (length line.now ≤ length numbers.old) }
    ensures { Within (length line.now) result }
{
    if let Command::Sense = command {
        return script::in_fours(line, end, numbers);
    }
    script::exactly(line, end, wanted(command), numbers)
}

impl Bench {
    // `error line L: `, and then the script is left.
    fn begin_error(&mut self) {
        self.is_over = true;
        self.page.put(b"error line ");
        self.page.put_number(self.line);
        self.page.put(b": ");
    }

    fn fail(&mut self, reason: &[u8]) {
        self.begin_error();
        self.page.put(reason);
        self.page.put(b"\n");
    }

    // A word of the line, and what is wrong with it.
    fn fail_word(&mut self, before: &[u8], word: &[u8], after: &[u8]) {
        self.begin_error();
        self.page.put(before);
        self.page.put(word);
        self.page.put(after);
    }

    fn fail_count(&mut self, wanted: usize, there: usize) {
        self.begin_error();
        self.page.put_number(wanted as u64);
        self.page.put(b" numbers are wanted, ");
        self.page.put_number(there as u64);
        self.page.put(b" are there\n");
    }

    // `load FILE`, or `program FILE`, which keeps the configuration.
    #[tactic(auto, using(crate::proofs::Bounds::few_loaded))]
    fn load(&mut self, rt: &impl Files, path: &[u8], is_program: bool) {
        let mut text = [0u8; 65536];
        let n = read_file(rt, path, &mut text);
        let mut started = self.config;
        match controller::load(&text[..n], &mut self.program, &mut started) {
            Ok(rows) => {
                self.rows = rows;
                if is_program {
                    self.page.put(b"program\n");
                } else {
                    self.config = started;
                    self.page.put(b"loaded\n");
                }
            }
            Err(error) => self.page.put_load_refused(&text[..n], error),
        }
    }

    // The one word behind the command is a file's name.
    #[tactic(auto, using(crate::proofs::Bounds::space_follows))]
    fn load_line(&mut self, rt: &impl Files, line: &[u8], end: usize, is_program: bool)
        requires { end ≤ length line.now }
    {
        if script::spaces(line, end) != 1 {
            return self.fail_word(b"`", &line[..end], b"` takes one file\n");
        }
        self.load(rt, &line[end + 1..], is_program);
    }

    fn add_atom(&mut self, numbers: &[u32; 4096]) {
        if Config::MOST_ATOMS <= self.config.scalars.atoms {
            return self.fail(b"no room for more than 256 atoms");
        }
        raw::add_atom(&mut self.config, numbers);
    }

    fn add_plan(&mut self, numbers: &[u32; 4096]) {
        if Config::MOST_PLANS <= self.config.scalars.plans {
            return self.fail(b"no room for more than 64 plans");
        }
        raw::add_plan(&mut self.config, numbers);
    }

    // Processor time.
    fn clock(&mut self, rt: &impl CpuClock) {
        self.page.put(b"clock ");
        self.page.put_number(microseconds(rt.process_cpu_time()));
        self.page.put(b"\n");
    }

    // A command with its numbers. Those that take none of them came by another way.
    fn obey(&mut self, rt: &impl CpuClock, command: Command, numbers: &[u32; 4096], count: usize)
        requires { count ≤ 4096 }
    {
        match command {
            Command::Sense => self.sense(&numbers[..count]),
            Command::Step => self.step(),
            Command::Answer => self.answer(numbers[0]),
            Command::Delete => self.delete(numbers[0]),
            Command::Run => self.run(numbers[0]),
            Command::Trace => self.trace(numbers[0]),
            Command::Show => self.show(),
            Command::Dump => raw::put_config(&mut self.page, &self.config),
            Command::Config => self.config = raw::begun(numbers),
            Command::Atom => self.add_atom(numbers),
            Command::Plan => self.add_plan(numbers),
            Command::Clock => self.clock(rt),
            _ => {}
        }
    }

    // A command and its numbers.
    fn numbers_line(&mut self, rt: &impl CpuClock, command: Command, line: &[u8], end: usize)
        requires { (end ≤ length line.now) × (length line.now ≤ 4096) }
    {
        let mut numbers = [0u32; 4096];
        match find_numbers(command, line, end, &mut numbers) {
            Ok(count) => self.obey(rt, command, &numbers, count),
            Err(Misread::Miscounted { wanted, there }) => self.fail_count(wanted, there),
            Err(Misread::NoNumber { k: _, from, to }) => {
                self.fail_word(b"not a number: `", &line[from..to], b"`\n")
            }
        }
    }

    fn replay(&mut self, rt: &(impl Files + CpuClock), line: &[u8])
        requires { length line.now ≤ 4096 }
    {
        if script::is_passed_over(line) {
            return;
        }
        let end = script::word_end(line, 0);
        let command = script::command_of(&line[..end]);
        match command {
            Command::Load => self.load_line(rt, line, end, false),
            Command::Program => self.load_line(rt, line, end, true),
            Command::Unknown => self.fail_word(b"unknown word: `", &line[..end], b"`\n"),
            _ => self.numbers_line(rt, command, line, end),
        }
    }

    // Where there is no line, the script is left.
    pub fn leave(&mut self, reason: NoLine) {
        match reason {
            NoLine::End => self.is_over = true,
            NoLine::Unended => self.fail(b"the line is not ended by byte 10"),
            NoLine::Long => self.fail(b"the line is longer than 4096 bytes"),
        }
        self.page.write();
    }

    // What a line prints is written.
    pub fn turn(&mut self, rt: &(impl Files + CpuClock), line: &[u8])
        requires { length line.now ≤ 4096 }
    {
        self.replay(rt, line);
        self.page.write();
    }
}
