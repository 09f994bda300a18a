// What is printed: bytes, numbers and the lines of the answers, gathered in a page that is written when it is full.
ghost use Rattle.std.specs.Prelude.{◌≡◌};
ghost use Rattle.arrayvec.specs.ArrayVec.{array_vec_len};

use crate::reasons;
use arrayvec::ArrayVec;
use in_place::{Counts, Ran, Stepped};
use itoa::Buffer;
use model::{LoadError, Refusal};
use running::Stop;
use state::Scalars;
use std::io;
use std::io::Stdout;
use stepping::{Did, How, Made};

// What is gathered, where it is written, and the last write that failed.
#[derive(Drop)]
pub struct Page {
    bytes: ArrayVec<u8, 4096>,
    stdout: Stdout,
    pub written: io::Result<()>,
}

impl Page {
    pub fn new(stdout: Stdout) -> Page {
        Page {
            bytes: ArrayVec::new(),
            stdout,
            written: Ok(()),
        }
    }

    // Writes what was gathered, so that the page is empty.
    pub fn write(&mut self)
        ensures { array_vec_len self.new.bytes ≡ 0 }
    {
        if let Err(e) = self.stdout.write_all(self.bytes.as_slice()) {
            self.written = Err(e);
        }
        self.bytes.clear();
    }

    // One byte more. A page that is full is written first.
    fn put_byte(&mut self, byte: u8) {
        if self.bytes.try_push(byte).is_err() {
            self.write();
            self.bytes.push(byte);
        }
    }

    pub fn put(&mut self, bytes: &[u8]) {
        for byte in bytes {
            self.put_byte(*byte);
        }
    }

    pub fn put_number(&mut self, n: u64) {
        let mut digits = Buffer::new();
        self.put(digits.format(n).as_bytes());
    }

    // Words and the number behind them.
    pub fn put_with(&mut self, words: &[u8], n: u32) {
        self.put(words);
        self.put_number(n as u64);
    }

    // Numbers, a space before each.
    pub fn put_numbers(&mut self, numbers: &[u32]) {
        for n in numbers {
            self.put_with(b" ", *n);
        }
    }

    // The end of the line of an accepted call.
    fn put_sums(&mut self, made: u32, gone: u32) {
        self.put_with(b" made ", made);
        self.put_with(b" gone ", gone);
        self.put(b"\n");
    }

    pub fn put_refused(&mut self, refusal: Refusal) {
        self.put_with(b"refused ", refusal.number());
        self.put(b": ");
        self.put(refusals::refusal_words(refusal.number()));
        self.put(b"\n");
    }

    // A refused load, with the cause as exact as it can be told.
    pub fn put_load_refused(&mut self, text: &[u8], error: LoadError) {
        self.put_with(b"refused ", error.refusal.number());
        self.put_with(b" line ", error.line);
        self.put(b": ");
        reasons::put_reason(self, text, error.refusal);
        self.put(b"\n");
    }

    // A call with no answer of its own but what it made and what went.
    pub fn put_counts(&mut self, word: &[u8], answer: Result<Counts, Refusal>) {
        match answer {
            Ok(told) => {
                self.put(word);
                self.put_sums(told.made, told.gone);
            }
            Err(refusal) => self.put_refused(refusal),
        }
    }

    fn put_fired(&mut self, set: u32, rule: u32, made: Made) {
        self.put_with(b"fired ", set);
        self.put_with(b" ", rule);
        match made {
            Made::Plan(id) => self.put_with(b" plan ", id),
            Made::Atom(id) => self.put_with(b" atom ", id),
            Made::Nothing => self.put(b" none"),
        }
    }

    fn put_executed(&mut self, plan: u32, how: How) {
        self.put_with(b"executed ", plan);
        match how {
            How::Empty => self.put(b" empty"),
            How::Held => self.put(b" held"),
            How::Done => self.put(b" done"),
            How::Failed => self.put(b" failed"),
        }
    }

    // What a step did, with the phase or the cycle that it left.
    fn put_did(&mut self, did: Did, left: Scalars) {
        match did {
            Did::Fired { set, rule, made } => self.put_fired(set, rule, made),
            Did::MovedOn => self.put_with(b"moved ", left.phase),
            Did::Executed { plan, how } => self.put_executed(plan, how),
            Did::Waits { plan, p, a, b } => {
                self.put(b"waits");
                self.put_numbers(&[plan, p, a, b]);
            }
            Did::CycleEnded => self.put_with(b"ended ", left.cycle),
        }
    }

    pub fn put_step(&mut self, answer: Result<Stepped, Refusal>, left: Scalars) {
        match answer {
            Ok(told) => {
                self.put_did(told.did, left);
                self.put_sums(told.made, told.gone);
            }
            Err(refusal) => self.put_refused(refusal),
        }
    }

    fn put_stop(&mut self, stop: Stop) {
        match stop {
            Stop::Phase0 => self.put(b"phase0"),
            Stop::Waiting => self.put(b"waiting"),
            Stop::Limit => self.put(b"limit"),
            Stop::Refused(refusal) => self.put_with(b"refused ", refusal.number()),
        }
    }

    pub fn put_run(&mut self, answer: Result<Ran, Refusal>) {
        match answer {
            Ok(told) => {
                self.put_with(b"ran ", told.steps);
                self.put(b" until ");
                self.put_stop(told.stop);
                self.put_sums(told.made, told.gone);
            }
            Err(refusal) => self.put_refused(refusal),
        }
    }
}
