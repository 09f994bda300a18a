// The bench, and the calls of a script on it: each is made, and its line is put.
ghost use Rattle.std.specs.Prelude.{◌≤◌};

use crate::output::Page;
use model::Refusal;
use state::Config;
use std::io::Stdout;

// The program and how many rows it has, the configuration, the number of the script's line, what is printed, and whether the script is
// left.
#[derive(Drop)]
pub struct Bench {
    pub program: [u32; 4096],
    pub rows: u32,
    ghost few_rows: { rows ≤ 512 },
    pub config: Config,
    pub line: u64,
    pub page: Page,
    pub is_over: bool,
}

impl Bench {
    pub fn new(stdout: Stdout) -> Bench {
        Bench {
            program: [0; 4096],
            rows: 0,
            config: Config::fresh(),
            line: 0,
            page: Page::new(stdout),
            is_over: false,
        }
    }

    pub fn sense(&mut self, numbers: &[u32]) {
        let rows = &self.program[..self.rows as usize * 8];
        let answer = controller::sense(rows, &mut self.config, numbers);
        self.page.put_counts(b"sensed", answer);
    }

    pub fn answer(&mut self, n: u32) {
        let rows = &self.program[..self.rows as usize * 8];
        let answer = controller::answer(rows, &mut self.config, n);
        self.page.put_counts(b"answered", answer);
    }

    pub fn delete(&mut self, id: u32) {
        let rows = &self.program[..self.rows as usize * 8];
        let answer = controller::delete(rows, &mut self.config, id);
        self.page.put_counts(b"deleted", answer);
    }

    pub fn step(&mut self) {
        let rows = &self.program[..self.rows as usize * 8];
        let answer = controller::step(rows, &mut self.config);
        self.page.put_step(answer, self.config.scalars);
    }

    pub fn run(&mut self, limit: u32) {
        let rows = &self.program[..self.rows as usize * 8];
        let answer = controller::run(rows, &mut self.config, limit);
        self.page.put_run(answer);
    }

    // A run is its steps in turn: they are taken one by one, then the run's own line is put.
    pub fn trace(&mut self, limit: u32) {
        let mut after = self.config;
        let answer = controller::run(&self.program[..self.rows as usize * 8], &mut after, limit);
        if let Ok(told) = answer {
            for _ in 0..told.steps {
                self.step();
            }
        }
        self.page.put_run(answer);
    }

    // "`kind id p a b sub`, then live instances by id". A configuration that is not well formed has no listing.
    #[tactic(auto, using(crate::proofs::Bounds::admitted_listable))]
    pub fn show(&mut self) {
        let rows = &self.program[..self.rows as usize * 8];
        if !in_place::admits(rows, &self.config.words, self.config.scalars) {
            return self.page.put_refused(Refusal::NotWellFormed);
        }
        let listed = listing::listing(&self.config.words, self.config.scalars);
        self.page.put(listed.as_slice());
    }
}
