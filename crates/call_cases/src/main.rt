// Calls on configurations, and what each answers: a line `case number made gone`, then of what it leaves `phase waiting atoms plans`
// and of the first plan, if one is left, `left flags subgoal`. Then whole plays: a line `case number line calls made gone`, and of what
// is left `phase cycle atoms plans`.
#![tactic(auto)]

use in_place::Counts;
use interpreter::Reply;
use state::{Config, Scalars, Words};
use std::io;

fn say(rt: &impl Print, x: u64, after: &str) -> io::Result<()> {
    print!(rt; "{x}{after}")
}

fn tell_plan(rt: &impl Print, words: &Words) -> io::Result<()> {
    print!(rt; "  ")?;
    let q = state::plan_at(words, 0);
    say(rt, q.left as u64, " ")?;
    say(rt, q.flags as u64, " ")?;
    say(rt, q.subgoal as u64, "")
}

fn tell(rt: &impl Print, case: u64, r: Reply<Counts>) -> io::Result<()> {
    let (number, told) = match r.answer {
        Ok(told) => (0, told),
        Err(refusal) => (refusal.number(), Counts { made: 0, gone: 0 }),
    };
    let scalars = r.config.scalars;
    say(rt, case, " ")?;
    say(rt, number as u64, " ")?;
    say(rt, told.made as u64, " ")?;
    say(rt, told.gone as u64, "  ")?;
    say(rt, scalars.phase as u64, " ")?;
    say(rt, scalars.waiting as u64, " ")?;
    say(rt, scalars.atoms as u64, " ")?;
    say(rt, scalars.plans as u64, "")?;
    if 0 < scalars.plans {
        tell_plan(rt, &r.config.words)?;
    }
    println!(rt)
}

// The reading 1(3, 1200) is atom 1, it justifies plan 2, whose first step made the subgoal 3(3, 1200), atom 3.
fn raised() -> Config {
    let mut words = Config::fresh().words;
    words[0] = 1;
    words[state::ATOM_P] = 1;
    words[state::ATOM_A] = 3;
    words[state::ATOM_B] = 1200;
    words[1] = 3;
    words[state::ATOM_P + 1] = 3;
    words[state::ATOM_A + 1] = 3;
    words[state::ATOM_B + 1] = 1200;
    words[1280] = 2;
    words[1281] = 1;
    words[1282] = 1;
    words[1283] = 2;
    words[1285] = 3;
    words[1286] = 1;
    words[1290] = 1;
    words[1291] = 3;
    words[1292] = 1200;
    words[1293] = 65536;
    words[1294] = 65536;
    words[1295] = 65536;
    words[1296] = 65536;
    words[1297] = 65536;
    Config {
        words,
        scalars: Scalars {
            phase: 0,
            cycle: 0,
            next: 4,
            waiting: 0,
            atoms: 2,
            plans: 1,
        },
    }
}

// The subgoal was met: the plan's action is next, and the plan waits for its answer.
fn waiting() -> Config {
    let mut config = raised();
    config.words[1283] = 1;
    config.words[1285] = 0;
    config.scalars = config.scalars.with_phase(2).with_waiting(2);
    config
}

// Two readings that are equal, one that a ceiling takes.
fn readings(program: &[u32]) -> Reply<Counts> {
    interpreter::sense(
        program,
        Config::fresh(),
        &[1, 1, 3, 1200, 1, 1, 3, 1200, 1, 1, 4, 4095],
    )
}

// What was sensed, as the next cycle finds it.
fn sensed(program: &[u32]) -> Config {
    let mut config = readings(program).config;
    config.scalars = config.scalars.with_phase(0);
    config
}

fn senses(rt: &impl Print, program: &[u32]) -> io::Result<()> {
    tell(rt, 1, readings(program))?;
    tell(
        rt,
        2,
        interpreter::sense(program, sensed(program), &[2, 1, 3, 1200]),
    )?;
    tell(
        rt,
        3,
        interpreter::sense(program, sensed(program), &[2, 1, 4, 4095]),
    )?;
    tell(
        rt,
        4,
        interpreter::sense(program, sensed(program), &[2, 2, 4, 4095]),
    )?;
    tell(rt, 5, interpreter::sense(program, sensed(program), &[]))?;
    tell(
        rt,
        6,
        interpreter::sense(program, sensed(program), &[1, 1, 3]),
    )?;
    tell(
        rt,
        7,
        interpreter::sense(program, sensed(program), &[1, 1, 3, 7, 3, 1, 3, 7]),
    )?;
    tell(
        rt,
        8,
        interpreter::sense(program, sensed(program), &[0u32; 260]),
    )?;
    tell(
        rt,
        9,
        interpreter::sense(program, waiting(), &[2, 1, 3, 1200]),
    )?;
    tell(
        rt,
        10,
        interpreter::sense(program, raised(), &[2, 1, 3, 1200]),
    )?;
    tell(
        rt,
        11,
        interpreter::sense(program, raised(), &[2, 3, 3, 1200]),
    )?;
    tell(
        rt,
        12,
        interpreter::sense(program, raised(), &[1, 1, 9, 9, 2, 1, 3, 1200]),
    )
}

fn deletes(rt: &impl Print, program: &[u32]) -> io::Result<()> {
    tell(rt, 13, interpreter::delete(program, raised(), 1))?;
    tell(rt, 14, interpreter::delete(program, raised(), 2))?;
    tell(rt, 15, interpreter::delete(program, raised(), 3))?;
    tell(rt, 16, interpreter::delete(program, raised(), 4))?;
    tell(rt, 17, interpreter::delete(program, raised(), 0))?;
    tell(rt, 18, interpreter::delete(program, waiting(), 2))
}

fn answers(rt: &impl Print, program: &[u32]) -> io::Result<()> {
    tell(rt, 19, interpreter::answer(program, waiting(), 1))?;
    tell(rt, 20, interpreter::answer(program, waiting(), 0))?;
    tell(rt, 21, interpreter::answer(program, waiting(), 2))?;
    tell(rt, 22, interpreter::answer(program, raised(), 1))
}

// A plan without its rule, ids that were not given out, rows that are no program.
fn ill_formed(rt: &impl Print, program: &[u32]) -> io::Result<()> {
    tell(rt, 23, interpreter::delete(&[], raised(), 1))?;
    let mut late = raised();
    late.scalars = late.scalars.with_counts(3, 1);
    tell(rt, 24, interpreter::delete(program, late, 1))?;
    tell(rt, 25, interpreter::delete(&[1, 1, 1], Config::fresh(), 1))
}

fn calls(rt: &impl Print, program: &[u32]) -> io::Result<()> {
    senses(rt, program)?;
    deletes(rt, program)?;
    answers(rt, program)?;
    ill_formed(rt, program)
}

fn play(rt: &impl Print, case: u64, text: &[u8], words: &[u32]) -> io::Result<()> {
    let p = interpreter::play(text, words);
    let scalars = p.config.scalars;
    say(rt, case, " ")?;
    match p.worked {
        Ok(worked) => {
            print!(rt; "0 0 ")?;
            say(rt, worked.calls as u64, " ")?;
            say(rt, worked.made as u64, " ")?;
            say(rt, worked.gone as u64, "  ")?;
        }
        Err(error) => {
            say(rt, error.refusal.number() as u64, " ")?;
            say(rt, error.line as u64, " 0 0 0  ")?;
        }
    }
    say(rt, scalars.phase as u64, " ")?;
    say(rt, scalars.cycle as u64, " ")?;
    say(rt, scalars.atoms as u64, " ")?;
    say(rt, scalars.plans as u64, "\n")
}

// "the run above", and "then withdraw 1 3 1200: gone 3, none alive".
fn play_key(rt: &impl Print, text: &[u8]) -> io::Result<()> {
    play(
        rt,
        26,
        text,
        &[
            1, 0, 4, 1, 1, 3, 1200, 2, 0, 0, 2, 0, 0, 2, 0, 0, 2, 0, 0, 2, 0, 0, 2, 0, 0, 1, 0, 4,
            2, 1, 3, 1200,
        ],
    )
}

// Refused: a step and an answer out of turn, delete 0; a second sense, a word that is no program.
fn play_refused(rt: &impl Print, text: &[u8]) -> io::Result<()> {
    play(
        rt,
        27,
        text,
        &[2, 0, 0, 3, 0, 1, 4, 0, 0, 1, 0, 4, 1, 1, 3, 1200, 4, 0, 1],
    )?;
    play(rt, 28, text, &[1, 0, 0, 1, 0, 0, 2, 2, 0, 7])
}

// Under no rows 1(4, 4095) stays what it is, and a step ends the cycle; the loaded ceiling withdraws 2(4, 4095), which is not there.
// A ceiling of its own; one that takes a reading as predicate 0.
fn play_own(rt: &impl Print, text: &[u8]) -> io::Result<()> {
    play(
        rt,
        29,
        text,
        &[1, 1, 4, 1, 1, 4, 4095, 2, 1, 0, 1, 0, 4, 2, 1, 4, 4095],
    )?;
    play(rt, 30, text, &[1, 9, 0, 0, 0, 0, 40, 9, 1, 4104, 12])?;
    play(rt, 31, text, &[1, 9, 0, 0, 0, 0, 40, 9, 1, 4104, 9])
}

// The words end in the middle of the readings, of the program, of the header; a kind that is none.
fn play_ended(rt: &impl Print, text: &[u8]) -> io::Result<()> {
    play(
        rt,
        32,
        text,
        &[1, 0, 4, 1, 1, 3, 1200, 1, 0, 8, 2, 1, 3, 1200],
    )?;
    play(rt, 33, text, &[1, 0, 0, 2, 9, 0, 1, 1, 1])?;
    play(rt, 34, text, &[1, 0, 0, 2, 0])?;
    play(rt, 35, text, &[4, 0, 0, 5, 0, 0, 1, 0, 0])
}

// A refused load; an initial atom, deleted.
fn play_loads(rt: &impl Print) -> io::Result<()> {
    play(
        rt,
        36,
        b"set rule part op i p a b\n0 0 0 40 0 1 4095\n",
        &[1, 0, 0],
    )?;
    play(
        rt,
        37,
        b"set rule part op i p a b\n0 0 0 41 0 7 1 2\n",
        &[4, 0, 1],
    )
}

fn plays(rt: &impl Print) -> io::Result<()> {
    let key =
        b"set rule part op i p a b\n0 0 0 40 0 1 4095 2\n1 1 1 1 -1 1 -2 -3\n1 1 3 36 -9 3 -2 -3\n2 1 2 3 -1 0 -9 -9\n2 1 2 12 -1 0 2 0\n2 1 3 23 -1 0 2 0\n";
    play_key(rt, key)?;
    play_refused(rt, key)?;
    play_own(rt, key)?;
    play_ended(rt, key)?;
    play_loads(rt)
}

fn main(rt: HostRuntime) -> io::Result<()> {
    let mut rows = [0u32; 4096];
    let mut config = Config::fresh();
    let loaded = loading::load(
        b"set rule part op i p a b\n0 0 0 40 0 1 4095 2\n1 1 1 1 -1 1 -2 -3\n1 1 3 36 -9 3 -2 -3\n1 1 3 31 0 9 -2 -3\n",
        &mut rows,
        &mut config,
    );
    let n = loaded.unwrap_or(0) as usize * 8;
    calls(&rt, &rows[..n.min(4096)])?;
    plays(&rt)
}
