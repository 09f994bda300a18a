// A configuration as it stands, in lines `config ..`, `atom ..`, `plan ..`: printed and taken back.
ghost use Rattle.std.specs.Prelude.{◌<◌};

use crate::output::Page;
use state::{Config, PLANS_AT, Scalars};

// `config PHASE CYCLE NEXT WAITING`
pub fn begun(numbers: &[u32; 4096]) -> Config {
    Config {
        scalars: Scalars {
            phase: numbers[0],
            cycle: numbers[1],
            next: numbers[2],
            waiting: numbers[3],
            atoms: 0,
            plans: 0,
        },
        ..Config::fresh()
    }
}

// `atom ID P A B CYCLE`
pub fn add_atom(config: &mut Config, numbers: &[u32; 4096])
    requires { config.old.scalars.atoms < 256 }
{
    let k = config.scalars.atoms as usize;
    config.words[k] = numbers[0];
    config.words[state::ATOM_P + k] = numbers[1];
    config.words[state::ATOM_A + k] = numbers[2];
    config.words[state::ATOM_B + k] = numbers[3];
    config.words[state::ATOM_CYCLE + k] = numbers[4];
    config.scalars.atoms += 1;
}

// `plan ID SET RULE LEFT FLAGS SUB J1 J2 J3 J4 V1 .. V8`
pub fn add_plan(config: &mut Config, numbers: &[u32; 4096])
    requires { config.old.scalars.plans < 64 }
{
    let at = PLANS_AT + config.scalars.plans as usize * 18;
    config.words[at..at + 18].copy_from_slice(&numbers[..18]);
    config.scalars.plans += 1;
}

// A line of a record.
fn put_record(page: &mut Page, word: &[u8], record: &[u32]) {
    page.put(word);
    page.put_numbers(record);
    page.put(b"\n");
}

// The whole configuration, as far as there are places.
pub fn put_config(page: &mut Page, config: &Config) {
    let s = config.scalars;
    put_record(page, b"config", &[s.phase, s.cycle, s.next, s.waiting]);
    for k in 0..s.atoms.min(Config::MOST_ATOMS) as usize {
        let x = state::atom_at(&config.words, k);
        put_record(page, b"atom", &[x.id, x.p, x.a, x.b, x.cycle]);
    }
    for plan in config.words[PLANS_AT..]
        .chunks_exact(18)
        .take(s.plans as usize)
    {
        put_record(page, b"plan", plan);
    }
}
