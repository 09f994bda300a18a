// Load: a program text, to the rows of a program in lent words and a fresh configuration.
#![tactic(auto)]

ghost use Rattle.std.specs.Prelude.{◌≡◌, ◌-◌, ◌≤◌, length, OnErr};
ghost use Rattle.model.specs.Program.{initial_atoms};
ghost use Rattle.model.specs.Configuration.{fresh};
ghost use Rattle.program.specs.Rows.{rows_from};
ghost use Rattle.state.specs.View.{config_of};
ghost use Rattle.loading.specs.Starting.{Room, Taken, seen, starting};

use model::{LoadError, Row};
use state::{Config, Scalars, Words};

// "op 41 an initial atom p, a, b": what the row adds to the configuration.
fn take_initial(words: &mut Words, scalars: Scalars, r: Row) -> Scalars
    requires { Room words.old scalars r }
    ensures { Taken words.old scalars r words.new result }
{
    if r.set != 0 {
        return scalars;
    }
    if r.op != 41 {
        return scalars;
    }
    state::append_atom(
        words,
        scalars,
        r.p,
        model::constant(r.a),
        model::constant(r.b),
    )
}

// "A fresh configuration .. then takes the program's initial atoms in row order."
fn start(program: &[u32; 4096], rows: usize) -> Config
    requires { (rows ≤ 512) × (length (initial_atoms (rows_from program.now 0 rows)) ≤ 256) }
    ensures { config_of result.words result.scalars ≡ fresh (rows_from program.now 0 rows) }
{
    let mut config = Config::fresh();
    for k in 0..rows {
        let row = program::row_at(program, k);
        config.scalars = take_initial(&mut config.words, config.scalars, row);
    }
    config
}

// "Load tests lines in order": a text's program, of so many rows, and its fresh configuration in place of the one that was there, or the
// first refusal, which leaves both as they were.
pub fn load(text: &[u8], program: &mut [u32; 4096], config: &mut Config) -> Result<u32, LoadError>
    ensures program_after { seen (config_of config.new.words config.new.scalars) result program.new ≡ starting text.now program.old (config_of config.old.words config.old.scalars) }
    ensures untouched { OnErr result (config.new ≡ config.old) }
{
    let rows = program::load(text, program)?;
    *config = start(program, rows as usize);
    Ok(rows)
}
