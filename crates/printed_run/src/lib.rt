// What the program keyrun prints for a text.
#![tactic(auto)]

ghost use Rattle.std.specs.Prelude.{◌≡◌};
ghost use Rattle.model.specs.Configuration.{fresh};
ghost use Rattle.model.specs.Run.{keyrun};
ghost use Rattle.program.specs.Rows.{rows_of};
ghost use Rattle.in_place.specs.Given.{given_rows};
ghost use Rattle.interpreter.specs.Calls.{conf};
ghost use Rattle.printed_run.specs.Printed.{run_text};

use listing::Page;
use state::Config;

// "takes sense 1 1 3 1200, run 10, and prints"
fn print_from(program: &[u32], config: Config) -> Page
    requires { (given_rows program.now ≡ rows_of program.now) × (conf config ≡ fresh (rows_of program.now)) }
    ensures { result.items ≡ run_text (rows_of program.now) }
{
    let sensed = interpreter::sense(program, config, &[1, 1, 3, 1200]);
    if let Err(refusal) = sensed.answer {
        return listing::refusal(refusal.number());
    }
    let ran = interpreter::run(program, sensed.config, 10);
    if let Err(refusal) = ran.answer {
        return listing::refusal(refusal.number());
    }
    listing::listing(&ran.config.words, ran.config.scalars)
}

// "loads it, takes sense 1 1 3 1200, run 10, and prints"; "A refused call prints its number alone instead."
pub fn print_run(text: &[u8]) -> Page
    ensures { result.items ≡ keyrun text.now }
{
    let mut rows = [0u32; 4096];
    let mut config = Config::fresh();
    match loading::load(text, &mut rows, &mut config) {
        Ok(n) => print_from(&rows[..n as usize * 8], config),
        Err(error) => listing::refusal(error.refusal.number()),
    }
}
