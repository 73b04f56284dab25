//! The names of variables, by their numbers in the declarations.

ghost use Rattle.std.specs.Prelude.{◌≡◌, option_copied, slice_get};
ghost use Rattle.cilk_log_replay.specs.machine.labelled.Bodies.{label};
ghost use Rattle.cilk_races.specs.RacesText.{name_by, own_name};

use cilk_log_replay::Loaded;

/// That of a variable of the top level, where there is one.
pub(crate) fn top_name(loaded: &Loaded, variable: usize) -> &str
    ensures { result.now ≡ name_by (slice_get (label loaded.now).globals variable) }
{
    match item(loaded.globals(), variable) {
        None => "",
        Some(var) => var.name.as_str(),
    }
}

/// That of a variable of a body, where there are both.
pub(crate) fn own_name(loaded: &Loaded, body: u32, variable: usize) -> &str
    ensures { result.now ≡ own_name variable (slice_get (label loaded.now).bodies body) }
{
    match loaded.body(body) {
        None => "",
        Some(body) => match item(body.vars.as_slice(), variable) {
            None => "",
            Some(var) => var.name.as_str(),
        },
    }
}

// What stands there, where there is something.
fn item<T>(items: &[T], at: usize) -> Option<&T>
    ensures { option_copied result ≡ slice_get items.now at }
{
    items.get(at)
}
