//! Programs that may not be run: C1 to C17.

use crate::conversions::say_format;
use crate::labels::say_label;
use crate::left_out::{left_out, say_left_out};
use crate::meant::{say_count, say_kind, say_of_name};
use crate::reason::Reason;
use crate::remarks::Spot;
use crate::say::say;
use crate::search::{declared_in_file, has_command_line, procedure_around};
use crate::site::Site;
use crate::unknown::say_unknown;
use cilk_check_scopes::{CheckFault, DeclarationKind, Memory, ReturnType};

const TWICE: &str = " is declared again in the same scope";

const VOID: &str = " is `void`, but a value is needed here";

const NO_MAIN: &str =
    "The program has no `cilk int main` without parameters, or with `int argc, char *argv[]`, to begin with";

const MAIN_OF_C: &str =
    ": the `main` in line @ is a C function, since `cilk` does not stand before it";

const MAIN_OF_VOID: &str = ": the `main` in line @ is `void`";

const OTHER_MAIN: &str = ": the `main` in line @ has other parameters";

const PROTOTYPE: &str =
    "`$` has no definition that agrees in the word `cilk`, the result and the number of parameters";

const COMMAND_LINE: &str =
    "`$` has the parameters `int argc, char *argv[]` where it is defined, and then no prototype agrees with it";

const IN_FUNCTION: &str = "`$` stands in a C function, but only a Cilk procedure may have it";

const AROUND: &str = ": `cilk` before its result makes one of `$`, in line @";

pub(crate) fn say_check(
    out: &mut String,
    site: &Site<'_, '_>,
    fault: CheckFault,
) -> Result<(), Memory> {
    match fault {
        CheckFault::Unknown(_) => say_unknown(out, site),
        CheckFault::WrongKind(_) => say_kind(out, site),
        CheckFault::ArgumentCount(_) => say_count(out, site),
        CheckFault::Prototype(_) => say_prototype(out, site),
        CheckFault::NoMain(_) => say_no_main(out, site),
        CheckFault::Label(_) => say_label(out, site),
        CheckFault::Format(_) => say_format(out, site.word()),
        _ => say_form(out, site, fault),
    }
}

// The faults that are told by a word, and what is wrong with it.
fn say_form(out: &mut String, site: &Site<'_, '_>, fault: CheckFault) -> Result<(), Memory> {
    let word = site.word();
    match fault {
        CheckFault::Twice(_) => say_of_name(out, site, TWICE),
        CheckFault::VoidValue(_) => say_of_name(out, site, VOID),
        CheckFault::NotInProcedure(_) if word != "inlet" => say_in_function(out, site),
        CheckFault::Reserved(_) if left_out(word).is_some() => say_left_out(out, word),
        _ => Reason::joined("`$`", form(site, fault), word).say(out),
    }
}

// What is said behind the word at the place of a fault of which no declaration tells more.
fn form(site: &Site<'_, '_>, fault: CheckFault) -> &'static str {
    match fault {
        CheckFault::NotInProcedure(_) => {
            " stands elsewhere than at the head of the outermost block of a Cilk procedure"
        }
        CheckFault::InletNeedsSpawn(_) =>
            " is an inlet, and takes the value of a `spawn` as its first argument",
        CheckFault::InInlet(_) =>
            " stands in an inlet, but only the procedure around it may have it",
        CheckFault::AbortOutside(_) => " stands outside an inlet, but only an inlet may have it",
        CheckFault::NoLoop(_) if site.word() == "break" => {
            " stands outside a loop and a `switch`, but only these may have it"
        }
        CheckFault::NoLoop(_) => " stands outside a loop, but only a loop may have it",
        CheckFault::ReturnForm(_) => return_form(site),
        CheckFault::Limit(_) => {
            " passes a limit: an array has 1 to 65536 cells, the body of a function, a procedure or an inlet at most 4096 in \
            all, and the top level 1048576"
        }
        CheckFault::Reserved(_) =>
            " is a reserved name: it is not declared, and is used in its own statement only",
        _ => " is the first word, but memory has run out",
    }
}

fn return_form(site: &Site<'_, '_>) -> &'static str {
    if site.front.spelled(Spot::Behind(1)) == ";" {
        " has no value here, but what it ends gives an `int`"
    } else {
        " has a value here, but what it ends is `void`"
    }
}

// C6, of a word in a body.
fn say_in_function(out: &mut String, site: &Site<'_, '_>) -> Result<(), Memory> {
    Reason::named(IN_FUNCTION, site.word()).say(out)?;
    match procedure_around(site.program, site.at) {
        Some(procedure) => Reason {
            words: AROUND,
            more: "",
            name: procedure.name.as_str(),
            number: site.line(procedure.name.at()),
        }
        .say(out),
        None => Ok(()),
    }
}

// Why what is declared as `main` is none to begin with.
fn of_main(kind: DeclarationKind) -> Option<&'static str> {
    match kind {
        DeclarationKind::Function(_, _) => Some(MAIN_OF_C),
        DeclarationKind::Procedure(ReturnType::Void, _) => Some(MAIN_OF_VOID),
        DeclarationKind::Procedure(ReturnType::Int, _) => Some(OTHER_MAIN),
        _ => None,
    }
}

fn say_no_main(out: &mut String, site: &Site<'_, '_>) -> Result<(), Memory> {
    say(out, NO_MAIN)?;
    let Some(declared) = declared_in_file(site.program, "main") else {
        return Ok(());
    };
    match of_main(declared.kind) {
        Some(words) => Reason::numbered(words, site.line(declared.at)).say(out),
        None => Ok(()),
    }
}

// What is said of a prototype that nothing defines.
fn of_prototype<'a>(site: &Site<'a, '_>) -> Reason<'a> {
    let name = site.word();
    match declared_in_file(site.program, name) {
        Some(declared) if declared.parameters().is_some() => Reason {
            words: PROTOTYPE,
            more: ": the one in line @ does not",
            name,
            number: site.line(declared.at),
        },
        _ => Reason::named(PROTOTYPE, name),
    }
}

// C11.
fn say_prototype(out: &mut String, site: &Site<'_, '_>) -> Result<(), Memory> {
    let name = site.word();
    if name == "main" && has_command_line(site.program) {
        return Reason::named(COMMAND_LINE, name).say(out);
    }
    of_prototype(site).say(out)
}
