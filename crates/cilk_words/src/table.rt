//! Arguments and subcommands as rows of a table, and what `clap` is told of them.

ghost use Rattle.std.specs.Prelude.{◌≡◌, IfOk, IsOkAnd, false};
ghost use Rattle.clap.specs.Words.{AddsSubcommand, app_of, rule_of};
ghost use Rattle.cilk_words.specs.Described.{app_in, rule_in, with_rules, with_subcommands};

use clap::builder::ValueParser;
use clap::{Arg, ArgAction, Command};
use std::alloc::{AllocError, Global};

/// One argument of a subcommand.
pub struct Argument<'a> {
    /// The name that it is read back by, and that its option has.
    pub id: &'a str,
    /// How it is given.
    pub form: Form<'a>,
    /// What help says of it.
    pub help: &'a str,
}

/// How an argument is given.
pub enum Form<'a> {
    /// By its place.
    Place {
        /// Whether it has to be there.
        required: bool,
    },
    /// By the name of its flag.
    Flag,
    /// By the name of its option and a text.
    Text {
        /// What help calls the text.
        value: &'a str,
    },
    /// By the name of its option and a number.
    Number {
        /// What help calls the number.
        value: &'a str,
        /// Which numbers there may be.
        parser: ValueParser<'a>,
        /// The number where the option is left out, if there is one then.
        default: Option<&'a str>,
    },
}

/// One subcommand.
pub struct Subcommand<'a> {
    /// Its name.
    pub name: &'a str,
    /// What the program's help says of it.
    pub about: &'a str,
    /// What stands behind its name.
    pub arguments: &'a [Argument<'a>],
    /// What its own help ends with.
    pub commands: Option<&'a str>,
}

/// A command with subcommands more, in the order of their rows.
pub fn with_all<'a>(
    alloc: Global,
    command: Command<'a>,
    rows: &[Subcommand<'a>],
) -> Result<Command<'a>, AllocError>
    ensures { IfOk result (λ c. app_of c ≡ with_subcommands (app_of command.entry) rows.now) }
{
    let mut command = command;
    for row in rows {
        command = with(command, row.command(alloc))?;
    }
    Ok(command)
}

// A command with one subcommand more. (What is owned where a function leaves early is dear to prove: here that is one command at a time.)
fn with<'a>(
    command: Command<'a>,
    subcommand: Result<Command<'a>, AllocError>,
) -> Result<Command<'a>, AllocError>
    ensures { IfOk result (λ whole. IsOkAnd subcommand.entry (λ sub. AddsSubcommand command.entry sub whole)) }
{
    match subcommand {
        Ok(subcommand) => command.subcommand(subcommand),
        Err(e) => Err(e),
    }
}

impl<'a> Subcommand<'a> {
    // What `clap` is told of the row.
    fn command(&self, alloc: Global) -> Result<Command<'a>, AllocError>
        ensures { IfOk result (λ c. app_of c ≡ app_in self.now) }
    {
        let named = Command::new(alloc, self.name).about(self.about);
        let told = match self.commands {
            Some(commands) => named.after_help(commands),
            None => named,
        };
        taking(alloc, told, self.arguments)
    }
}

// A command with arguments more, in the order of their rows.
fn taking<'a>(
    alloc: Global,
    command: Command<'a>,
    rows: &[Argument<'a>],
) -> Result<Command<'a>, AllocError>
    ensures { IfOk result (λ c. app_of c ≡ with_rules (app_of command.entry) rows.now) }
{
    let mut command = command;
    for row in rows {
        command = command.arg(row.arg(alloc))?;
    }
    Ok(command)
}

impl<'a> Argument<'a> {
    // What `clap` is told of the row.
    fn arg(&self, alloc: Global) -> Arg<'a>
        ensures rule { rule_of result ≡ rule_in self.now }
        ensures local { result.global ≡ false }
    {
        let arg = Arg::new(alloc, self.id).help(self.help);
        match self.form {
            Form::Place { required } => arg.required(required).action(ArgAction::Set),
            Form::Flag => arg.long(self.id).action(ArgAction::SetTrue),
            Form::Text { value } => arg.long(self.id).value_name(value).action(ArgAction::Set),
            Form::Number {
                value,
                parser,
                default,
            } => {
                let option = arg.long(self.id).value_name(value).value_parser(parser);
                match default {
                    Some(number) => option.default_value(number),
                    None => option,
                }
            }
        }
    }
}
