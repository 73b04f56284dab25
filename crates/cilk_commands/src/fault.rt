//! The faults of reading and of the check in one type, with the place and the written words of each.

ghost use Rattle.std.specs.Prelude.{◌≡◌};
ghost use Rattle.cilk_commands.specs.FaultPlace.{place_of};
ghost use Rattle.cilk_commands.specs.Telling.{check_words, lex_words, read_words, words_of};

use cilk_check::{CheckFault, LexFault};
use cilk_check_explain::ReadFault;
use thiserror::Error;

/// Why a text is refused at a place of it.
#[derive(Clone, Copy, Debug, PartialEq, Eq, Error)]
pub enum Fault {
    /// The text spells no program.
    #[error(transparent)]
    Read(ReadFault),
    /// The program that the text spells breaks a rule.
    #[error(transparent)]
    Check(CheckFault),
}

impl Fault {
    /// The place of the fault in the text, in bytes from 0.
    pub fn place(&self) -> u32
        ensures { result ≡ place_of self.now }
    {
        match self {
            Fault::Read(fault) => fault.place(),
            Fault::Check(fault) => fault.place(),
        }
    }

    /// Its code and its word, as `Display` writes them too, of which no clause can be had.
    pub fn words(&self) -> &'static str
        ensures { result.now ≡ words_of self.now }
    {
        match self {
            Fault::Read(fault) => read_words(fault),
            Fault::Check(fault) => check_words(fault),
        }
    }
}

fn read_words(fault: &ReadFault) -> &'static str
    ensures { result.now ≡ read_words fault.now }
{
    match fault {
        ReadFault::Lex(fault) => lex_words(fault),
        ReadFault::Unexpected(_) => "P2 Unexpected",
        ReadFault::TooDeep(_) => "P3 TooDeep",
        ReadFault::Memory => "out of memory",
    }
}

fn lex_words(fault: &LexFault) -> &'static str
    ensures { result.now ≡ lex_words fault.now }
{
    match fault {
        LexFault::TooLong => "L1 TooLong",
        LexFault::BadByte(_) => "L2 BadByte",
        LexFault::OpenComment(_) => "L3 OpenComment",
        LexFault::OpenText(_) => "L4 OpenText",
        LexFault::BadNumber(_) => "L5 BadNumber",
        LexFault::BadEscape(_) => "L6 BadEscape",
        LexFault::BadDirective(_) => "L7 BadDirective",
        LexFault::Memory => "out of memory",
    }
}

fn check_words(fault: &CheckFault) -> &'static str
    ensures { result.now ≡ check_words fault.now }
{
    match fault {
        CheckFault::Twice(_) => "C1 Twice",
        CheckFault::Unknown(_) => "C2 Unknown",
        CheckFault::WrongKind(_) => "C3 WrongKind",
        CheckFault::ArgumentCount(_) => "C4 ArgumentCount",
        CheckFault::VoidValue(_) => "C5 VoidValue",
        CheckFault::NotInProcedure(_) => "C6 NotInProcedure",
        CheckFault::InletNeedsSpawn(_) => "C7 InletNeedsSpawn",
        CheckFault::InInlet(_) => "C8 InInlet",
        CheckFault::AbortOutside(_) => "C9 AbortOutside",
        CheckFault::NoLoop(_) => "C10 NoLoop",
        CheckFault::Prototype(_) => "C11 Prototype",
        CheckFault::NoMain(_) => "C12 NoMain",
        CheckFault::ReturnForm(_) => "C13 ReturnForm",
        CheckFault::Format(_) => "C14 Format",
        CheckFault::Limit(_) => "C15 Limit",
        CheckFault::Reserved(_) => "C16 Reserved",
        CheckFault::Label(_) => "C17 Label",
        CheckFault::Memory => "out of memory",
    }
}
