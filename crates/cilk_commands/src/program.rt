//! From the bytes of a text to a checked program, or to the first of what is wrong, with its line and column.

ghost use Rattle.std.specs.Prelude.{◌≡◌, ◌≤◌, ◌<◌, ◌↔◌, length, IfOk, IfErr, IsErrOf, IsUtf8, MatchResult};
ghost use Rattle.cilk_load.specs.lexeme.LineColumn.{line_in, column_in};
ghost use Rattle.cilk_load.specs.syntax.Tree as tree;
ghost use Rattle.cilk_commands.specs.Program.{Explains, IsProgram};
ghost use Rattle.cilk_commands.specs.FaultPlace.{place_of};

use crate::failure::Failure;
use crate::fault::Fault;
use cilk_check::{CheckFault, Checked, LexFault, check};
use cilk_check_explain::{ReadFault, TEXT_LIMIT, line_col, read};
use std::alloc::Global;

/// The program that the bytes of a text are. What is wrong is told in this order: the length of the text, that it is not
/// UTF-8, its tokens and its grammar, and the rules that no grammar says.
pub fn checked_program(alloc: Global, bytes: &[u8]) -> Result<Checked, Failure>
    ensures ok { IfOk result (IsProgram bytes.now) }
    ensures err { IfErr result (Explains bytes.now) }
    ensures every_program { (p : tree.Program) → IsProgram bytes.now p
        → MatchResult result (λ q. q ≡ p) (λ why. why ≡ Failure.Memory) }

    // These two take no memory.
    ensures too_long { TEXT_LIMIT < length bytes.now
        → result ≡ Err (Failure.Fault (Fault.Read (ReadFault.Lex LexFault.TooLong)) 1 1) }
    ensures not_utf8 { IsErrOf result Failure.NotUtf8
        ↔ ((length bytes.now ≤ TEXT_LIMIT) × ¬ (IsUtf8 bytes.now)) }
{
    if bytes.len() > TEXT_LIMIT {
        return Err(Failure::Fault {
            fault: Fault::Read(ReadFault::Lex(LexFault::TooLong)),
            line: 1,
            column: 1,
        });
    }
    let Ok(text) = str::from_utf8(bytes) else {
        return Err(Failure::NotUtf8);
    };
    let program = match read(alloc, text) {
        Ok(program) => program,
        Err(ReadFault::Memory) => return Err(Failure::Memory),
        Err(fault) => return Err(fault_in(text, Fault::Read(fault))),
    };
    match check(alloc, program) {
        Ok(checked) => Ok(checked),
        Err(CheckFault::Memory) => Err(Failure::Memory),
        Err(fault) => Err(fault_in(text, Fault::Check(fault))),
    }
}

fn fault_in(text: &str, fault: Fault) -> Failure
    requires short { length text.now ≤ TEXT_LIMIT }
    ensures { let at = place_of fault in
        result ≡ Failure.Fault fault (line_in text.now at) (column_in text.now at) }
{
    let (line, column) = line_col(text, fault.place());
    Failure::Fault {
        fault,
        line,
        column,
    }
}
