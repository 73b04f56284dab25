//! The canonical text of a program.

ghost use Rattle.std.specs.Prelude.{◌≡◌, ◌++◌, ◌∷◌, [], codes, IfOk, map, string_bytes};
ghost use Rattle.std.specs.Fmt.{signed_decimal};
ghost use Rattle.cilk_tree_syntax.specs.ProgramView.{global_shape_of, parameters_of};
ghost use Rattle.cilk_tree_syntax.specs.Tree.{command_line, global, lock, prototype, procedure};
ghost use Rattle.cilk_tree_syntax.specs.Appends.{Appends};
ghost use Rattle.cilk_tree_syntax.specs.Lines.{text_of};
ghost use Rattle.cilk_tree_syntax.specs.ProgramText.{cilk_text, global_shape_text, head_text, header_line, header_name};
ghost use Rattle.cilk_tree_syntax.specs.ProgramText.{item_lines, next_types_text, opening_line, parameters_text, program_text, types_text};

use crate::head::put_names;
use crate::line::put_length;
use crate::put::put;
use crate::stmt::put_body;
use cilk_tree_syntax::{
    GlobalShape, Header, Item, ItemNode, Memory, Parameters, Proc, Program, Prototype, ReturnType,
    Word,
};
use itoa::Buffer;
use std::alloc::Global;

/// The canonical text of a program: a line for each header, declaration and statement, four spaces for each level, and
/// parentheses round each operand that is no number, name, element of an array or `SYNCHED`.
pub fn canonical(alloc: Global, program: &Program) -> Result<String, Memory>
    ensures { IfOk result (λ text. string_bytes text ≡ program_text program.now) }
{
    let mut out = String::new(alloc);
    put_headers(&mut out, &program.headers)?;
    for item in &program.items {
        put_item(alloc, &mut out, item)?;
    }
    Ok(out)
}

fn put_headers(out: &mut String, headers: &[Header]) -> Result<(), Memory>
    ensures { Appends result out.old out.new (text_of [] (map header_line headers.now)) }
{
    for header in headers {
        put_header(out, *header)?;
    }
    Ok(())
}

fn put_header(out: &mut String, header: Header) -> Result<(), Memory>
    ensures { Appends result out.old out.new (text_of [] (header_line header ∷ [])) }
{
    put(out, "#include <")?;
    put(out, name_of(header))?;
    put(out, ">\n")
}

fn name_of(header: Header) -> &'static str
    ensures { result.now ≡ header_name header }
{
    match header {
        Header::Cilk => "cilk.h",
        Header::CilkLib => "cilk-lib.h",
        Header::CilkLibCilkh => "cilk-lib.cilkh",
        Header::Stdio => "stdio.h",
        Header::Stdlib => "stdlib.h",
    }
}

fn put_item(alloc: Global, out: &mut String, item: &Item) -> Result<(), Memory>
    ensures { Appends result out.old out.new (text_of [] (item_lines item.now)) }
{
    match &item.node {
        ItemNode::Global(definition) => put_global(out, definition),
        ItemNode::Lock(name) => put_lock(out, name),
        ItemNode::Prototype(declaration) => put_prototype(out, declaration),
        ItemNode::Procedure(definition) => put_procedure(alloc, out, definition),
    }
}

fn put_global(out: &mut String, definition: &cilk_tree_syntax::Global) -> Result<(), Memory>
    ensures { Appends result out.old out.new (text_of [] (item_lines (global definition.now))) }
{
    put(out, "int ")?;
    put(out, definition.name.as_str())?;
    put_global_shape(out, definition.shape)?;
    put(out, ";\n")
}

fn put_global_shape(out: &mut String, shape: GlobalShape) -> Result<(), Memory>
    ensures { Appends result out.old out.new (global_shape_text (global_shape_of shape)) }
{
    match shape {
        GlobalShape::Variable(None) => Ok(()),
        GlobalShape::Variable(Some(value)) => put_start(out, value),
        GlobalShape::Array(length) => put_length(out, length),
    }
}

// The number that a variable starts with.
fn put_start(out: &mut String, value: i32) -> Result<(), Memory>
    ensures { Appends result out.old out.new (codes " = " ++ signed_decimal value) }
{
    let mut buffer = Buffer::new();
    put(out, " = ")?;
    put(out, buffer.format(value))
}

fn put_lock(out: &mut String, name: &Word) -> Result<(), Memory>
    ensures { Appends result out.old out.new (text_of [] (item_lines (lock name.now))) }
{
    put(out, "Cilk_lockvar ")?;
    put(out, name.as_str())?;
    put(out, ";\n")
}

fn put_prototype(out: &mut String, declaration: &Prototype) -> Result<(), Memory>
    ensures { Appends result out.old out.new (text_of [] (item_lines (prototype declaration.now))) }
{
    put_head(
        out,
        declaration.is_cilk,
        declaration.returns,
        &declaration.name,
    )?;
    put_types(out, declaration.count)?;
    put(out, ");\n")
}

// What stands before the parameters.
fn put_head(out: &mut String, is_cilk: bool, returns: ReturnType, name: &Word) -> Result<(), Memory>
    ensures { Appends result out.old out.new (head_text is_cilk returns name.now) }
{
    put_cilk(out, is_cilk)?;
    put(out, returns.word())?;
    put(out, " ")?;
    put(out, name.as_str())?;
    put(out, "(")
}

fn put_cilk(out: &mut String, is_cilk: bool) -> Result<(), Memory>
    ensures { Appends result out.old out.new (cilk_text is_cilk) }
{
    if is_cilk { put(out, "cilk ") } else { Ok(()) }
}

// The types of parameters, as many as that.
fn put_types(out: &mut String, count: u32) -> Result<(), Memory>
    ensures { Appends result out.old out.new (types_text count) }
{
    if count == 0 {
        put(out, "void")
    } else {
        put(out, "int")?;
        put_next_types(out, count - 1)
    }
}

fn put_next_types(out: &mut String, count: u32) -> Result<(), Memory>
    ensures { Appends result out.old out.new (next_types_text count) }
{
    for _ in 0..count {
        put(out, ", int")?;
    }
    Ok(())
}

fn put_procedure(alloc: Global, out: &mut String, definition: &Proc) -> Result<(), Memory>
    ensures { Appends result out.old out.new (text_of [] (item_lines (procedure definition.now))) }
{
    put_opening(out, definition)?;
    put_body(alloc, out, "", &definition.body)
}

fn put_opening(out: &mut String, definition: &Proc) -> Result<(), Memory>
    ensures { Appends result out.old out.new (text_of [] (opening_line definition.now ∷ [])) }
{
    put_head(
        out,
        definition.is_cilk,
        definition.returns,
        &definition.name,
    )?;
    put_parameters(out, &definition.parameters)?;
    put(out, ") {\n")
}

fn put_parameters(out: &mut String, parameters: &Parameters) -> Result<(), Memory>
    ensures { Appends result out.old out.new (parameters_text (parameters_of parameters.now)) }
{
    match parameters {
        Parameters::Ints(names) => put_names(out, names),
        Parameters::CommandLine(count, strings) => put_command_line(out, count, strings),
    }
}

// The parameters of the form of `main` that is told of the command line.
fn put_command_line(out: &mut String, count: &Word, strings: &Word) -> Result<(), Memory>
    ensures { Appends result out.old out.new (parameters_text (command_line count.now strings.now)) }
{
    put(out, "int ")?;
    put(out, count.as_str())?;
    put(out, ", char *")?;
    put(out, strings.as_str())?;
    put(out, "[]")
}
