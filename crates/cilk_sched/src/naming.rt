//! How a trap is told: by its kind, and by the path of its instance.

ghost use Rattle.std.specs.Prelude.{◌≡◌};
ghost use Rattle.cilk_frame.specs.syntax.Appends.{Appends};
ghost use Rattle.cilk_frame.specs.model.End.{kind_text, trap_text};
ghost use Rattle.cilk_frame.specs.Kinds.{kind_of};
ghost use Rattle.cilk_sched.specs.Words.{trapped_text};

use cilk_frame::{Memory, Path, Trap, TrapKind};

/// That the instance was trapped at action n, which stands on that line.
pub fn put_trapped(
    out: &mut String,
    kind: TrapKind,
    path: &Path,
    n: u32,
    line: u32,
) -> Result<(), Memory>
    ensures { Appends result out.old out.new (trapped_text (kind_of kind) path.now n line) }
{
    let kind = kind_name(kind);
    write!(out, "trapped {kind} in ")?;
    Path::put_text(out, path.as_slice())?;
    write!(out, " at {n}, line {line}")?;
    Ok(())
}

fn kind_name(kind: TrapKind) -> &'static str
    ensures { result.now ≡ kind_text (kind_of kind) }
{
    match kind {
        TrapKind::Value(trap) => trap_name(trap),
        TrapKind::Lock => "Lock",
        TrapKind::HeldLock => "HeldLock",
        TrapKind::Depth => "Depth",
        TrapKind::Instances => "Instances",
        TrapKind::Output => "Output",
    }
}

fn trap_name(trap: Trap) -> &'static str
    ensures { result.now ≡ trap_text trap }
{
    match trap {
        Trap::Overflow => "Overflow",
        Trap::ZeroDivide => "ZeroDivide",
        Trap::Shift => "Shift",
        Trap::Index => "Index",
    }
}
