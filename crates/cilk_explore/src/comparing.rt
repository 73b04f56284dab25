//! Whether a standing was found before.

ghost use Rattle.std.specs.Prelude.{◌≡◌, ◌<◌, true, length, Ok, IfOk, IfSome, OnOk};
ghost use Rattle.cilk_explore.specs.Looking.{LeadsToSame, StandsAtLog};

use crate::probe::Probe;
use crate::store::Store;
use crate::walker::Walker;
use cilk_machine::{Choice, Memory};

/// The number of a log that leads to the same as where the walker stands, but for the names of the workers, if one was found. Those of its digest are
/// compared, by the probe, which is behind that log then.
pub(crate) fn known(
    digest: u64,
    walker: &Walker,
    probe: &mut Probe,
    store: &Store,
    tail: &mut Vec<Choice>,
) -> Result<Option<usize>, Memory>
    requires program { probe.old.walker.program ≡ walker.now.program }
    requires workers { probe.old.walker.workers ≡ walker.now.workers }
    requires stands { StandsAtLog store.now probe.old.number probe.old.walker }
    ensures same { IfOk result (λ found. IfSome found (LeadsToSame walker.now store.now)) }
    ensures here { IfOk result (λ found. IfSome found (λ number. probe.new.number ≡ number)) }
    ensures stands { OnOk result (StandsAtLog store.now probe.new.number probe.new.walker) }
    ensures program { probe.new.walker.program ≡ probe.old.walker.program }
    ensures workers { probe.new.walker.workers ≡ probe.old.walker.workers }
{
    let mut at = store.last_of(digest);
    while let Some(number) = at {
        match leads_to_same(number, walker, probe, store, tail) {
            Err(memory) => return Err(memory),
            Ok(true) => return Ok(Some(number)),
            Ok(false) => {}
        }
        at = store.before(number);
    }
    Ok(None)
}

// Whether the log of this number does. The probe goes there.
fn leads_to_same(
    number: usize,
    walker: &Walker,
    probe: &mut Probe,
    store: &Store,
    tail: &mut Vec<Choice>,
) -> Result<bool, Memory>
    requires there { number < length store.now }
    requires program { probe.old.walker.program ≡ walker.now.program }
    requires workers { probe.old.walker.workers ≡ walker.now.workers }
    requires stands { StandsAtLog store.now probe.old.number probe.old.walker }
    ensures same { result ≡ Ok true → LeadsToSame walker.now store.now number }
    ensures here { OnOk result (probe.new.number ≡ number) }
    ensures stands { OnOk result (StandsAtLog store.now probe.new.number probe.new.walker) }
    ensures program { probe.new.walker.program ≡ probe.old.walker.program }
    ensures workers { probe.new.walker.workers ≡ probe.old.walker.workers }
{
    match go_to(&mut probe.walker, probe.number, number, store, tail) {
        Err(memory) => Err(memory),
        Ok(()) => {
            probe.number = number;
            Ok(probe.walker.is_same_but_names(walker))
        }
    }
}

/// Goes from the log of one number to that of another. Where memory has run out, it stands somewhere on the way.
pub(crate) fn go_to(
    walker: &mut Walker,
    from: usize,
    to: usize,
    store: &Store,
    tail: &mut Vec<Choice>,
) -> Result<(), Memory>
    requires to { to < length store.now }
    requires from { StandsAtLog store.now from walker.old }
    ensures there { OnOk result (StandsAtLog store.now to walker.new) }
    ensures program { walker.new.program ≡ walker.old.program }
    ensures workers { walker.new.workers ≡ walker.old.workers }
{
    match store.way(from, to, tail) {
        Err(memory) => Err(memory),
        Ok(back) => walker.go_by(back, tail.as_slice()),
    }
}
