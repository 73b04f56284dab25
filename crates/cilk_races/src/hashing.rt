//! The hash of the cell of an access, by which those of one cell stand in one bucket.

ghost use Rattle.std.specs.Prelude.{◌≡◌};
ghost use Rattle.cilk_races.specs.Links.{hash_of};
ghost use Rattle.cilk_races.specs.PairWords.{touch_of};

use crate::mixed::mixed;
use crate::rows::Rows;
use crate::touch::Touch;
use cilk_log_replay::Spot;

/// The hash of the cell of an access. It is the path of an instance that enters, since two rows may have one path.
pub fn hash_of(rows: &Rows, touch: &Touch) -> usize
    ensures { result ≡ hash_of (touch_of rows.now touch.now).access.at }
{
    match touch.access.at {
        Spot::Global { variable, index } => mixed(mixed(variable, GLOBAL), index as usize),
        Spot::Own { variable, index } => {
            mixed(mixed(rows.hash(touch.own), variable), index as usize)
        }
        Spot::Output => OUTPUT,
        Spot::Synched => mixed(rows.hash(touch.own), SYNCHED),
    }
}

// No path has so large a number, so cells of different kinds seldom share a bucket.
const GLOBAL: usize = 0x1_0000_0000;

const OUTPUT: usize = 0x1_0000_0001;

const SYNCHED: usize = 0x1_0000_0002;
