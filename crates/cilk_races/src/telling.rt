//! How the races of a run are told: each with both accesses and a schedule that takes them in the other order, and at last their numbers.

ghost use Rattle.std.specs.Prelude.{◌≡◌, List, flat_map, length, option_map};
ghost use Rattle.std.specs.List.{All};
ghost use Rattle.cilk_log_replay.specs.machine.labelled.Bodies.{label};
ghost use Rattle.cilk_log_replay.specs.machine.model.Path.{path_text};
ghost use Rattle.cilk_log_replay.specs.machine.syntax.Appends.{Appends};
ghost use Rattle.cilk_races.specs.Kept.{path_in};
ghost use Rattle.cilk_races.specs.Line.{Line};
ghost use Rattle.cilk_races.specs.Paired.{Within, pair_of};
ghost use Rattle.cilk_races.specs.Races.{count_of};
ghost use Rattle.cilk_races.specs.PairWords.{relation_named, touch_of};
ghost use Rattle.cilk_races.specs.Found.{told_in};
ghost use Rattle.cilk_races.specs.Met.{AreWithin, meeting_in, meetings_in};
ghost use Rattle.cilk_races.specs.RacesText.{both_lines, child_text, count_line, counted, meeting_text, other_counts, touch_line, variable_name};

use crate::meeting::Meeting;
use crate::naming::{own_name, top_name};
use crate::pairing::{Pair, count_of};
use crate::put_reversal::put_reversal;
use crate::races::Races;
use crate::relation::Relation;
use crate::rows::Rows;
use crate::touch::Touch;
use cilk_log_replay::{Loaded, Memory, Spot};

/// Writes the meetings of a run that are races or orders.
pub(crate) fn put_meetings(
    out: &mut String,
    races: &Races,
    meetings: &[Meeting],
) -> Result<(), Memory>
    requires { All (AreWithin (length races.now.touches.items)) meetings.now }
    ensures { Appends result out.old out.new (flat_map (meeting_text (label races.now.machine.program))
        (meetings_in races.now.rows races.now.touches.items meetings.now)) }
{
    for meeting in meetings {
        put_meeting(out, races, meeting)?;
    }
    Ok(())
}

fn put_meeting(out: &mut String, races: &Races, meeting: &Meeting) -> Result<(), Memory>
    requires { AreWithin (length races.now.touches.items) meeting.now }
    ensures { Appends result out.old out.new (meeting_text (label races.now.machine.program)
        (meeting_in races.now.rows races.now.touches.items meeting.now)) }
{
    match meeting.pair.relation {
        Relation::Race => {
            out.push_str("race on ")?;
            put_both(out, races, meeting.pair)?;
            put_reversal(out, &meeting.reversal)
        }
        Relation::Order => {
            out.push_str("order on ")?;
            put_both(out, races, meeting.pair)
        }
        Relation::Inlets | Relation::Ordered => Ok(()),
    }
}

fn put_both(out: &mut String, races: &Races, pair: Pair) -> Result<(), Memory>
    requires { Within (length races.now.touches.items) pair }
    ensures { Appends result out.old out.new
        (both_lines (label races.now.machine.program) (pair_of races.now.rows races.now.touches.items pair)) }
{
    let first = &races.touches[pair.first];
    let second = &races.touches[pair.second];
    put_variable(out, races, first)?;
    out.push_str("\n")?;
    put_touch(out, races, first)?;
    put_touch(out, races, second)
}

fn put_variable(out: &mut String, races: &Races, touch: &Touch) -> Result<(), Memory>
    ensures { Appends result out.old out.new (variable_name (label races.now.machine.program) touch.now.procedure
        (touch_of races.now.rows touch.now).access.at) }
{
    out.push_str(variable_of(races.machine.loaded(), touch))?;
    Ok(())
}

/// The name of the variable of an access.
pub(crate) fn variable_of<'a>(loaded: &'a Loaded, touch: &Touch) -> &'a str
    ensures { (rows : List Line) → result.now ≡ variable_name (label loaded.now) touch.now.procedure (touch_of rows touch.now).access.at }
{
    match touch.access.at {
        Spot::Output => "output",
        Spot::Synched => "SYNCHED",
        Spot::Global { variable, .. } => top_name(loaded, variable),
        Spot::Own { variable, .. } => own_name(loaded, touch.procedure, variable),
    }
}

fn put_touch(out: &mut String, races: &Races, touch: &Touch) -> Result<(), Memory>
    ensures { Appends result out.old out.new (touch_line (label races.now.machine.program) (touch_of races.now.rows touch.now)) }
{
    let rows = &races.rows;
    let line = races.machine.loaded().line_of(touch.n).unwrap_or(0);
    let doing = if touch.access.writes {
        " writes at "
    } else {
        " reads at "
    };
    let n = touch.n;
    let choice = touch.choice;
    out.push_str("    ")?;
    put_path(out, rows, touch.placed.place)?;
    write!(out, "{doing}{n}, line {line}, choice {choice}")?;
    put_child(out, rows, touch.placed.taking)?;
    out.push_str("\n")?;
    Ok(())
}

// The child whose value is taken.
fn put_child(out: &mut String, rows: &Rows, taking: Option<usize>) -> Result<(), Memory>
    ensures { Appends result out.old out.new (child_text (option_map (path_in rows.now) taking)) }
{
    match taking {
        None => Ok(()),
        Some(child) => {
            out.push_str(", for ")?;
            put_path(out, rows, child)
        }
    }
}

// The path of an instance: `/` for the root, and `/3/1` for the first child of the root's third.
fn put_path(out: &mut String, rows: &Rows, place: usize) -> Result<(), Memory>
    ensures { Appends result out.old out.new (path_text (path_in rows.now place)) }
{
    let numbers = rows.path_of(place)?;
    put_numbers(out, numbers.as_slice())
}

fn put_numbers(out: &mut String, numbers: &[u64]) -> Result<(), Memory>
    ensures { Appends result out.old out.new (path_text numbers.now) }
{
    if numbers.is_empty() {
        out.push_str("/")?;
        return Ok(());
    }
    for number in numbers {
        write!(out, "/{number}")?;
    }
    Ok(())
}

/// Writes how many entries of a run are of each kind.
pub(crate) fn put_counts(out: &mut String, races: &Races) -> Result<(), Memory>
    ensures { Appends result out.old out.new (count_line (told_in races.now)) }
{
    put_count(out, races, Relation::Race, " race, ", " races, ")?;
    put_others(out, races)
}

// Those of orders and inlets.
fn put_others(out: &mut String, races: &Races) -> Result<(), Memory>
    ensures { Appends result out.old out.new (other_counts (told_in races.now)) }
{
    put_count(out, races, Relation::Order, " order, ", " orders, ")?;
    put_count(
        out,
        races,
        Relation::Inlets,
        " pair of inlets\n",
        " pairs of inlets\n",
    )
}

#[tactic(auto, unfolding(crate::specs::RacesText::counted))]
fn put_count(
    out: &mut String,
    races: &Races,
    relation: Relation,
    one: &str,
    many: &str,
) -> Result<(), Memory>
    ensures { Appends result out.old out.new (counted (count_of (relation_named relation) (told_in races.now)) one.now many.now) }
{
    let count = count_among(races, relation);
    let word = if count == 1 { one } else { many };
    write!(out, "{count}{word}")?;
    Ok(())
}

/// How many entries of a run are of this kind.
pub(crate) fn count_among(races: &Races, relation: Relation) -> usize
    ensures { result ≡ count_of (relation_named relation) (told_in races.now) }
{
    count_of(
        &races.rows,
        races.touches.as_slice(),
        relation,
        races.entries.as_slice(),
    )
}
