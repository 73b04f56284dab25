//! Laws about the instances that frames stand for. The functions do nothing: their contracts are
//! what is proved.

ghost use Rattle.std.specs.Prelude.{◌≡◌, ◌<◌, ◌+◌, ◌&&◌, ◌∷◌, ℕ, ℤ, pos, Bool, not, false, List, Option, Some, length, map, nat_lt};
ghost use Rattle.cilk_load_nodes.specs.syntax.Tree.{Program};
ghost use Rattle.cilk_load_nodes.specs.labelled.Term.{Term, rename};
ghost use Rattle.cilk_load_nodes.specs.labelled.Value.{value_of};
ghost use Rattle.cilk_load_nodes.specs.Areas as slots;
ghost use Rattle.cilk_load_nodes.specs.Areas.{Cells, area_cells, slot_cell, sizes_of, SlotsLieWithin};
ghost use Rattle.cilk_load_nodes.specs.labelled.Labelled.{Declaration, Labelled};
ghost use Rattle.cilk_load_nodes.specs.labelled.Bodies.{label, is_procedure};
ghost use Rattle.cilk_load_nodes.specs.labelled.Items.{opened, next};
ghost use Rattle.cilk_load_nodes.specs.model.Values.{Values, Store, Reached, cell_of, environment};
ghost use Rattle.cilk_load_nodes.specs.model.Instance as model;
ghost use Rattle.cilk_load_nodes.specs.model.Instance.{Instance, Delivery, Receiver, body_at};
ghost use Rattle.cilk_load_nodes.specs.model.State.{is_empty};
ghost use Rattle.cilk_load_nodes.specs.model.Change.{gone_on, put, globals_with};
ghost use Rattle.cilk_load_nodes.specs.Slots.{size_of, flat, is_inlet, procedure_around, slot_of};
ghost use Rattle.cilk_load_nodes.specs.Table.{number_of};
ghost use Rattle.cilk_load_nodes.specs.Bodies.{body_of};
ghost use Rattle.cilk_frame.specs.declared.awaited.Await.{Await};
ghost use Rattle.cilk_frame.specs.Frames.{Frame, depth, top_of, jumped, with_boundary, entered, left};
ghost use Rattle.cilk_frame.specs.Begins.{Takes, first_activation, started};
ghost use Rattle.cilk_frame.specs.Cells.{IsInlet, HasCell, frame_put, globals_put};
ghost use Rattle.cilk_frame.specs.Reads.{IsKnown, Seen, lent, seen_by};
ghost use Rattle.cilk_frame.specs.Stands.{AwaitsSame, StandsFor, bodies_of, lowest_of};

/// A frame at its start stands for an instance at its start.
pub fn a_start_stands()
    ensures { (p : Program) (id b : ℕ) (arguments : List ℤ) → Takes (body_of p b) arguments → is_inlet (body_at (label p) b).owner ≡ false
        → StandsFor (label p) (started p id b arguments) (model.started (label p) b arguments) }
{}

/// An expression has the value over the slots of a frame that it has over the declarations of the
/// instance, and its slots lie in the cells that the frame lends; so do all cells that a body sees.
pub fn values_are_seen()
    ensures seen { (program : Labelled) (f : Frame) (i : Instance) (globals : Values) (synched : Bool)
        → StandsFor program f i → map length globals ≡ map size_of program.globals
        → Seen program i.top.body (lent f (flat globals) synched) (seen_by i globals synched) }
    ensures value { (program : Labelled) (b : ℕ) (cells : Cells) (store : Store) (t : Term Declaration)
        → Seen program b cells store → IsKnown program b t
        → value_of (slots.environment cells) (rename (slot_of program b) t) ≡ value_of (environment store) t }
    ensures within { (program : Labelled) (b : ℕ) (cells : Cells) (store : Store) (t : Term Declaration)
        → Seen program b cells store → IsKnown program b t
        → SlotsLieWithin (sizes_of cells) (rename (slot_of program b) t) }
    ensures cell { (program : Labelled) (b : ℕ) (cells : Cells) (store : Store) → Seen program b cells store
        → (d : Declaration) (k : ℕ) → HasCell program b d k → slot_cell cells (slot_of program b d) k ≡ cell_of store d k }
    ensures there { (program : Labelled) (b : ℕ) (cells : Cells) (store : Store) → Seen program b cells store
        → (d : Declaration) (k : ℕ) → HasCell program b d k
        → (slot_of program b d).offset + k < length (area_cells cells (slot_of program b d).area) }
{}

/// A write to a cell that the top activation sees stands for a write to the variable, and so does
/// one among the cells of the top level. Deliveries, children, the mark of an abort and the receiver
/// are not kept in the frame.
pub fn a_write_stands()
    ensures written { (program : Labelled) (f : Frame) (i : Instance) (d : Declaration) (k : ℕ) (z : ℤ)
        → StandsFor program f i → HasCell program i.top.body d k
        → StandsFor program (frame_put (slot_of program i.top.body d) k z f) (put (record { place = d; index = k }) z i) }
    ensures globals { (program : Labelled) (b : ℕ) (globals : Values) (d : Declaration) (k : ℕ) (z : ℤ)
        → HasCell program b d k → map length globals ≡ map size_of program.globals
        → globals_put (slot_of program b d) k z (flat globals) ≡ flat (globals_with d k z globals) }
    ensures sizes { (globals : Values) (d : Declaration) (k : ℕ) (z : ℤ) → map length (globals_with d k z globals) ≡ map length globals }
    ensures others { (program : Labelled) (f : Frame) (i : Instance) (waiting : List Delivery) (children : ℕ) (aborted : Bool) (receiver : Option Receiver)
        → StandsFor program f i
        → StandsFor program f (record i { waiting = waiting; children = children; aborted = aborted; receiver = receiver }) }
{}

/// After an action that goes on, the frame stands for the instance past its head: a jump to the
/// next head, and the flag cleared where the procedure's own activation acted. An assignment writes
/// besides.
pub fn an_action_stands()
    ensures goes_on { (program : Labelled) (f : Frame) (i : Instance) (answer : ℤ) (n : ℕ)
        → StandsFor program f i → number_of (opened (next answer i.top.items)) ≡ Some n
        → StandsFor program (with_boundary (f.boundary && nat_lt 1 (depth f)) (jumped n f)) (gone_on answer i) }
    ensures assigns { (program : Labelled) (f : Frame) (i : Instance) (d : Declaration) (k : ℕ) (z : ℤ) (next_number : ℕ)
        → StandsFor program f i → HasCell program i.top.body d k
        → number_of (opened (next (pos 1) i.top.items)) ≡ Some next_number
        → StandsFor program (frame_put (slot_of program i.top.body d) k z (with_boundary (f.boundary && nat_lt 1 (depth f)) (jumped next_number f)))
        (put (record { place = d; index = k }) z (gone_on (pos 1) i)) }
    ensures alone { (program : Labelled) (f : Frame) (i : Instance)
        → StandsFor program f i → nat_lt 1 (depth f) ≡ not (is_empty i.below) }
    ensures flag { (program : Labelled) (f : Frame) (i : Instance) (b : Bool)
        → StandsFor program f i → StandsFor program (with_boundary b f) (record i { spawned = b }) }
{}

/// A body that is entered stands for an activation above the others, and what awaits its value is
/// told when it is left.
pub fn a_call_stands()
    ensures enters { (p : Program) (f : Frame) (i : Instance) (b : ℕ) (arguments : List ℤ) (awaits : Option Await) (reached : Option Reached)
        → StandsFor (label p) f i → Takes (body_of p b) arguments → AwaitsSame (label p) awaits reached (bodies_of (i.top ∷ i.below))
        → is_procedure (body_at (label p) b).owner ≡ false
        → (IsInlet (label p) b → lowest_of i.top.body (bodies_of i.below) ≡ procedure_around (label p) b)
        → StandsFor (label p) (entered (first_activation p b arguments awaits) f)
        (record i { top = model.entered (label p) b arguments reached; below = i.top ∷ i.below }) }
    ensures leaves { (program : Labelled) (f : Frame) (i : Instance) (top : model.Activation) (below : List model.Activation)
        → StandsFor program f i → i.below ≡ top ∷ below
        → StandsFor program (left f) (record i { top = top; below = below }) }
    ensures awaits { (program : Labelled) (f : Frame) (i : Instance)
        → StandsFor program f i → AwaitsSame program (top_of f).awaits i.top.awaits (bodies_of i.below) }
{}
