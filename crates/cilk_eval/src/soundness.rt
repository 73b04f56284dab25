//! What holds of the bodies of well-formed programs. The functions do nothing: their contracts are the laws.

ghost use Rattle.std.specs.Prelude.{◌≡◌, ◌<◌, ◌∷◌, [], ℕ, ℤ, false, List, length, IsSome, IsNone, Some, Ok};
ghost use Rattle.cilk_eval.specs.syntax.Tree.{Program};
ghost use Rattle.cilk_eval.specs.scopes.WellFormed.{WellFormed};
ghost use Rattle.cilk_eval.specs.labelled.Labelled.{Numbered, Labelled, Into, Body};
ghost use Rattle.cilk_eval.specs.labelled.Items.{head_of, reached};
ghost use Rattle.cilk_eval.specs.labelled.Bodies.{label};
ghost use Rattle.cilk_eval.specs.effects.Heads.{in_nothing, EachOf, LeavesInLoops, GoesOn};
ghost use Rattle.cilk_eval.specs.model.Instance.{body_at, Instance};
ghost use Rattle.cilk_eval.specs.scopes.Cells.{max_cells, max_global_cells};
ghost use Rattle.cilk_eval.specs.nodes.Areas.{Cells};
ghost use Rattle.cilk_eval.specs.model.Values.{Store, Reached, environment, reached_at};
ghost use Rattle.cilk_eval.specs.frame.Cells.{HasCell};
ghost use Rattle.cilk_eval.specs.frame.Reads.{Seen};
ghost use Rattle.cilk_eval.specs.nodes.Bodies.{body_of};
ghost use Rattle.cilk_eval.specs.nodes.Slots.{procedure_around};
ghost use Rattle.cilk_eval.specs.frame.Frames.{Frame, top_of};
ghost use Rattle.cilk_eval.specs.frame.Stands.{StandsFor};
ghost use Rattle.cilk_eval.specs.frame.Begins.{Takes};
ghost use Rattle.cilk_eval.specs.effects.Before.{Before};
ghost use Rattle.cilk_eval.specs.effects.Known.{StandsIn, KnownAct, KnownTarget};
ghost use Rattle.cilk_eval.specs.effects.Room.{HasRoom, ParametersFirst, StartsWith};

/// What each action in a body uses is there, and so it is with the head of each list that is reached in it.
pub fn actions_are_known()
    ensures actions { (p : Program) (b : ℕ) → WellFormed p → b < length (label p).bodies
        → EachOf (λ i act. KnownAct (label p) b act) in_nothing (body_at (label p) b).stmts }
    ensures heads { (p : Program) (b : ℕ) (answers : List ℤ) (head : Numbered) → WellFormed p → b < length (label p).bodies
        → head_of (reached (body_at (label p) b) answers) ≡ Some head → KnownAct (label p) b head.act }
{}

/// An instance that a frame stands for has an action before it, for which the frame's node stands, and what it uses is
/// there. A body takes as many arguments as it has parameters. The body of an inlet stands in its procedure.
pub fn frames_have_actions()
    ensures before { (p : Program) (f : Frame) (i : Instance) → WellFormed p → StandsFor (label p) f i → Before p (top_of f).node i }
    ensures takes { (p : Program) (b : ℕ) (arguments : List ℤ) → b < length (label p).bodies
        → (body_at (label p) b).parameters ≡ length arguments → Takes (body_of p b) arguments }
    ensures around { (program : Labelled) (b h : ℕ) → StandsIn program b h → procedure_around program b ≡ h }
{}

/// The cell that a place reaches, to which a value is to be written, is one that the body sees.
pub fn reached_cells_are_there()
    ensures { (program : Labelled) (b : ℕ) (cells : Cells) (store : Store) (place : Into) (reached : Reached) → Seen program b cells store
        → KnownTarget program b place.target → reached_at (environment store) place ≡ Ok reached
        → HasCell program b reached.cell.place reached.cell.index }
{}

/// Each body begins with an action, and another one comes behind each that does not leave the body; `break` and
/// `continue` stand in loops. Nothing remains where no action is next.
pub fn bodies_go_on()
    ensures leaves { (p : Program) (b : ℕ) → WellFormed p → b < length (label p).bodies → LeavesInLoops (body_at (label p) b) }
    ensures begins { (p : Program) (b : ℕ) → WellFormed p → b < length (label p).bodies → IsSome (head_of (reached (body_at (label p) b) [])) }
    ensures follows { (p : Program) (b : ℕ) (answers : List ℤ) (answer : ℤ) (head : Numbered) → WellFormed p → b < length (label p).bodies
        → head_of (reached (body_at (label p) b) answers) ≡ Some head → GoesOn head.act
        → IsSome (head_of (reached (body_at (label p) b) (answer ∷ answers))) }
    ensures empties { (p : Program) (b : ℕ) (answers : List ℤ) → WellFormed p → b < length (label p).bodies
        → IsNone (head_of (reached (body_at (label p) b) answers)) → reached (body_at (label p) b) answers ≡ [] }
{}

/// The variables of a body have 4,096 cells at most, those of the top level 1,048,576, and no array has more than 65,536
/// elements. A body's parameters come first among its variables. The program has a `cilk int main` to start with.
pub fn bodies_have_room()
    ensures variables { (p : Program) (b : ℕ) → WellFormed p → b < length (label p).bodies → HasRoom max_cells (body_at (label p) b).variables }
    ensures parameters { (p : Program) (b : ℕ) → WellFormed p → b < length (label p).bodies → ParametersFirst (body_at (label p) b) }
    ensures globals { (p : Program) → WellFormed p → HasRoom max_global_cells (label p).globals }
    ensures main { (p : Program) → WellFormed p → (b : ℕ) × StartsWith (label p) b }
{}

/// In a body whose `break` and `continue` stand in loops, the list at its start has a head; behind each head that does
/// not leave the body another one comes, whatever a test answers; and a list without a head is empty.
pub fn heads_are_there()
    ensures starts { (body : Body) → LeavesInLoops body → IsSome (head_of (reached body [])) }
    ensures goes_on { (body : Body) (answers : List ℤ) (answer : ℤ) (head : Numbered) → LeavesInLoops body
        → head_of (reached body answers) ≡ Some head → GoesOn head.act → IsSome (head_of (reached body (answer ∷ answers))) }
    ensures ends { (body : Body) (answers : List ℤ) → LeavesInLoops body → IsNone (head_of (reached body answers)) → reached body answers ≡ [] }
{}
