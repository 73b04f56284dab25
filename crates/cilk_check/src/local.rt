//! The first fault in the form of a declaration itself, without the body of an inlet.

ghost use Rattle.std.specs.Prelude.{◌≡◌, ◌++◌, not, map};
ghost use Rattle.std.specs.Int.{is_in_range};
ghost use Rattle.cilk_check_scopes.specs.syntax.Tree as tree;
ghost use Rattle.cilk_check_scopes.specs.syntax.MoveView.{shape_of};
ghost use Rattle.cilk_check_scopes.specs.declared.fault.CheckFault.TheVariants.{Limit, NotInProcedure};
ghost use Rattle.cilk_check_scopes.specs.First.{first_among, fault_if};
ghost use Rattle.cilk_check_scopes.specs.Scopes.{parameter, kind_of_shape};
ghost use Rattle.cilk_check_scopes.specs.Parts.{local_exprs};
ghost use Rattle.cilk_check_scopes.specs.Declarations.{block_variables};
ghost use Rattle.cilk_check_scopes.specs.Cells.{is_length, max_cells};
ghost use Rattle.cilk_check_scopes.specs.Forms.{is_procedure};
ghost use Rattle.cilk_check.specs.FormFinds.{exprs_faults, kind_faults, passing};

use crate::cells::{behind_block, behind_names};
use crate::children::in_value;
use crate::space::Room;
use cilk_check_scopes::{CheckFault, Decl, Inlet, Owner, Shape, Within, first_if};

pub(crate) const MAX_CELLS: u32 = 4096;

pub(crate) fn is_length(length: u32) -> bool
    ensures { result ≡ is_length length }
{
    (1..=65_536).contains(&length)
}

fn is_procedure(owner: Owner) -> bool
    ensures { result ≡ is_procedure owner }
{
    match owner {
        Owner::Procedure(_) => true,
        Owner::Function(_) | Owner::Inlet => false,
    }
}

#[tactic(auto, using(crate::proofs::Words::words))]
pub(crate) fn at_decl(owner: Owner, decl: &Decl, found: Option<CheckFault>) -> Option<CheckFault>
    ensures { result ≡ first_among found (kind_faults decl.now.name.place (kind_of_shape decl.now.shape)
        ++ exprs_faults owner (local_exprs (tree.declared decl.now))) }
{
    match &decl.shape {
        Shape::Variable(value) => in_value(owner, value, found),
        Shape::Array(length) => first_if(
            found,
            !is_length(*length),
            CheckFault::Limit(decl.name.at()),
        ),
    }
}

#[tactic(auto, using(crate::proofs::Walks::walks))]
pub(crate) fn at_inlet(
    within: Within,
    inlet: &Inlet,
    found: Option<CheckFault>,
) -> Option<CheckFault>
    ensures { result ≡ first_among found (fault_if (not (is_procedure within.owner)) (NotInProcedure inlet.now.at)
        ++ (fault_if (not within.outermost) (NotInProcedure inlet.now.at)
        ++ passing max_cells (map parameter inlet.now.parameters.items ++ block_variables inlet.now.body))) }
{
    let at = inlet.at;
    let found = first_if(
        found,
        !is_procedure(within.owner),
        CheckFault::NotInProcedure(at),
    );
    let found = first_if(found, !within.outermost, CheckFault::NotInProcedure(at));
    let room = Room {
        left: Some(MAX_CELLS),
        found,
    };
    let room = behind_names(&inlet.parameters, room);
    behind_block(&inlet.body, room).found
}
