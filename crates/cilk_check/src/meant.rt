//! What a use asks of the declaration that its name means.

ghost use Rattle.std.specs.Prelude.{◌≡◌};
ghost use Rattle.cilk_check_scopes.specs.First.{first_among};
ghost use Rattle.cilk_check_scopes.specs.NameFaults.{fits, arguments_of, parameters_of, returned_by, is_for_value};
ghost use Rattle.cilk_check.specs.NameFinds.{differ, is_void, is_spawned, is_called, is_inlet, meant_faults};

use cilk_check_scopes::{CheckFault, DeclarationKind, ReturnType, Role, Word, first_if};

fn fits(role: Role, kind: DeclarationKind) -> bool
    ensures { result ≡ fits role kind }
{
    match (role, kind) {
        (Role::Variable, DeclarationKind::Variable)
        | (Role::Array, DeclarationKind::Array(_))
        | (Role::Lock, DeclarationKind::Lock)
        | (Role::Called(_, _), DeclarationKind::Function(_, _))
        | (Role::Called(_, _), DeclarationKind::Inlet(_))
        | (Role::Spawned(_, _), DeclarationKind::Procedure(_, _))
        | (Role::Fed(_), DeclarationKind::Inlet(_)) => true,
        _ => false,
    }
}

fn arguments_of(role: Role) -> Option<usize>
    ensures { result ≡ arguments_of role }
{
    match role {
        Role::Called(arguments, _) | Role::Spawned(arguments, _) | Role::Fed(arguments) => {
            Some(arguments)
        }
        Role::Variable | Role::Array | Role::Lock => None,
    }
}

fn parameters_of(kind: DeclarationKind) -> Option<usize>
    ensures { result ≡ parameters_of kind }
{
    match kind {
        DeclarationKind::Function(_, parameters)
        | DeclarationKind::Procedure(_, parameters)
        | DeclarationKind::Inlet(parameters) => Some(parameters),
        DeclarationKind::Variable
        | DeclarationKind::Array(_)
        | DeclarationKind::Lock
        | DeclarationKind::Strings => None,
    }
}

fn returned_by(kind: DeclarationKind) -> Option<ReturnType>
    ensures { result ≡ returned_by kind }
{
    match kind {
        DeclarationKind::Function(returns, _) | DeclarationKind::Procedure(returns, _) => Some(
            returns,
        ),
        DeclarationKind::Variable
        | DeclarationKind::Array(_)
        | DeclarationKind::Lock
        | DeclarationKind::Strings
        | DeclarationKind::Inlet(_) => None,
    }
}

fn is_for_value(role: Role) -> bool
    ensures { result ≡ is_for_value role }
{
    match role {
        Role::Called(_, for_value) | Role::Spawned(_, for_value) => for_value,
        Role::Variable | Role::Array | Role::Lock | Role::Fed(_) => false,
    }
}

fn is_spawned(role: Role) -> bool
    ensures { result ≡ is_spawned role }
{
    match role {
        Role::Spawned(_, _) => true,
        Role::Variable | Role::Array | Role::Lock | Role::Called(_, _) | Role::Fed(_) => false,
    }
}

fn is_called(role: Role) -> bool
    ensures { result ≡ is_called role }
{
    match role {
        Role::Called(_, _) => true,
        Role::Variable | Role::Array | Role::Lock | Role::Spawned(_, _) | Role::Fed(_) => false,
    }
}

fn is_inlet(kind: DeclarationKind) -> bool
    ensures { result ≡ is_inlet kind }
{
    match kind {
        DeclarationKind::Inlet(_) => true,
        DeclarationKind::Variable
        | DeclarationKind::Array(_)
        | DeclarationKind::Lock
        | DeclarationKind::Strings
        | DeclarationKind::Function(_, _)
        | DeclarationKind::Procedure(_, _) => false,
    }
}

fn differ(given: Option<usize>, wanted: Option<usize>) -> bool
    ensures { result ≡ differ given wanted }
{
    match given {
        None => false,
        Some(given) => match wanted {
            None => false,
            Some(wanted) => given != wanted,
        },
    }
}

pub(crate) fn is_void(returns: Option<ReturnType>) -> bool
    ensures { result ≡ is_void returns }
{
    match returns {
        None => false,
        Some(returns) => match returns {
            ReturnType::Int => false,
            ReturnType::Void => true,
        },
    }
}

/// A name that is visible, and means a declaration of this kind.
#[tactic(auto, using(crate::proofs::UseFaults::uses), unfolding(crate::specs::NameFinds::meant_faults))]
pub(crate) fn at_meant(
    name: &Word,
    role: Role,
    kind: DeclarationKind,
    found: Option<CheckFault>,
) -> Option<CheckFault>
    ensures { result ≡ first_among found (meant_faults name.now role kind) }
{
    let at = name.at();
    let is_main = is_spawned(role) && name.as_str() == "main";
    let counts_differ = differ(arguments_of(role), parameters_of(kind));
    let lacks_value = is_for_value(role) && is_void(returned_by(kind));
    let needs_spawn = is_called(role) && is_inlet(kind);
    let found = first_if(found, !fits(role, kind), CheckFault::WrongKind(at));
    let found = first_if(found, is_main, CheckFault::WrongKind(at));
    let found = first_if(found, counts_differ, CheckFault::ArgumentCount(at));
    let found = first_if(found, lacks_value, CheckFault::VoidValue(at));
    first_if(found, needs_spawn, CheckFault::InletNeedsSpawn(at))
}
