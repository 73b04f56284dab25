//! Laws about machines. The functions do nothing: their contracts are what is proved.

ghost use Rattle.cilk_machine_agree.specs.explore.AlikeLaws.{SamePartsStandAtTheSame, SamePartsButNamesStandSo};

/// Two machines of one program whose cells, locks, output, outcome, live instances, hands and deques are the same stand at standings that are the
/// same. Ids and those that have ended do not matter.
pub fn machines_of_the_same_parts_stand_at_the_same()
    ensures { SamePartsStandAtTheSame }
{}

/// Two machines of one program that are alike in all this, but that the workers of the one have, in another order, what those of the other have, stand at
/// standings that are the same but for the names of the workers.
pub fn machines_alike_but_for_names_stand_so()
    ensures { SamePartsButNamesStandSo }
{}
