//! Laws of the definitions.

ghost use Rattle.v_instances.specs.Instances.{PartsOfInstances};

/// The parts of a design are those of its instances, one behind the other.
pub fn parts_of_instances()
    ensures { PartsOfInstances }
{}
