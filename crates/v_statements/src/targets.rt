//! What is assigned to (IEEE 1364-2005 clauses 6.1 and 9.2).

ghost use Rattle.std.specs.Prelude.{◌≡◌};
ghost use Rattle.v_meaning.specs.Statements.{target, name_target, joined_target};
ghost use Rattle.v_statements.specs.Trees.{sel_meanings, targets};

use sv_source::Text;
use v_tree::{VLval, VLvals, VSels};

/// A name with at most two selects, the first one outermost.
pub fn named(name: Text, sels: VSels) -> VLval
    ensures { target result ≡ name_target name (sel_meanings sels) }
{
    VLval::Name { name, sels }
}

/// `{parts}`, at least one part, the first most significant.
pub fn joined(parts: VLvals) -> VLval
    ensures { target result ≡ joined_target (targets parts) }
{
    VLval::Concat(parts)
}
