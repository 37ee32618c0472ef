//! Laws of select paths over values as lists of members and elements. Each function carries one law as its contract and does
//! nothing.

ghost use Rattle.sv_types.specs.Laws.{WholeIsRead, MemberIsRead, ElementIsRead, OutsideIsUnknown, MemberIsWritten, ElementIsWritten, OthersAreKept};

/// A whole signal or local reads what it holds.
pub fn whole_is_read()
    ensures { WholeIsRead }
{}

/// A step to a member reads that component of the struct's value.
pub fn member_is_read()
    ensures { MemberIsRead }
{}

/// A step by an index between the bounds reads that element of the array's value.
pub fn element_is_read()
    ensures { ElementIsRead }
{}

/// A step by an index out of range, or with x or z, reads x in each bit.
pub fn outside_is_unknown()
    ensures { OutsideIsUnknown }
{}

/// A write through a step to a member changes that component of the struct's value, and no other.
pub fn member_is_written()
    ensures { MemberIsWritten }
{}

/// A write through a step by an index between the bounds changes that element of the array's value, and no other.
pub fn element_is_written()
    ensures { ElementIsWritten }
{}

/// A write changes no other signal or local, and where an index is out of range or unknown it changes nothing.
pub fn others_are_kept()
    ensures { OthersAreKept }
{}
