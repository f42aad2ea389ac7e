//! Numbering by place, by path and by counting are one.
ghost use Rattle.dap_model.specs.Numbering.{MembersAreCounted, NamedHaveNumbers, NumbersAreOfNamed, PathsHaveNumbers, PathsNameMembers};

/// The n-th path ends with the name of the n-th member.
pub fn paths_name_members()
    ensures law { PathsNameMembers }
{}

/// There are as many members as counting gives.
pub fn members_are_counted()
    ensures law { MembersAreCounted }
{}

/// The number of a path is that of a member that the path names, name by name from the top down.
pub fn numbers_are_of_named()
    ensures law { NumbersAreOfNamed }
{}

/// In a well-formed dataset a path names no other member than that of its number.
pub fn named_have_numbers()
    ensures law { NamedHaveNumbers }
{}

/// In a well-formed dataset the path of each member has its number.
pub fn paths_have_numbers()
    ensures law { PathsHaveNumbers }
{}
