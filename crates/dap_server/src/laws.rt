//! What the definitions of this crate promise, each as the contract of a function that does nothing.
ghost use Rattle.dap_server.specs.Laws.{AcceptedIsServed, OneLineIsItself, OneResult};
ghost use Rattle.dap_server.specs.Worked.{AnyVersion, Call, Escaped, Forms, NoKind, NoSuchFile};

/// What the definitions say of some targets.
pub fn worked_targets()
    ensures call { Call }
    ensures escaped { Escaped }
    ensures forms { Forms }
    ensures no_such_file { NoSuchFile }
    ensures no_kind { NoKind }
    ensures any_version { AnyVersion }
{}

/// What is asked of some files has one answer at most.
pub fn one_result()
    ensures law { OneResult }
{}

/// What a constraint without a cause leaves of a stored dataset is the result of its target.
pub fn accepted_is_served()
    ensures law { AcceptedIsServed }
{}

/// A list of one line has what the file of its line has.
pub fn one_line_is_itself()
    ensures law { OneLineIsItself }
{}
