//! What the definitions promise. These functions do nothing: their clauses are laws.
ghost use Rattle.soak.specs.Laws.{BytesAreCounted, ElementsAreCounted, ElementsAreThese, HeaderIsRead, IsRead, BodyIsServed};

/// The generated file is a netCDF classic file.
pub fn header_is_read()
    ensures law { HeaderIsRead }
{}

/// What is asked of it is served.
pub fn is_served()
    ensures law { BodyIsServed }
{}

/// How many elements are asked for.
pub fn elements_are_counted()
    ensures all { ElementsAreCounted }
    ensures these { ElementsAreThese }
{}

/// How many bytes are served.
pub fn bytes_are_counted()
    ensures all { BytesAreCounted }
{}

/// What is served is read as what was left.
pub fn is_read()
    ensures law { IsRead }
{}
