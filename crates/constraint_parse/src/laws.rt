//! Laws of the language, apart from any run of the parser.

ghost use Rattle.std.specs.Prelude.{◌≡◌, ◌⊎◌, ℕ, List, IsTrue};
ghost use Rattle.std.specs.List.{list_all};
ghost use Rattle.viable.specs.Prefix.{is_byte, IsFault};
ghost use Rattle.constraint_parse.specs.Values.{Spells};
ghost use Rattle.constraint_parse.specs.declared.constraint.Constraint.{Constraint};

/// A text spells at most one constraint.
pub fn one_constraint()
    ensures { (text : List ℕ) (one other : Constraint) → Spells text one → Spells text other → one ≡ other }
{}

/// A text of bytes has at most one fault.
pub fn one_fault()
    ensures { (text : List ℕ) (one other : ℕ) → IsTrue (list_all is_byte text) → IsFault is_byte Spells text one → IsFault is_byte Spells text other → one ≡ other }
{}

/// A text spells a constraint or has a fault, at some place of it or at its end.
pub fn spelled_or_at_fault()
    ensures { (text : List ℕ) → ((constraint : Constraint) × Spells text constraint) ⊎ ((place : ℕ) × IsFault is_byte Spells text place) }
{}
