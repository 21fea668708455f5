//! Laws of the grammar, proved and without code.

ghost use Rattle.hs_syntax.specs.Laws.{ElseIsNearest, FirstTokensAreFirst, GroupsLeft, SpecifiersGoOn, TypesBeginParameters};

/// A law on the grammar: binary operators that bind tighter are applied first, and those of a precedence group to the left
/// (X3.159-1989 3.3).
pub fn binary_operators_group_to_the_left()
    ensures { GroupsLeft }
{}

/// A law on the grammar: an `else` belongs to the nearest open `if` (3.6.4.1).
pub fn else_belongs_to_the_nearest_if()
    ensures { ElseIsNearest }
{}

/// A law on the grammar: in a parameter or a type name, a typedef name or a word that means nothing begins a parameter list if it
/// directly follows a `(` (3.5.4.3).
pub fn typedef_names_begin_parameter_lists()
    ensures { TypesBeginParameters }
{}

/// A law on the grammar: the specifiers of a declaration take all that can be one (3.5).
pub fn specifiers_take_what_they_can()
    ensures { SpecifiersGoOn }
{}

/// A law on the grammar: an expression, a statement and specifiers begin with the token whose place is that of their first.
pub fn first_tokens_are_first()
    ensures { FirstTokensAreFirst }
{}
