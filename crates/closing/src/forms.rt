// The forms of concepts by which one child adds conclusions.
ghost use Rattle.std.specs.Prelude.{Decides};
ghost use Rattle.logic.specs.Closing.{IsNot, IsLess, IsLesser};

use terms::concept::Concept;

// Whether the concept is 'not c'.
pub fn is_not(concept: Concept) -> bool
    ensures { Decides result (IsNot concept) }
{
    matches!(concept, Concept::Not(_))
}

// Whether the concept is 'c less k'.
pub fn is_less(concept: Concept) -> bool
    ensures { Decides result (IsLess concept) }
{
    matches!(concept, Concept::Less(_, _))
}

// Whether the concept is 'the lesser of c and d'.
pub fn is_lesser(concept: Concept) -> bool
    ensures { Decides result (IsLesser concept) }
{
    matches!(concept, Concept::Lesser(_, _))
}
