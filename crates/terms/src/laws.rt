// What the derived comparisons come to.
ghost use Rattle.std.specs.Prelude.{◌≡◌, Decides};
ghost use Rattle.terms.specs.declared.concept.Concept.{Concept};
ghost use Rattle.terms.specs.declared.line.Line.{Line};
ghost use Rattle.terms.specs.declared.question.QuestionLine.{QuestionLine};
ghost use Rattle.terms.specs.Lines.{line_order, LinesInOrder};

use crate::concept::Concept;
use crate::line::Line;
use crate::question::QuestionLine;

// It does nothing: its contract is the laws.
pub fn comparisons_stand()
    ensures lines { (l m : Line) → ⟦<Line as Ord>⟧.cmp l m ≡ line_order l m }
    ensures laws { LinesInOrder }
    ensures concepts { (c d : Concept) → Decides (⟦<Concept as PartialEq>⟧.eq c d) (c ≡ d) }
    ensures question_lines { (q r : QuestionLine) → Decides (⟦<QuestionLine as PartialEq>⟧.eq q r) (q ≡ r) }
{}
