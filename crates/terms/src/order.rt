// The order of a label's lines, for rows: the derived one, by concept, at least before at most, then by bound.
ghost use Rattle.terms.specs.declared.line.Line.{Line};
ghost use Rattle.terms.specs.Lines.{line_order};
ghost use Rattle.terms.specs.LineOrderLaws.{line_order_total, line_order_transitive, line_order_agrees};

use crate::line::Line;
use row::Ordered;
use std::cmp::Ordering;

impl Ordered for Line {
    ghost Sort = { Line };

    ghost key = { λ x. x };

    ghost cmp = { line_order };

    ghost total = { line_order_total };

    ghost transitive = { line_order_transitive };

    ghost agrees = { line_order_agrees };

    fn compare(&self, other: &Line) -> Ordering {
        self.cmp(other)
    }
}
