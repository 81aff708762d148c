// The strongest line of a list, in whatever order.
ghost use Rattle.std.specs.Prelude.{◌≡◌, length};
ghost use Rattle.labels.specs.Lookup.{Stronger, StrongestLine, stronger_of};

use logic::claim::Claim;
use terms::line::{Line, Side};

// The stronger of two lines on one side.
fn stronger(n: Line, m: Line) -> Line
    ensures value { result ≡ stronger_of n m }
    ensures stronger { Stronger n m result }
{
    if Claim::from(m).is_met_by(n) { n } else { m }
}

// The strongest line on the concept and the side.
pub(crate) fn strongest(lines: &[Line], concept: usize, side: Side) -> Option<Line>
    ensures { StrongestLine lines.now (length lines.now) concept side result }
{
    lines
        .iter()
        .copied()
        .filter(|m| m.concept == concept && m.side == side)
        .reduce(stronger)
}
