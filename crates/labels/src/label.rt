// A label, with what is known of its order.
ghost use Rattle.std.specs.Prelude.{◌≡◌, length, Decides};
ghost use Rattle.logic.specs.Lines.{HasLine};
ghost use Rattle.logic.specs.Entries.{Rises};
ghost use Rattle.labels.specs.Known.{Known, Known-prop};
ghost use Rattle.labels.specs.Lookup.{StrongestLine};

use crate::rising::Rising;
use crate::scanning;
use terms::line::{Line, Side};

// The lines of a label. Where they rise, looking one up takes logarithmic time.
// (Not a `Result`, of whose shape it is: neither case is an error.)
#[derive(Clone, Copy)]
enum Lines<'a> {
    Rising(Rising<'a>),
    Unordered(&'a [Line]),
}

// A label: its lines, of which it is known whether they rise.
#[derive(Clone, Copy)]
pub struct Label<'a> {
    lines: Lines<'a>,
    ghost known: { Known lines } by { Known-prop lines },
}

impl<'a> Label<'a> {
    ghost use Rattle.labels.specs.Labelled.{labelled};

    // The lines as a label, with whether they rise.
    pub fn new(lines: &'a [Line]) -> Label<'a>
        ensures { labelled result ≡ lines.now }
    {
        Label {
            lines: match Rising::new(lines) {
                Some(rising) => Lines::Rising(rising),
                None => Lines::Unordered(lines),
            },
        }
    }

    pub fn lines(&self) -> &'a [Line]
        ensures { result.now ≡ labelled self.now }
    {
        match &self.lines {
            Lines::Rising(rising) => rising.lines(),
            Lines::Unordered(lines) => lines,
        }
    }

    // Whether each line stands before the next.
    #[tactic(auto, using(crate::proofs::Knowing::falls))]
    pub fn rises(&self) -> bool
        ensures { Decides result (Rises (labelled self.now)) }
    {
        matches!(self.lines, Lines::Rising(_))
    }

    // Whether the line is one of the label's.
    pub fn has(&self, l: Line) -> bool
        ensures { Decides result (HasLine (labelled self.now) l) }
    {
        match &self.lines {
            Lines::Rising(rising) => rising.has(l),
            Lines::Unordered(lines) => lines.contains(&l),
        }
    }

    // The label's strongest line on a concept and a side.
    pub fn strongest(&self, concept: usize, side: Side) -> Option<Line>
        ensures { StrongestLine (labelled self.now) (length (labelled self.now)) concept side result }
    {
        match &self.lines {
            Lines::Rising(rising) => rising.strongest(concept, side),
            Lines::Unordered(lines) => scanning::strongest(lines, concept, side),
        }
    }
}
