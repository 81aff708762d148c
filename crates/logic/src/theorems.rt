// The theorems of the logic. Each function has one as its contract, and does nothing.
ghost use Rattle.logic.specs.Theorems.{DegreeByForm, RoundingCommutes, QuestionLineByHalves, ClosedMeansUnmet, StandingIsMet, EverySheetReadsOut, DrawnUpIsAccepted};
ghost use Rattle.logic.specs.Agreement.{TestsAgree};
ghost use Rattle.logic.specs.Pieces.{Pieces};

// The degree of a concept is what its form makes of the degrees of its parts.
pub fn degree_by_form()
    ensures { DegreeByForm }
{}

// Rounding commutes with every concept form.
pub fn rounding_commutes()
    ensures { RoundingCommutes }
{}

// A question line holds exactly if its half-step line holds of the rounded degree.
pub fn question_line_by_halves()
    ensures { QuestionLineByHalves }
{}

// An obeyed closing sheet that fits: nothing meets book and question.
pub fn closed_means_unmet()
    ensures { ClosedMeansUnmet }
{}

// An obeyed standing sheet that fits: the holding read out meets book and question at the root.
pub fn standing_is_met()
    ensures { StandingIsMet }
{}

// Every sheet can be read out, whatever its labels.
pub fn every_sheet_reads_out()
    ensures { EverySheetReadsOut }
{}

// The sheet drawn up from a holding that meets book and question obeys the standing rules and fits.
pub fn drawn_up_is_accepted()
    ensures { DrawnUpIsAccepted }
{}

// The computing forms of the relations are true exactly where the relations hold.
pub fn tests_agree()
    ensures { TestsAgree }
{}

// What the definitions make of small books, holdings and sheets.
pub fn pieces()
    ensures { Pieces }
{}
