// Drafts sheets by calls, and has them judged.
use book::Book;
use judge::judging::judge;
use judge::verdict::Verdict;
use question::Question;
use sheet::{Begun, EntrySlot, Finished, Sheet};
use terms::entry::{Head, Kind, Letter};
use terms::line::Line;
use terms::refusal::Refused;

fn enter_lines(begun: &mut Begun<'_>, label: &[Line]) -> Result<(), Refused> {
    for line in label {
        begun.line(*line)?;
    }
    Ok(())
}

// An entry begun, given its lines, and ended: filed or struck. It is struck if a line is refused.
fn enter<'a, F: FnOnce(Begun<'a>) -> Sheet<'a>>(
    sheet: Sheet<'a>,
    head: Head,
    label: &[Line],
    end: F,
) -> anyhow::Result<Sheet<'a>>
    requires { F.IsAlwaysCallable end }
{
    let mut begun = sheet.begin(head)?;
    match enter_lines(&mut begun, label) {
        Ok(()) => Ok(end(begun)),
        Err(why) => {
            let _ = begun.strike();
            Err(why.into())
        }
    }
}

// Prints the answer of a judgement.
fn tell(rt: &impl Print, answer: Result<Verdict, Refused>) -> anyhow::Result<()> {
    match answer {
        Ok(verdict) => println!(rt; "judged: {verdict}")?,
        Err(why) => println!(rt; "judged: {why}")?,
    }
    Ok(())
}

// A sheet that says no: two entries clash, and the third goes by rule 0. Then its step is changed in the store.
pub fn closing(rt: &impl Print, book: &Book, question: &Question) -> anyhow::Result<()> {
    let clash = Head::default();
    let by_rule = Head {
        letter: Letter::I,
        second: 1,
        step: 7,
        ..clash
    };
    let mut entries = [EntrySlot::default(); 3];
    let mut lines = [Line::default(); 6];
    let tithe = [Line::at_least(0, 7), Line::at_most(0, 6)];
    let church = [Line::at_least(1, 7), Line::at_most(1, 6)];
    let sheet = Sheet::blank(&mut entries, &mut lines);
    let sheet = enter(sheet, clash, &tithe, |begun| begun.file())?;
    println!(rt; "entry 0, a clash: tithe at least 7, tithe at most 6: filed")?;
    let sheet = enter(sheet, clash, &[tithe[0], church[0], church[1]], |begun| {
        begun.strike()
    })?;
    println!(rt; "entry 1, a clash, with a line too many: struck")?;
    let sheet = enter(sheet, clash, &church, |begun| begun.file())?;
    println!(rt; "entry 1, a clash: church at least 7, church at most 6: filed")?;
    let sheet = enter(sheet, by_rule, &[tithe[0], church[1]], |begun| begun.file())?;
    println!(rt; "entry 2, by rule 0 at step 7: tithe at least 7, church at most 6: filed")?;
    let (_, answer) = judge(book, question, sheet.finish(Kind::Closing, 2)?);
    tell(rt, answer)?;
    entries[2].head.step = 6;
    println!(rt; "the step of entry 2 is changed to 6 in the store")?;
    let changed = Finished::over(&mut entries, &mut lines, 3, Kind::Closing, 2)?;
    let (_, answer) = judge(book, question, changed);
    tell(rt, answer)
}

// A sheet that says yes: one piece, to which both headings apply alike.
pub fn standing(rt: &impl Print, book: &Book, question: &Question) -> anyhow::Result<()> {
    let head = Head {
        letter: Letter::L,
        ..Head::default()
    };
    let mut entries = [EntrySlot::default()];
    let mut lines = [Line::default(); 3];
    let label = [
        Line::at_least(0, 7),
        Line::at_most(0, 7),
        Line::at_least(1, 7),
    ];
    let sheet = Sheet::blank(&mut entries, &mut lines);
    let sheet = enter(sheet, head, &label, |begun| begun.file())?;
    println!(rt; "entry 0, standing: tithe at least 7, tithe at most 7, church at least 7: filed")?;
    let (_, answer) = judge(book, question, sheet.finish(Kind::Standing, 0)?);
    tell(rt, answer)
}
