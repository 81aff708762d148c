// Keeps a small parish book from start to finish, drafts sheets and has them judged, and prints each action with what came of it.
#![tactic(auto)]

mod acts;
mod sheets;
mod shows;

use acts::Action;
use book::Book;
use question::Question;
use runs::{Call, perform};

// Whether what a call answers is the number of what it entered.
fn gives_number(call: Call<'_>) -> bool {
    matches!(
        call,
        Call::EnterHeading(_)
            | Call::EnterRole(_)
            | Call::EnterConcept(_)
            | Call::EnterInclusion { .. }
            | Call::EnterLine(_)
    )
}

// Makes each call and prints what it was and what came of it.
fn make_all(
    rt: &impl Print,
    book: &mut Book,
    question: &mut Question,
    actions: &[Action],
) -> anyhow::Result<()> {
    for &(what, call) in actions {
        match perform(book, question, call) {
            Ok(number) if gives_number(call) => println!(rt; "{what}: number {number}")?,
            Ok(_) => println!(rt; "{what}: done")?,
            Err(why) => {
                // (Not as it shows itself, with its place: what is printed stays as it was.)
                let number = why.refusal.number();
                println!(rt; "{what}: refused with {number}: {}", why.refusal)?
            }
        }
    }
    Ok(())
}

fn run(rt: &HostRuntime) -> anyhow::Result<()> {
    let mut question = Question::new();
    // (A tour that cannot go on says why in words alone.)
    let mut book = Book::new(rt.alloc(), 10).map_err(|why| why.refusal)?;
    println!(rt; "A parish book in tenths")?;
    make_all(rt, &mut book, &mut question, &acts::names())?;
    make_all(rt, &mut book, &mut question, &acts::concepts())?;
    make_all(rt, &mut book, &mut question, &acts::rules())?;
    shows::all(rt, &book, &question)?;
    println!(rt; "Two calls that are refused")?;
    make_all(rt, &mut book, &mut question, &acts::refused())?;
    shows::all(rt, &book, &question)?;
    println!(rt; "A sheet that says no, in half tenths")?;
    sheets::closing(rt, &book, &question)?;
    println!(rt; "A question that can be met, and a sheet that says yes")?;
    make_all(rt, &mut book, &mut question, &acts::another_question())?;
    sheets::standing(rt, &book, &question)
}

fn main(rt: HostRuntime) -> anyhow::Result<()> {
    run(&rt)
}
