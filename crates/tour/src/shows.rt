// The book and the question in words.
use book::Book;
use names::NameList;
use question::Question;
use std::io;

fn names<const MOST: usize>(rt: &impl Print, what: &str, list: &NameList<MOST>) -> io::Result<()> {
    for (number, name) in list.names().iter().enumerate() {
        println!(rt; "  {what} {number}: {name}")?;
    }
    Ok(())
}

// Prints all that stands in book and question.
pub fn all(rt: &impl Print, book: &Book, question: &Question) -> io::Result<()> {
    println!(rt;
        "The book, of fineness {}, and the question",
        book.fineness()
    )?;
    names(rt, "heading", book.headings())?;
    names(rt, "role", book.roles())?;
    for (number, concept) in book.concepts().iter().enumerate() {
        println!(rt; "  concept {number}: {concept}")?;
    }
    for (number, rule) in book.inclusions().iter().enumerate() {
        println!(rt; "  rule {number}: {rule}")?;
    }
    for (number, line) in question.lines().iter().enumerate() {
        println!(rt; "  line {number}: {line}")?;
    }
    Ok(())
}
