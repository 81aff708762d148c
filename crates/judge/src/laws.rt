// What holds of every book, as the theory sees it.
ghost use Rattle.judge.specs.Laws.{EveryBookIsProper};

// It does nothing: its contract is the law.
pub fn every_book_is_proper()
    ensures { EveryBookIsProper }
{}
