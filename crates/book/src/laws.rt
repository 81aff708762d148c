// What holds of every book.
ghost use Rattle.book.specs.Sound.{EveryBookIsSound};

// It does nothing: its contract is the law.
pub fn every_book_is_sound()
    ensures { EveryBookIsSound }
{}
