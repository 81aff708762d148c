// Why a call is refused, and where.

// The grounds of refusal with their numbers, and want of memory, which has none and counts as 0.
#[derive(Clone, Copy, PartialEq, Eq, Debug)]
pub enum Refusal {
    // The fineness is outside 1 to 1000.
    Fineness = 1,
    // A count of book or question is at its most.
    Full = 2,
    // A number that does not stand.
    Missing = 3,
    // A degree above the fineness, or above the top of a holding's text.
    TooHigh = 4,
    // A bad name.
    BadName = 5,
    // A name, concept or question line is already there, or an inclusion is already struck.
    Already = 6,
    // A question without lines.
    NoLines = 7,
    // The store to write in is too short, or a sheet has 1,024 entries.
    NoRoom = 8,
    // A line is not above the entry's last, or its bound is outside -1 to 4,000.
    OutOfOrder = 9,
    // An entry breaks a rule of its kind.
    BrokenRule = 10,
    // The root is no entry, or does not fit.
    BadRoot = 11,
    // The holding is unfit, or a standing sheet has over 64 entries.
    Unfit = 12,
    // A text that the writer would not write.
    BadText = 13,
    // No memory was to be had.
    NoMemory = 0,
}

// What a refused call returns: the ground, and the place it speaks of (0 where it speaks of none).
#[derive(Clone, Copy, PartialEq, Eq, Debug)]
pub struct Refused {
    pub refusal: Refusal,
    pub place: usize,
}
