// Binary search in a slice.
ghost use Rattle.row.specs.Order.{Ascending};
ghost use Rattle.row.specs.Search.{SearchOutcome, SearchSorted};

use crate::order::Ordered;
use std::cmp::Ordering;

// Where an element that equals x stands, or else where x would go.
pub fn search<T: Ordered>(items: &[T], x: &T) -> Result<usize, usize>
    ensures outcome { SearchOutcome T.Ordered.cmp x.now items.now result }
    ensures sorted { Ascending T.Ordered.cmp items.now → SearchSorted T.Ordered.cmp x.now items.now result }
{
    let mut low = 0;
    let mut high = items.len();
    while low < high {
        let mid = low + (high - low) / 2;
        match items[mid].compare(x) {
            Ordering::Less => low = mid + 1,
            Ordering::Equal => return Ok(mid),
            Ordering::Greater => high = mid,
        }
    }
    Err(low)
}
