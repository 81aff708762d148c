// Rows over an array that an owner lends for each call.
ghost use Rattle.std.specs.Prelude.{◌≡◌, ℕ, ◌+◌, ◌≤◌, length, take, drop, is_ok, if◌then◌else◌};
ghost use Rattle.row.specs.Order.{Ascending};
ghost use Rattle.row.specs.Placing.{InsertOutcome, InsertSorted};
ghost use Rattle.std.specs.Ordering.{nat_cmp};
ghost use Rattle.std.specs.Cmp.{nat_cmp_total};
ghost use Rattle.row.specs.Numbers.{nat_cmp_agrees};

use crate::{Ordered, Row, Unplaced, search};
use std::cmp::Ordering;

// In the order of their numbers, whatever their marks.
#[derive(Clone, Copy, PartialEq, Eq, Debug)]
struct Card {
    number: u32,
    mark: u8,
}

impl Ordered for Card {
    ghost Sort = { ℕ };

    ghost key = { λ x. x.number };

    ghost cmp = { λ x y. nat_cmp x.number y.number };

    ghost total = { λ x y. nat_cmp_total.antisymm x.number y.number };

    ghost transitive = { λ x y z. nat_cmp_total.trans x.number y.number z.number };

    ghost agrees = { λ x y. nat_cmp_agrees x.number y.number };

    fn compare(&self, other: &Card) -> Ordering {
        self.number.cmp(&other.number)
    }
}

// What an owner of the slots learns of them from a row that is dropped here.
fn place<T: Ordered>(slots: &mut [T], len: usize, x: T) -> Result<usize, Unplaced>
    requires within { len ≤ length slots.old }
    requires ascending { Ascending T.Ordered.cmp (take len slots.old) }
    ensures outcome { InsertOutcome T.Ordered.cmp x (take len slots.old) (length slots.old) (take (if is_ok result then len + 1 else len) slots.new) result }
    ensures sorted { InsertSorted T.Ordered.cmp x (take len slots.old) (take (if is_ok result then len + 1 else len) slots.new) result }
    ensures ascending { Ascending T.Ordered.cmp (take (if is_ok result then len + 1 else len) slots.new) }
    ensures rest { drop (if is_ok result then len + 1 else len) slots.new ≡ drop (if is_ok result then len + 1 else len) slots.old }
{
    let mut row = Row::over(slots, len);
    row.insert(x)
}

#[test]
fn inserts_in_order(rt: HostRuntime) {
    let mut slots = [Card { number: 0, mark: 0 }; 3];
    assert_eq!(rt; place(&mut slots, 0, Card { number: 7, mark: 1 }), Ok(0));
    let mut row = Row::over(&mut slots, 1);
    assert_eq!(rt; row.insert(Card { number: 9, mark: 2 }), Ok(1));
    assert_eq!(rt; row.insert(Card { number: 8, mark: 3 }), Ok(1));
    assert_eq!(rt;
        row.insert(Card { number: 9, mark: 4 }),
        Err(Unplaced::There(2))
    );
    assert_eq!(rt;
        row.insert(Card { number: 5, mark: 5 }),
        Err(Unplaced::Full)
    );
    assert_eq!(rt; row.len(), 3);
    assert_eq!(rt; row.get(1), Some(Card { number: 8, mark: 3 }));
    assert_eq!(rt; row.get(3), None);
    assert_eq!(rt; row.search(&Card { number: 6, mark: 0 }), Err(0));
    assert_eq!(rt; search(row.as_slice(), &Card { number: 9, mark: 0 }), Ok(2));
}

#[test]
fn appends_above_the_last(rt: HostRuntime) {
    let mut slots = [Card { number: 0, mark: 0 }; 2];
    let mut row = Row::over(&mut slots, 0);
    assert_eq!(rt; row.append(Card { number: 7, mark: 1 }), Ok(0));
    assert_eq!(rt;
        row.append(Card { number: 7, mark: 2 }),
        Err(Unplaced::NotAbove)
    );
    assert_eq!(rt; row.append(Card { number: 8, mark: 2 }), Ok(1));
    assert_eq!(rt;
        row.append(Card { number: 7, mark: 3 }),
        Err(Unplaced::Full)
    );
    assert_eq!(rt; Row::over(&mut slots, 9).len(), 2);
}

// What is in no order is answered as the halves fall: at the first that equals what is sought.
#[test]
fn searches_what_is_in_no_order(rt: HostRuntime) {
    let mut slots = [1, 5, 0, 9].map(|number| Card { number, mark: 0 });
    let five = Card { number: 5, mark: 1 };
    assert_eq!(rt; search(&slots[..3], &five), Ok(1));
    assert_eq!(rt; search(&[five; 3], &five), Ok(1));
    let mut row = Row::over(&mut slots, 3);
    assert_eq!(rt; row.insert(five), Err(Unplaced::There(1)));
}
