// The order of records of names, for rows: the derived one, byte by byte, a shorter one before what continues it.
ghost use Rattle.std.specs.Prelude.{ℕ, List};
ghost use Rattle.names.specs.Order.{record_order};
ghost use Rattle.names.specs.Letters.{letters};
ghost use Rattle.std.specs.Cmp.{nat_cmp_total};
ghost use Rattle.std.specs.Cmp.Lexicographic.{lists_total};
ghost use Rattle.names.specs.Lexical.{same_from_lex, lex_from_same};

use crate::name::NameRecord;
use row::Ordered;
use std::cmp::Ordering;

impl Ordered for NameRecord {
    ghost Sort = { List ℕ };

    ghost key = { λ r. letters r.name };

    ghost cmp = { record_order };

    ghost total = { λ x y. (lists_total nat_cmp_total).antisymm (letters x.name) (letters y.name) };

    ghost transitive = { λ x y z. (lists_total nat_cmp_total).trans (letters x.name) (letters y.name) (letters z.name) };

    ghost agrees = { λ x y. (same_from_lex (letters x.name) (letters y.name), lex_from_same (letters x.name) (letters y.name)) };

    fn compare(&self, other: &NameRecord) -> Ordering {
        self.cmp(other)
    }
}
