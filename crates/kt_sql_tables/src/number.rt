//! The numbers of the tables.
//! Cited by carrying.rt, cells.rt, reads.rt, rows.rt; whoever calls the trait `ToSql`.

ghost use Rattle.std.specs.Prelude.{◌≡◌, ◌+◌, ◌<◌, ◌≤◌, pos, MatchOption};
ghost use Rattle.sqlite.specs.declared.types.Value.TheVariants.{Int};
ghost use Rattle.kt_store.specs.Content.{greatest};

use kt_store::GREATEST;
use sqlite::types::{ToSql, ValueRef};

/// A number that a table holds: at most 2^62. So it fits an integer of SQL, which has 64 bits with a sign.
#[derive(Clone, Copy, Debug)]
pub(crate) struct Number {
    value: u64,
    ghost low: { value ≤ greatest },
}

impl Number {
    /// The number; `None` where it is above 2^62.
    pub(crate) fn new(value: u64) -> Option<Number>
        ensures { MatchOption result (greatest < value) (λ n. n.value ≡ value) }
    {
        if value <= GREATEST {
            Some(Number { value })
        } else {
            None
        }
    }

    /// The number 1.
    pub(crate) fn first() -> Number
        ensures { result.value ≡ 1 }
    {
        Number { value: 1 }
    }

    /// The next number; `None` after the greatest.
    pub(crate) fn next(self) -> Option<Number>
        ensures { MatchOption result (self.value ≡ greatest) (λ n. n.value ≡ self.value + 1) }
    {
        Number::new(self.value + 1)
    }
}

impl<'a> ToSql<'a> for Number {
    ghost to_sql = { λ n. Int (pos n.value) };

    fn to_sql(self) -> ValueRef<'a> {
        ValueRef::Int(self.value as i64)
    }
}
