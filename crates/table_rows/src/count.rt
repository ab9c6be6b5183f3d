//! How many rows a query counted.

ghost use Rattle.std.specs.Prelude.{◌≡◌, ◌<◌, ◌^◌, ◌-◌, pos, ℕ, [], ◌∷◌, Some, IfSome};
ghost use Rattle.sqlite.specs.declared.types.Value.TheVariants.{Int};

use sqlite::Row;
use sqlite::types::ValueRef;

/// The greatest count that there is: a table with more rows has it too.
const MAX_COUNT: i64 = i64::MAX;

/// The count in the one row of COUNT(*), or `None` if it is the greatest count or the rows are no count.
pub fn count_in(rows: &[Row]) -> Option<u64>
    ensures value { IfSome result (λ count. (count < 2 ^ 63 - 1) × (rows.now ≡ (Int (pos count) ∷ []) ∷ [])) }
    ensures complete { (count : ℕ) → count < 2 ^ 63 - 1 → rows.now ≡ (Int (pos count) ∷ []) ∷ []
        → result ≡ Some count }
{
    let [row] = rows else {
        return None;
    };
    if row.column_count() != 1 {
        return None;
    }
    match row.get_ref(0) {
        Ok(ValueRef::Int(count)) if 0 <= count && count < MAX_COUNT => Some(count as u64),
        _ => None,
    }
}
