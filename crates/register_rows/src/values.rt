//! The value that a column of a row holds, read as what it is to be.

ghost use Rattle.std.specs.Prelude.{◌≡◌, ◌<◌, ◌^◌, ℕ, pos, length, None, IfSome};
ghost use Rattle.sqlite.specs.declared.types.Value.TheVariants.{Int};
ghost use Rattle.sqlite.specs.Order.{column};
ghost use Rattle.register_rows.specs.Columns.{text_in, bytes_in};

use sqlite::Row;
use sqlite::types::ValueRef;

/// The bytes of the text in the column, or none if it has no text.
pub fn text_at(row: &Row, at: usize) -> &[u8]
    ensures { result.now ≡ text_in (column row.now at) }
{
    match row.get_ref(at) {
        Ok(ValueRef::Text(text)) => text,
        _ => &[],
    }
}

/// The bytes of the blob in the column, or none if it has no blob.
pub fn bytes_at(row: &Row, at: usize) -> &[u8]
    ensures { result.now ≡ bytes_in (column row.now at) }
{
    match row.get_ref(at) {
        Ok(ValueRef::Blob(bytes)) => bytes,
        _ => &[],
    }
}

/// The number in the column, if it is one from 0 on.
pub fn number_at(row: &Row, at: usize) -> Option<u64>
    ensures some { IfSome result (λ number. (number < 2 ^ 63) × (column row.now at ≡ Int (pos number))) }
    ensures none { result ≡ None → (number : ℕ) → at < length row.now → column row.now at ≡ Int (pos number) → ⊥ }
{
    match row.get_ref(at) {
        Ok(ValueRef::Int(number)) => u64::try_from(number).ok(),
        _ => None,
    }
}
