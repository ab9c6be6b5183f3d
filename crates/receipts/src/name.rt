//! The name of a receipt, and which receipt a file has.

ghost use Rattle.std.specs.Prelude.{◌≡◌, string_bytes, IfOk};
ghost use Rattle.serde_json.specs.View.{view};
ghost use Rattle.xbrl_report.specs.Findings.{tree};
ghost use Rattle.receipts.specs.Name.{key_digits, receipt_name, entry_told, tells_of, is_receipt_of};

use crate::receipt::Receipt;
use hex::encode;
use outbox_core::has_word;
use serde_json::Value;
use sha2::{Digest, Sha256};
use std::alloc::{AllocError, Global};

/// How many bytes of the digest of a key the name of its receipt has, each as two digits.
const DIGEST_BYTES: usize = 4;

/// The first digits of the SHA-256 digest of a key.
#[tactic(auto, unfolding(crate::specs::Name::key_digits))]
fn key_digits(alloc: Global, key: &str) -> Result<String, AllocError>
    ensures { IfOk result (λ text. string_bytes text ≡ key_digits key.now) }
{
    let digest = Sha256::digest(key.as_bytes());
    encode(alloc, &digest.as_slice()[..DIGEST_BYTES])
}

/// The name of the file of a receipt.
pub(crate) fn name_of(alloc: Global, receipt: &Receipt) -> Result<String, AllocError>
    ensures { IfOk result (λ name. string_bytes name ≡ receipt_name receipt.now.id receipt.now.sent) }
{
    let digits = key_digits(alloc, receipt.sent.key.as_str())?;
    let filer = receipt.sent.filer.as_str();
    let name = format!(in alloc; "{filer}-{id}-{digits}.json", id = receipt.id)?;
    Ok(name)
}

/// The member `entry`, if it is a whole number that is not below zero.
fn entry_told(tree: &Value) -> Option<u64>
    ensures { result ≡ entry_told (view tree.now) }
{
    tree.get("entry").and_then(Value::as_u64)
}

/// Whether an object says that it is of the entry of a receipt.
fn tells_of(tree: &Value, receipt: &Receipt) -> bool
    ensures { result ≡ tells_of receipt.now.id receipt.now.sent (view tree.now) }
{
    has_word(tree, "filer", receipt.sent.filer.as_str())
        && has_word(tree, "key", receipt.sent.key.as_str())
        && entry_told(tree) == Some(receipt.id)
}

/// Whether a text is a receipt of the same entry as this one.
pub(crate) fn is_receipt_of(
    alloc: Global,
    text: &[u8],
    receipt: &Receipt,
) -> Result<bool, AllocError>
    ensures { IfOk result (λ same. same ≡ is_receipt_of receipt.now.id receipt.now.sent (tree text.now)) }
{
    match Value::from_slice(alloc, text) {
        Ok(tree) => Ok(tells_of(&tree, receipt)),
        Err(error) if error.is_memory() => Err(AllocError),
        Err(_) => Ok(false),
    }
}
