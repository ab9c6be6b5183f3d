//! The values that `clap` found for the options of a word.

ghost use Rattle.std.specs.Prelude.{◌≡◌, IfOk, option_map, unwrap_or, map, codes};
ghost use Rattle.command_line.specs.Values.{options_of, value, values as all_values, is_set, number, read_decimal};

use clap::ArgMatches;
use std::alloc::{AllocError, Global};

/// The value of an option, or the first of several.
pub fn value_of<'a>(values: &ArgMatches<'a>, name: &str) -> Option<&'a str>
    ensures { option_map (λ text. text.now) result ≡ value name.now (options_of values.now) }
{
    values.get_str(name)
}

/// All values of an option; none if it is not given.
pub fn values_of<'a>(
    alloc: Global,
    values: &ArgMatches<'a>,
    name: &str,
) -> Result<Vec<&'a str>, AllocError>
    ensures { IfOk result (λ texts.
        map (λ text. text.now) texts.items ≡ all_values name.now (options_of values.now)) }
{
    match values.get_strs(name) {
        Some(texts) => Vec::from_slice(alloc, texts),
        None => Ok(Vec::new(alloc)),
    }
}

/// Whether a flag is given.
pub fn is_set(values: &ArgMatches<'_>, name: &str) -> bool
    ensures { result ≡ is_set name.now (options_of values.now) }
{
    values.get_one(name).unwrap_or(false)
}

/// The number that the value of an option writes.
pub fn number_of(values: &ArgMatches<'_>, name: &str) -> Option<u64>
    ensures { result ≡ number 64 name.now (options_of values.now) }
{
    values.get_one(name)
}

/// The same, if it has 32 bits at most.
pub fn number_of_32_bits(values: &ArgMatches<'_>, name: &str) -> Option<u32>
    ensures { result ≡ number 32 name.now (options_of values.now) }
{
    values.get_one(name)
}

/// The same, if it has 16 bits at most.
pub fn number_of_16_bits(values: &ArgMatches<'_>, name: &str) -> Option<u16>
    ensures { result ≡ number 16 name.now (options_of values.now) }
{
    values.get_one(name)
}

/// The number that a text writes in decimal digits, if it has 64 bits at most.
pub fn read_number(text: &str) -> Option<u64>
    ensures { result ≡ read_decimal 64 text.now }
{
    text.parse().ok()
}

/// For how many seconds a file is waited for, which is 0 if `--wait` does not say it.
pub fn wait_of(values: &ArgMatches<'_>) -> u32
    ensures { result ≡ unwrap_or (number 32 (codes "wait") (options_of values.now)) 0 }
{
    number_of_32_bits(values, "wait").unwrap_or(0)
}
