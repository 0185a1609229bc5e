// Calls repeated as often as a row says, each turn with another address, for `bench/run messages`.
use anyhow::{Result, bail};
use case_rows::text;
use pac_ext::{in_prefix, quad6, write6};
use std::alloc::Global;
use utf16_text::Text;

/// The sum of the last digits of the addresses that are read, so often, of a text with a hexadecimal digit behind it.
pub(crate) fn readings(alloc: Global, fields: &[&str]) -> Result<String> {
    let [field, count] = fields else {
        bail!("the front of a text, and a count");
    };
    let texts = with_a_digit(alloc, field)?;
    let mut sum: u64 = 0;
    for text in texts.iter().cycle().take(count.parse::<usize>()?) {
        let address = quad6(text).unwrap_or(0);
        sum = sum.wrapping_add((address % 16) as u64);
    }
    Ok(format!(in alloc; "{sum}")?)
}

/// How long the texts are in all of an address and those behind it, so many.
pub(crate) fn writings(alloc: Global, fields: &[&str]) -> Result<String> {
    let [field, count] = fields else {
        bail!("an address, and a count");
    };
    let first = u128::from_str_radix(field, 16)?;
    let mut buffer = [0; 39];
    let mut sum: u64 = 0;
    for turn in 0..count.parse::<u32>()? {
        let length = write6(first.wrapping_add(u128::from(turn)), &mut buffer);
        sum = sum.wrapping_add(length as u64);
    }
    Ok(format!(in alloc; "{sum}")?)
}

/// How often an address with a hexadecimal digit behind it is in a prefix.
pub(crate) fn prefixes(alloc: Global, fields: &[&str]) -> Result<String> {
    let [field, prefix, count] = fields else {
        bail!("the front of an address, a prefix, and a count");
    };
    let texts = with_a_digit(alloc, field)?;
    let prefix = text(alloc, prefix)?;
    let mut within: u32 = 0;
    for text in texts.iter().cycle().take(count.parse::<usize>()?) {
        within = within.wrapping_add(u32::from(in_prefix(text, &prefix)));
    }
    Ok(format!(in alloc; "{within}")?)
}

/// The texts that a field begins, one for each hexadecimal digit behind it.
fn with_a_digit(alloc: Global, field: &str) -> Result<Vec<Text>> {
    let mut texts = Vec::new(alloc);
    for digit in 0..16 {
        texts.push(text(alloc, format!(in alloc; "{field}{digit:x}")?.as_str())?)?;
    }
    Ok(texts)
}
