// Lookup names, quads and networks.
use crate::replies::written_answer;
use anyhow::{Context, Result, bail};
use case_rows::{text, written_octets};
use pac_names::{Answer, LookupName, NameKind, bad_quad, in_net, lookup_name, lookup_name6, quad};
use std::alloc::Global;
use std::collections::{BTreeMap, HashMap};

pub(crate) fn word(alloc: Global, word: &str) -> Result<String> {
    Ok(String::from_str(alloc, word)?)
}

/// The name of a field, of kind V6 where ` AAAA` stands behind it.
pub(crate) fn name_in(_alloc: Global, field: &str) -> Result<LookupName> {
    match field.strip_suffix(" AAAA") {
        Some(bytes) => {
            let name = LookupName::from_bytes(bytes.as_bytes()).context("a name")?;
            Ok(name.with_kind(NameKind::V6))
        }
        None => LookupName::from_bytes(field.as_bytes()).context("a name"),
    }
}

/// A name as a field has it.
pub(crate) fn written_name(alloc: Global, name: &LookupName) -> Result<String> {
    let mut field = written_octets(alloc, name.bytes())?;
    match name.kind() {
        NameKind::V4 => {}
        NameKind::V6 => field.push_str(" AAAA")?,
    }
    Ok(field)
}

fn written_if_any(alloc: Global, name: Option<LookupName>) -> Result<String> {
    match name {
        Some(name) => written_name(alloc, &name),
        None => word(alloc, "nothing"),
    }
}

/// The lookup name that a text spells.
pub(crate) fn lookup(alloc: Global, fields: &[&str]) -> Result<String> {
    let [field] = fields else {
        bail!("a text");
    };
    written_if_any(alloc, lookup_name(&text(alloc, field)?))
}

/// The same of kind V6.
pub(crate) fn lookup6(alloc: Global, fields: &[&str]) -> Result<String> {
    let [field] = fields else {
        bail!("a text");
    };
    written_if_any(alloc, lookup_name6(&text(alloc, field)?))
}

/// The address that a text writes as four numbers, and whether it is such with a number over 255.
pub(crate) fn address(alloc: Global, fields: &[&str]) -> Result<String> {
    let [field] = fields else {
        bail!("a text");
    };
    let text = text(alloc, field)?;
    let bad = bad_quad(&text);
    match quad(&text) {
        Some(address) => Ok(format!(in alloc; "{address:08x} {bad}")?),
        None => Ok(format!(in alloc; "nothing {bad}")?),
    }
}

/// Whether an address is of the network of a pattern and a mask.
pub(crate) fn is_in_network(alloc: Global, fields: &[&str]) -> Result<String> {
    let [address, pattern, mask] = fields else {
        bail!("an address, a pattern and a mask");
    };
    let address = u32::from_str_radix(address, 16)?;
    let pattern = u32::from_str_radix(pattern, 16)?;
    let within = in_net(address, pattern, u32::from_str_radix(mask, 16)?);
    Ok(format!(in alloc; "{within}")?)
}

/// Whether a name is less than another, which is a key of two maps, and what stands in these under each of them. A copy
/// is the same key.
pub(crate) fn keys(alloc: Global, fields: &[&str]) -> Result<String> {
    let [one, other] = fields else {
        bail!("two names");
    };
    let (one, other) = (name_in(alloc, one)?, name_in(alloc, other)?);
    let mut ordered = BTreeMap::new(alloc);
    let mut hashed = HashMap::new(alloc);
    ordered.insert(other.copy(), Answer::NoAddress)?;
    hashed.insert(other.clone()?, Answer::Address(1))?;
    let by_order = both(
        alloc,
        ordered.get(&one).copied(),
        ordered.get(&other).copied(),
    )?;
    let by_hash = both(
        alloc,
        hashed.get(&one).copied(),
        hashed.get(&other).copied(),
    )?;
    Ok(format!(in alloc;
        "{}, {}, {}",
        one < other,
        by_order.as_str(),
        by_hash.as_str()
    )?)
}

fn both(alloc: Global, one: Option<Answer>, other: Option<Answer>) -> Result<String> {
    let one = written_answer(alloc, one)?;
    let other = written_answer(alloc, other)?;
    Ok(format!(in alloc; "{} and {}", one.as_str(), other.as_str())?)
}
