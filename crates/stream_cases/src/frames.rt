// Frames, written.
use anyhow::{Context, Result, bail};
use case_rows::written_octets;
use dns_stream::write_frame;
use pac_names::{LookupName, NameKind};
use std::alloc::Global;

// What a buffer holds before a frame is written to it.
const FILLED: [u8; 514] = [0xee; 514];

/// The name of a field, of kind V6 where ` AAAA` stands behind it.
fn name_in(field: &str) -> Result<LookupName> {
    match field.strip_suffix(" AAAA") {
        Some(bytes) => {
            let name = LookupName::from_bytes(bytes.as_bytes()).context("a name")?;
            Ok(name.with_kind(NameKind::V6))
        }
        None => LookupName::from_bytes(field.as_bytes()).context("a name"),
    }
}

/// The octets of the frame of a question with this number and name, and the one behind them.
pub(crate) fn written(alloc: Global, fields: &[&str]) -> Result<String> {
    let [number, name] = fields else {
        bail!("a number and a name");
    };
    let number = u16::from_str_radix(number, 16)?;
    let name = name_in(name)?;
    let mut buffer = FILLED;
    let length = write_frame(&mut buffer, number, &name);
    match buffer.get(..length.saturating_add(1)) {
        Some(octets) => written_octets(alloc, octets),
        None => bail!("a frame of {length} octets"),
    }
}
