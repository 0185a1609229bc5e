// Resource records.
ghost use Rattle.std.specs.Prelude.{◌≡◌, ◌+◌, ◌≤◌, length, IsSome, Some};
ghost use Rattle.dns_name.specs.Wire.{labels_at};
ghost use Rattle.dns_message.specs.Numbers.{number_at};
ghost use Rattle.dns_message.specs.Record.{record_at, says_of};
ghost use Rattle.dns_message.specs.Seen.{data_seen, IsNameOf, IsThere, record_seen, says_seen, seen};

use crate::numbers::{read_u16, read_u32, read_u128};
use crate::question::{CLASS_IN, TYPE_A, TYPE_AAAA, TYPE_CNAME};
use dns_name::{name_end, skip_name};
use pac_names::NameKind;

/// A resource record that stands in a message (RFC 1035, section 4.1.3), by the offsets of its names.
///
/// ```text
///   0  1  2  3  4  5  6  7  8  9  0  1  2  3  4  5
/// +--+--+--+--+--+--+--+--+--+--+--+--+--+--+--+--+
/// /                      NAME                     /
/// +--+--+--+--+--+--+--+--+--+--+--+--+--+--+--+--+
/// |                      TYPE                     |
/// +--+--+--+--+--+--+--+--+--+--+--+--+--+--+--+--+
/// |                     CLASS                     |
/// +--+--+--+--+--+--+--+--+--+--+--+--+--+--+--+--+
/// |                      TTL                      |
/// |                                               |
/// +--+--+--+--+--+--+--+--+--+--+--+--+--+--+--+--+
/// |                   RDLENGTH                    |
/// +--+--+--+--+--+--+--+--+--+--+--+--+--+--+--+--+
/// /                     RDATA                     /
/// +--+--+--+--+--+--+--+--+--+--+--+--+--+--+--+--+
/// ```
#[derive(Clone, Copy)]
pub(crate) struct Record {
    pub(crate) name: usize,
    pub(crate) told: Data,
    pub(crate) behind: usize,
}

/// What RDATA tells, as far as a question for the addresses of a family asks.
#[derive(Clone, Copy)]
pub(crate) enum Data {
    /// The address of an A record of class IN, where IPv4 addresses are asked for.
    Address(u32),
    /// The address of an AAAA record of class IN, where IPv6 addresses are asked for.
    Address6(u128),
    /// The offset of the name in a CNAME record of class IN.
    Alias(usize),
    /// Anything else.
    Other,
}

/// The record at an offset, as names of this kind are answered by it, where one stands whole in the message.
pub(crate) fn read_record(message: &[u8], at: usize, kind: NameKind) -> Option<Record>
    ensures { seen message.now result ≡ record_at kind message.now at }
{
    let fields = skip_name(message, at)?;
    if fields + 10 > message.len() {
        return None;
    }
    let rdlength = read_u16(message, fields + 8) as usize;
    let behind = fields + 10 + rdlength;
    if behind > message.len() {
        return None;
    }
    let told = read_data(message, fields, rdlength, kind)?;
    Some(Record {
        name: at,
        told,
        behind,
    })
}

// What RDATA of so many octets tells, by the type and the class that stand ten octets before it.
fn read_data(message: &[u8], fields: usize, rdlength: usize, kind: NameKind) -> Option<Data>
    requires { fields + 10 + rdlength ≤ length message.now }
    ensures { data_seen message.now result ≡ says_of kind message.now (number_at message.now fields)
        (number_at message.now (fields + 2)) (fields + 10) rdlength }
{
    let at = fields + 10;
    match (
        read_u16(message, fields + 2),
        read_u16(message, fields),
        kind,
    ) {
        (CLASS_IN, TYPE_A, NameKind::V4) if rdlength == 4 => Some(Data::Address(read_u32(
            message, at,
        ))),
        (CLASS_IN, TYPE_A, NameKind::V6) if rdlength == 4 => Some(Data::Other),
        (CLASS_IN, TYPE_A, _) => None,
        (CLASS_IN, TYPE_AAAA, NameKind::V6) if rdlength == 16 => Some(Data::Address6(read_u128(
            message, at,
        ))),
        (CLASS_IN, TYPE_AAAA, NameKind::V6) => None,
        (CLASS_IN, TYPE_CNAME, _) if skip_name(message, at) == Some(at + rdlength) => Some(
            Data::Alias(at),
        ),
        (CLASS_IN, TYPE_CNAME, _) => None,
        _ => Some(Data::Other),
    }
}

/// The record at an offset where one is known to stand: its names are not read again.
pub(crate) fn known_record(message: &[u8], at: usize, kind: NameKind) -> Record
    requires { IsSome (record_at kind message.now at) }
    ensures record { record_at kind message.now at ≡ Some (record_seen message.now result) }
    ensures owner { IsSome (labels_at message.now result.name) }
    ensures target { IsNameOf message.now result.told }
{
    let fields = known_fields(message, at, kind);
    let rdlength = read_u16(message, fields + 8) as usize;
    Record {
        name: at,
        told: known_data(message, fields, rdlength, kind),
        behind: fields + 10 + rdlength,
    }
}

// The offset of TYPE, behind the name.
fn known_fields(message: &[u8], at: usize, kind: NameKind) -> usize
    requires { IsSome (record_at kind message.now at) }
    ensures { IsThere kind message.now at result }
{
    name_end(message, at)
}

fn known_data(message: &[u8], fields: usize, rdlength: usize, kind: NameKind) -> Data
    requires room { fields + 10 + rdlength ≤ length message.now }
    requires known { IsSome (says_of kind message.now (number_at message.now fields)
        (number_at message.now (fields + 2)) (fields + 10) rdlength) }
    ensures told { says_of kind message.now (number_at message.now fields) (number_at message.now (fields + 2))
        (fields + 10) rdlength ≡ Some (says_seen message.now result) }
    ensures target { IsNameOf message.now result }
{
    match (
        read_u16(message, fields + 2),
        read_u16(message, fields),
        kind,
    ) {
        (CLASS_IN, TYPE_A, NameKind::V4) => Data::Address(read_u32(message, fields + 10)),
        (CLASS_IN, TYPE_AAAA, NameKind::V6) => Data::Address6(read_u128(message, fields + 10)),
        (CLASS_IN, TYPE_CNAME, _) => Data::Alias(fields + 10),
        _ => Data::Other,
    }
}
