// The records of the answer section, and the chain of aliases through them (RFC 1034, section 3.6.2).
ghost use Rattle.std.specs.Prelude.{◌≡◌, IfSome, IsSome, is_some};
ghost use Rattle.dns_name.specs.Wire.{labels_at};
ghost use Rattle.dns_message.specs.Record.{facts_at};
ghost use Rattle.dns_message.specs.Reply.{address_in, alias_in, answer_on};
ghost use Rattle.dns_message.specs.Seen.{facts_known, IsNameOf, name_seen, name_there, TellsAddress, TellsAlias};

use crate::record::{Data, Record, known_record, read_record};
use dns_name::same_name;
use pac_names::{Answer, NameKind};

/// How many aliases are followed at most.
const MAX_ALIASES: u32 = 16;

/// The records of an answer section: so many from an offset on, read for names of a kind.
#[derive(Clone, Copy)]
pub(crate) struct Section {
    pub(crate) at: usize,
    pub(crate) count: u16,
    pub(crate) kind: NameKind,
}

/// Whether each record of the section stands whole in the message.
pub(crate) fn is_readable(message: &[u8], section: Section) -> bool
    ensures { result ≡ is_some (facts_at section.kind section.count message.now section.at) }
{
    let mut at = section.at;
    for _turn in 0..section.count {
        match read_record(message, at, section.kind) {
            Some(record) => at = record.behind,
            None => return false,
        }
    }
    true
}

/// The offset of the name that the name at `present` is an alias of, by the first record that says so.
fn first_alias(message: &[u8], section: Section, present: usize) -> Option<usize>
    requires readable { IsSome (facts_at section.kind section.count message.now section.at) }
    requires named { IsSome (labels_at message.now present) }
    ensures alias { name_seen message.now result
        ≡ alias_in (facts_known (facts_at section.kind section.count message.now section.at))
        (name_there message.now present) }
    ensures named { IfSome result (λ target. IsSome (labels_at message.now target)) }
{
    let mut at = section.at;
    for _turn in 0..section.count {
        let record = known_record(message, at, section.kind);
        if let Some(target) = alias_told(message, record, present) {
            return Some(target);
        }
        at = record.behind;
    }
    None
}

// The offset of the name that a record says the name at `present` is an alias of.
fn alias_told(message: &[u8], resource: Record, present: usize) -> Option<usize>
    requires owner { IsSome (labels_at message.now resource.name) }
    requires target { IsNameOf message.now resource.told }
    requires named { IsSome (labels_at message.now present) }
    ensures told { TellsAlias message.now resource (name_there message.now present) (name_seen message.now result) }
    ensures named { IfSome result (λ target. IsSome (labels_at message.now target)) }
{
    match resource.told {
        Data::Alias(target) if same_name(message, present, resource.name) => Some(target),
        _ => None,
    }
}

/// The first address of the name at `present`.
fn first_address(message: &[u8], section: Section, present: usize) -> Answer
    requires readable { IsSome (facts_at section.kind section.count message.now section.at) }
    requires named { IsSome (labels_at message.now present) }
    ensures { result ≡ address_in (facts_known (facts_at section.kind section.count message.now section.at))
        (name_there message.now present) }
{
    let mut at = section.at;
    for _turn in 0..section.count {
        let record = known_record(message, at, section.kind);
        if let Some(answer) = address_told(message, record, present) {
            return answer;
        }
        at = record.behind;
    }
    Answer::NoAddress
}

// The address that a record says the name at `present` has.
fn address_told(message: &[u8], resource: Record, present: usize) -> Option<Answer>
    requires owner { IsSome (labels_at message.now resource.name) }
    requires named { IsSome (labels_at message.now present) }
    ensures { TellsAddress message.now resource (name_there message.now present) result }
{
    match resource.told {
        Data::Address(address) if same_name(message, present, resource.name) => Some(
            Answer::Address(address),
        ),
        Data::Address6(address) if same_name(message, present, resource.name) => Some(
            Answer::Address6(address),
        ),
        _ => None,
    }
}

/// The answer on the name at `asked`: at most `MAX_ALIASES` aliases are followed, and the last name's address stands.
pub(crate) fn follow(message: &[u8], section: Section, asked: usize) -> Answer
    requires readable { IsSome (facts_at section.kind section.count message.now section.at) }
    requires named { IsSome (labels_at message.now asked) }
    ensures { result ≡ answer_on 16 (facts_known (facts_at section.kind section.count message.now section.at))
        (name_there message.now asked) }
{
    let mut present = asked;
    for _step in 0..MAX_ALIASES {
        match first_alias(message, section, present) {
            Some(target) => present = target,
            None => return first_address(message, section, present),
        }
    }
    first_address(message, section, present)
}
