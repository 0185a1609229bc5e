// The functions that ask for addresses of both families.
ghost use Rattle.std.specs.Prelude.{◌≡◌, IfOk, option_map};
ghost use Rattle.pac_names.specs.Quads.{quad_of, quad_text};
ghost use Rattle.pac_ext.specs.Prefixes.{is_in_prefix};
ghost use Rattle.pac_ext.specs.Reading.{ipv6_of};
ghost use Rattle.pac_ext.specs.Writing.{ipv6_text};
ghost use Rattle.pac_functions.specs.Addresses.{ipv6_in};
ghost use Rattle.pac_functions.specs.Comes.{Resolves};
ghost use Rattle.pac_functions.specs.Families.{asked_then, both_resolved, joined, plain_text};
ghost use Rattle.pac_functions.specs.Texts.{text_in};

use crate::addresses::{answer_on, ipv4};
use crate::call::Stop;
use crate::texts::text_at;
use heap_values::Value;
use js_host::Host;
use pac_ext::{LONGEST, in_prefix, quad6, write6};
use pac_names::{Answer, lookup_name, lookup_name6, quad, quad_text};
use std::alloc::Global;
use utf16_text::{Memory, Text};

/// The addresses of the first argument: the one that it writes, in plain text, else those that the host has for the
/// IPv6 name and the IPv4 name that it spells, in this order, parted by `;`. For a text that is neither nobody is asked.
pub fn addresses_of<H: Host>(alloc: Global, args: &[Value], host: &mut H) -> Result<Text, Stop>
    ensures { Resolves (both_resolved args.now) (H.seen host.old) result (H.seen host.new) }
{
    let text = text_at(alloc, args, 0)?;
    match plain(alloc, quad(&text), quad6(&text))? {
        Some(plain) => Ok(plain),
        None => asked_addresses(alloc, &text, host),
    }
}

/// The addresses that the host has for the IPv6 name and the IPv4 name of a text.
fn asked_addresses<H: Host>(alloc: Global, text: &Text, host: &mut H) -> Result<Text, Stop>
    ensures { Resolves (asked_then text.now) (H.seen host.old) result (H.seen host.new) }
{
    let six = answer_on(alloc, lookup_name6(text), host)?;
    let four = answer_on(alloc, lookup_name(text), host)?;
    Ok(joined(alloc, ipv6(six), ipv4(four))?)
}

fn ipv6(answer: Answer) -> Option<u128>
    ensures { result ≡ ipv6_in answer }
{
    match answer {
        Answer::Address6(address) => Some(address),
        _ => None,
    }
}

fn plain(alloc: Global, four: Option<u32>, six: Option<u128>) -> Result<Option<Text>, Memory>
    ensures { IfOk result (λ text. text ≡ plain_text four six) }
{
    match (four, six) {
        (Some(four), _) => Ok(Some(ipv4_text(alloc, four)?)),
        (None, Some(six)) => Ok(Some(plain_ipv6(alloc, six)?)),
        (None, None) => Ok(None),
    }
}

fn joined(alloc: Global, six: Option<u128>, four: Option<u32>) -> Result<Text, Memory>
    ensures { IfOk result (λ text. text ≡ joined six four) }
{
    match (six, four) {
        (None, None) => Text::from_latin_1(alloc, b""),
        (None, Some(four)) => ipv4_text(alloc, four),
        (Some(six), None) => plain_ipv6(alloc, six),
        (Some(six), Some(four)) => {
            let both = plain_ipv6(alloc, six)?.concat(alloc, &Text::from_latin_1(alloc, b";")?)?;
            both.concat(alloc, &ipv4_text(alloc, four)?)
        }
    }
}

fn ipv4_text(alloc: Global, address: u32) -> Result<Text, Memory>
    ensures { IfOk result (λ text. text ≡ quad_text address) }
{
    Text::from_latin_1(alloc, quad_text(alloc, address)?.as_bytes())
}

fn plain_ipv6(alloc: Global, address: u128) -> Result<Text, Memory>
    ensures { IfOk result (λ text. text ≡ ipv6_text address) }
{
    let mut bytes = [0; LONGEST];
    let length = write6(address, &mut bytes);
    Text::from_latin_1(alloc, &bytes[..length])
}

/// Whether the address of the first argument is in the prefix of the second.
pub fn is_in_net_ex(alloc: Global, args: &[Value]) -> Result<bool, Memory>
    ensures { IfOk result (λ truth. truth ≡ is_in_prefix (text_in args.now 0) (text_in args.now 1)) }
{
    Ok(in_prefix(&text_at(alloc, args, 0)?, &text_at(alloc, args, 1)?))
}
