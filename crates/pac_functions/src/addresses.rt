// The functions that ask for addresses.
ghost use Rattle.std.specs.Prelude.{◌≡◌, IfOk};
ghost use Rattle.pac_names.specs.Quads.{quad_of};
ghost use Rattle.pac_functions.specs.Texts.{text_in};
ghost use Rattle.pac_functions.specs.Addresses.{
  quad_result,
  is_address_in,
  is_nothing,
  named_then,
  ipv4_in,
  text_then,
  resolved,
};
ghost use Rattle.pac_functions.specs.Comes.{Resolves};

use crate::call::Stop;
use crate::texts::text_at;
use heap_values::Value;
use js_convert::to_text;
use js_host::{Host, Looked};
use pac_names::{Answer, LookupName, in_net, lookup_name, quad, quad_text};
use std::alloc::Global;
use utf16_text::{Memory, Text};

/// The address of the first argument, where it has one: that which a dotted quad writes, else that which the host has
/// for the lookup name. For undefined and null, and for a text that is no lookup name, nobody is asked.
pub fn address_of<H: Host>(alloc: Global, args: &[Value], host: &mut H) -> Result<Option<u32>, Stop>
    ensures { Resolves (resolved args.now) (H.seen host.old) result (H.seen host.new) }
{
    match args.first() {
        Some(value) if !is_nothing(value) => text_address(alloc, &to_text(alloc, value)?, host),
        _ => Ok(None),
    }
}

fn is_nothing(value: &Value) -> bool
    ensures { result ≡ is_nothing value.now }
{
    matches!(value, Value::Undefined | Value::Null)
}

/// The address that a dotted quad writes, or else that of the lookup name that the text spells.
fn text_address<H: Host>(alloc: Global, text: &Text, host: &mut H) -> Result<Option<u32>, Stop>
    ensures { Resolves (text_then text.now) (H.seen host.old) result (H.seen host.new) }
{
    match quad(text) {
        Some(address) => Ok(Some(address)),
        None => Ok(ipv4(answer_on(alloc, lookup_name(text), host)?)),
    }
}

/// The answer that the host has on a lookup name; a text that is none has no address.
pub fn answer_on<H: Host>(
    alloc: Global,
    name: Option<LookupName>,
    host: &mut H,
) -> Result<Answer, Stop>
    ensures { Resolves (named_then name) (H.seen host.old) result (H.seen host.new) }
{
    let Some(name) = name else {
        return Ok(Answer::NoAddress);
    };
    match host.lookup(alloc, &name) {
        Looked::Known(answer) => Ok(answer),
        Looked::Missing => Err(Stop::Missing(name)),
        Looked::TooMany => Err(Stop::TooMany),
        Looked::Memory => Err(Stop::Memory),
    }
}

/// The IPv4 address of an answer; one of the other family counts as none.
pub fn ipv4(answer: Answer) -> Option<u32>
    ensures { result ≡ ipv4_in answer }
{
    match answer {
        Answer::Address(address) => Some(address),
        _ => None,
    }
}

/// Whether the address and the pattern of the second argument are equal where the mask of the third has a 1.
pub fn is_in_net(alloc: Global, args: &[Value], address: Option<u32>) -> Result<bool, Memory>
    ensures { IfOk result (λ truth. truth ≡ is_address_in address (quad_of (text_in args.now 1)) (quad_of (text_in args.now 2))) }
{
    let pattern = text_at(alloc, args, 1)?;
    let mask = text_at(alloc, args, 2)?;
    Ok(is_equal_in(address, quad(&pattern), quad(&mask)))
}

fn is_equal_in(address: Option<u32>, pattern: Option<u32>, mask: Option<u32>) -> bool
    ensures { result ≡ is_address_in address pattern mask }
{
    match (address, pattern, mask) {
        (Some(address), Some(pattern), Some(mask)) => in_net(address, pattern, mask),
        _ => false,
    }
}

/// A dotted quad, or null where there is no address.
pub fn quad_value(alloc: Global, address: Option<u32>) -> Result<Value, Memory>
    ensures { IfOk result (λ v. v ≡ quad_result address) }
{
    match address {
        None => Ok(Value::Null),
        Some(address) => {
            let text = quad_text(alloc, address)?;
            Ok(Value::Text(Text::from_latin_1(alloc, text.as_bytes())?))
        }
    }
}
