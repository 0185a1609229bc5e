// The functions on texts.
ghost use Rattle.std.specs.Prelude.{◌≡◌, ◌++◌, IfOk, count_by, nat_eq, slice_get, codes};
ghost use Rattle.std.specs.List.{starts_with};
ghost use Rattle.pac_match.specs.Matching.{is_match};
ghost use Rattle.pac_functions.specs.Texts.{
  text_in,
  is_dot,
  is_next,
  is_plain,
  ends_in_domain,
  is_host_or_first,
  dots_in,
  levels_of,
};

use heap_values::Value;
use js_convert::to_text;
use pac_match::sh_exp_match;
use std::alloc::Global;
use utf16_text::{Memory, Text};
use whole_number::Whole;

const DOT: u16 = 46;

/// The text of an argument; that of a missing one is `undefined`.
pub fn text_at(alloc: Global, args: &[Value], at: usize) -> Result<Text, Memory>
    ensures { IfOk result (λ text. text ≡ text_in args.now at) }
{
    match args.get(at) {
        Some(value) => to_text(alloc, value),
        None => to_text(alloc, &Value::Undefined),
    }
}

/// Whether there is no dot in the name.
pub fn is_plain_host_name(alloc: Global, args: &[Value]) -> Result<bool, Memory>
    ensures { IfOk result (λ truth. truth ≡ is_plain (text_in args.now 0)) }
{
    let host = text_at(alloc, args, 0)?;
    Ok(!host.units().contains(&DOT))
}

/// Whether the name ends with the domain, unit for unit.
pub fn dns_domain_is(alloc: Global, args: &[Value]) -> Result<bool, Memory>
    ensures { IfOk result (λ truth. truth ≡ ends_in_domain (text_in args.now 0) (text_in args.now 1)) }
{
    let host = text_at(alloc, args, 0)?;
    let domain = text_at(alloc, args, 1)?;
    Ok(host.units().ends_with(domain.units()))
}

/// Whether the name is the other one, or that begins with it and a dot.
pub fn local_host_or_domain_is(alloc: Global, args: &[Value]) -> Result<bool, Memory>
    ensures { IfOk result (λ truth. truth ≡ is_host_or_first (text_in args.now 0) (text_in args.now 1)) }
{
    let host = text_at(alloc, args, 0)?;
    let name = text_at(alloc, args, 1)?;
    Ok(host.equals(&name) || begins_with_label(name.units(), host.units()))
}

/// Whether the name begins with the label and a dot.
fn begins_with_label(name: &[u16], label: &[u16]) -> bool
    ensures { result ≡ starts_with nat_eq name.now (label.now ++ codes ".") }
{
    name.starts_with(label) && is_dot_at(name, label.len())
}

fn is_dot_at(units: &[u16], at: usize) -> bool
    ensures { result ≡ is_next 46 (slice_get units.now at) }
{
    match units.get(at) {
        Some(unit) => DOT == *unit,
        None => false,
    }
}

/// The number of dots in the name.
pub fn dns_domain_levels(alloc: Global, args: &[Value]) -> Result<Value, Memory>
    ensures { IfOk result (λ levels. levels ≡ levels_of (text_in args.now 0)) }
{
    let host = text_at(alloc, args, 0)?;
    Ok(Value::Number(dots(host.units())))
}

fn dots(units: &[u16]) -> Whole
    ensures { result ≡ dots_in units.now }
{
    Whole::from(u32::try_from(dot_count(units)).unwrap_or(u32::MAX))
}

fn dot_count(units: &[u16]) -> usize
    ensures { result ≡ count_by is_dot units.now }
{
    units.iter().filter(|unit| **unit == DOT).count()
}

/// Whether the expression matches the whole text.
pub fn sh_exp_match_is(alloc: Global, args: &[Value]) -> Result<bool, Memory>
    ensures { IfOk result (λ truth. truth ≡ is_match (text_in args.now 1) (text_in args.now 0)) }
{
    let text = text_at(alloc, args, 0)?;
    let expression = text_at(alloc, args, 1)?;
    Ok(sh_exp_match(&text, &expression))
}
