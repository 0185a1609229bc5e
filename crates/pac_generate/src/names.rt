// The names that a generated script asks for, and their answers.
ghost use Rattle.std.specs.Prelude.{◌≡◌, ◌<◌, ◌≤◌, ◌^◌, IfOk, string_bytes};
ghost use Rattle.pac_generate.specs.declared.names.TheConstants.{GATES};
ghost use Rattle.pac_generate.specs.Names.{
  gate_answer,
  gate_host,
  gate_map,
  gate_name,
  inner_address,
  site_answer,
  site_host,
  site_map,
  site_name,
};

use crate::numbers::{next_number, upper_bits};
use answer_table::AnswerTable;
use batch_text::MOST_URLS;
use pac_names::{Answer, LookupName};
use std::alloc::{AllocError, Global};
use utf16_text::Memory;

/// How many gates there are: one for each digit.
pub const GATES: u32 = 10;

/// The answers for all gates and so many sites.
#[tactic(auto, using(crate::proofs::StepLaws::site_map_more, crate::proofs::StepLaws::number_more))]
pub(crate) fn answers(alloc: Global, seed: u32, sites: u32) -> Result<AnswerTable, Memory>
    requires { sites ≤ MOST_URLS }
    ensures { IfOk result (λ table. table ≡ site_map seed sites) }
{
    let mut table = gate_answers(alloc)?;
    let mut number = seed;
    for site in 0..sites {
        number = next_number(number);
        let name = site_name(alloc, site)?;
        table.insert(alloc, name, site_answer(upper_bits(number)))?;
    }
    Ok(table)
}

// The answers for all gates.
#[tactic(auto, using(crate::proofs::StepLaws::gate_map_more))]
fn gate_answers(alloc: Global) -> Result<AnswerTable, Memory>
    ensures { IfOk result (λ table. table ≡ gate_map GATES) }
{
    let mut table = AnswerTable::new(alloc);
    for digit in 0..GATES {
        let name = gate_name(alloc, digit)?;
        table.insert(alloc, name, gate_answer(digit))?;
    }
    Ok(table)
}

/// The host of a site's URL.
pub(crate) fn site_host(alloc: Global, site: u32) -> Result<String, AllocError>
    ensures { IfOk result (λ host. string_bytes host ≡ site_host site) }
{
    format!(in alloc; "site{site}.example")
}

// The same as a name, whose IPv4 address is asked.
fn site_name(alloc: Global, site: u32) -> Result<LookupName, Memory>
    requires { site < MOST_URLS }
    ensures { IfOk result (λ name. name ≡ site_name site) }
{
    let host = site_host(alloc, site)?;
    Ok(LookupName::from_bytes(host.as_bytes()).unwrap())
}

// The host of the proxies for a digit.
fn gate_host(alloc: Global, digit: u32) -> Result<String, AllocError>
    ensures { IfOk result (λ host. string_bytes host ≡ gate_host digit) }
{
    format!(in alloc; "gw{digit}.example")
}

// The same as a name, whose IPv4 address is asked.
fn gate_name(alloc: Global, digit: u32) -> Result<LookupName, Memory>
    requires { digit < GATES }
    ensures { IfOk result (λ name. name ≡ gate_name digit) }
{
    let host = gate_host(alloc, digit)?;
    Ok(LookupName::from_bytes(host.as_bytes()).unwrap())
}

// What a site's name is answered.
fn site_answer(number: u32) -> Answer
    requires { number < 2 ^ 16 }
    ensures { result ≡ site_answer number }
{
    if number % 5 == 0 {
        Answer::NoAddress
    } else {
        inner_address(number / 256, number % 256)
    }
}

// What a gate's name is answered.
fn gate_answer(digit: u32) -> Answer
    requires { digit < 256 }
    ensures { result ≡ gate_answer digit }
{
    inner_address(digit, 0)
}

// The address 10.a.b.1.
fn inner_address(a: u32, b: u32) -> Answer
    requires first { a < 256 }
    requires second { b < 256 }
    ensures { result ≡ inner_address a b }
{
    Answer::Address(10 * 16_777_216 + a * 65_536 + b * 256 + 1)
}
