// What a seed and a number of sites generate.
ghost use Rattle.std.specs.Prelude.{◌≡◌, ◌<◌, ◌≤◌, IfOk};
ghost use Rattle.pac_generate.specs.Generated.{generated, script, site_line, site_lines};

use crate::names::{answers, site_host};
use answer_table::AnswerTable;
use batch_text::{Batch, BatchLine, MOST_URLS, View};
use std::alloc::Global;
use utf16_text::{Memory, Text};

/// A script, a batch of URLs, and the answers to all names that the script asks for.
#[derive(Drop)]
pub struct Generated {
    pub script: Text,
    pub batch: Batch,
    pub map: AnswerTable,
}

/// The script: it asks for one of ten gates and for the URL's host, and answers by the host's address.
const SCRIPT: &str = "function FindProxyForURL(url, host) {
  var gate = dnsResolve(\"gw\" + host.charAt(4) + \".example\");
  if (!isResolvable(host)) return \"DIRECT\";
  if (isInNet(host, \"10.0.0.0\", \"255.128.0.0\")) return \"PROXY \" + gate + \":8080\";
  return \"SOCKS \" + gate + \":1080; DIRECT\";
}
";

/// The moment of every URL, in seconds since 1970 in UTC.
pub const MOMENT: i64 = 1_700_000_000;

/// What a seed and a number of sites, at most those of a batch, generate.
pub fn generate(alloc: Global, seed: u32, sites: u32) -> Result<Generated, Memory>
    requires { sites ≤ MOST_URLS }
    ensures { IfOk result (λ g. g ≡ generated seed sites) }
{
    Ok(Generated {
        script: script(alloc)?,
        batch: site_lines(alloc, sites)?,
        map: answers(alloc, seed, sites)?,
    })
}

fn script(alloc: Global) -> Result<Text, Memory>
    ensures { IfOk result (λ text. text ≡ script) }
{
    Text::from_latin_1(alloc, SCRIPT.as_bytes())
}

#[tactic(auto, using(crate::proofs::StepLaws::site_lines_more))]
fn site_lines(alloc: Global, sites: u32) -> Result<Batch, Memory>
    ensures { IfOk result (λ lines. lines ≡ site_lines sites) }
{
    let mut lines = Batch::new(alloc);
    for site in 0..sites {
        lines.push(alloc, site_line(alloc, site)?)?;
    }
    Ok(lines)
}

fn site_line(alloc: Global, site: u32) -> Result<BatchLine, Memory>
    ensures { IfOk result (λ line. line ≡ site_line site) }
{
    let host = site_host(alloc, site)?;
    let url = format!(in alloc; "http://{host}/")?;
    let view = View {
        url: Text::from_latin_1(alloc, url.as_bytes())?,
        host: Text::from_latin_1(alloc, host.as_bytes())?,
    };
    Ok(BatchLine::Get(MOMENT, view))
}
