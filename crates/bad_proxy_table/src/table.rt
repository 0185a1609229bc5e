// The table of failures.
ghost use Rattle.std.specs.Prelude.{◌≡◌, ◌∷◌, ◌++◌, [], List, IfOk, OnOk, OnErr, filter};
ghost use Rattle.std.specs.Option.{option_copied};
ghost use Rattle.bad_proxy_table.specs.Retry.{Report, Failed, Worked, StandsFor, good_first, is_bad, is_bad_in, is_recent, try_order};

use proxy_list::{Proxy, ProxyList};
use std::alloc::Global;
use std::collections::BTreeMap;
use std::marker::Model;
use utf16_text::Memory;

/// For how many seconds a failure counts.
pub const RETRY_SECONDS: i64 = 300;

/// What was reported of proxies, seen as a list of those whose last report is a failure, each with its moment in seconds.
#[derive(Drop)]
pub struct BadTable {
    failures: BTreeMap<Proxy, i64>,
}

impl Model for BadTable {
    ghost use Rattle.std.specs.Prelude.{ℤ, List};
    ghost use Rattle.proxy_list.specs.declared.proxy.Proxy.{Proxy};

    ghost Value = { List (Proxy × ℤ) };

    ghost view = { λ t. t.failures.entries };
}

impl BadTable {
    /// The table before any report. It takes no memory.
    pub fn new(alloc: Global) -> BadTable
        ensures { StandsFor result [] }
    {
        BadTable {
            failures: BTreeMap::new(alloc),
        }
    }

    /// Takes in that a proxy failed at a moment.
    pub fn failed(&mut self, alloc: Global, proxy: &Proxy, moment: i64) -> Result<(), Memory>
        ensures ok { OnOk result ((reports : List Report) → StandsFor self.old reports → StandsFor self.new (Failed proxy.now moment ∷ reports)) }
        ensures unchanged { OnErr result (self.new ≡ self.old) }
    {
        self.failures.insert(proxy.copy(alloc)?, moment)?;
        Ok(())
    }

    /// Takes in that a proxy worked at a moment. It takes no memory.
    pub fn worked(&mut self, _alloc: Global, proxy: &Proxy, moment: i64) -> Result<(), Memory>
        ensures ok { OnOk result ((reports : List Report) → StandsFor self.old reports → StandsFor self.new (Worked proxy.now moment ∷ reports)) }
        ensures unchanged { OnErr result (self.new ≡ self.old) }
    {
        let _failed = self.failures.remove(proxy);
        Ok(())
    }

    /// Whether the last report on a proxy is a failure less than 300 seconds before the moment. `DIRECT` never is bad.
    pub fn is_bad(&self, proxy: &Proxy, moment: i64) -> bool
        ensures { (reports : List Report) → StandsFor self.now reports → result ≡ is_bad reports proxy.now moment }
    {
        self.has_bad(proxy, moment)
    }

    /// The proxies of a list in the order in which to try them at a moment: those that aren't bad, then the bad ones,
    /// each of them in the list's order.
    pub fn order(&self, alloc: Global, list: &ProxyList, moment: i64) -> Result<ProxyList, Memory>
        ensures { IfOk result (λ ordered. (reports : List Report) → StandsFor self.now reports → ordered ≡ try_order reports list.now moment) }
    {
        Ok(self.good_first(alloc, list.as_slice(), moment)?)
    }

    fn has_bad(&self, proxy: &Proxy, moment: i64) -> bool
        ensures { result ≡ is_bad_in self.now moment proxy.now }
    {
        !proxy.kind.is_direct() && is_recent(self.failures.get(proxy), moment)
    }

    fn good_first(&self, alloc: Global, proxies: &[Proxy], moment: i64) -> Result<ProxyList, Memory>
        ensures { IfOk result (λ ordered. ordered ≡ good_first (is_bad_in self.now moment) proxies.now) }
    {
        let mut ordered = ProxyList::new(alloc);
        for proxy in proxies {
            if !self.has_bad(proxy, moment) {
                ordered.push(alloc, proxy.copy(alloc)?)?;
            }
        }
        self.add_bad(alloc, proxies, moment, &mut ordered)?;
        Ok(ordered)
    }

    // Adds the bad proxies of a list.
    fn add_bad(
        &self,
        alloc: Global,
        proxies: &[Proxy],
        moment: i64,
        ordered: &mut ProxyList,
    ) -> Result<(), Memory>
        ensures { OnOk result (ordered.new ≡ ordered.old ++ filter (is_bad_in self.now moment) proxies.now) }
    {
        for proxy in proxies {
            if self.has_bad(proxy, moment) {
                ordered.push(alloc, proxy.copy(alloc)?)?;
            }
        }
        Ok(())
    }
}

// Whether there is a failure, and it counts at a moment.
fn is_recent(failed: Option<&i64>, moment: i64) -> bool
    ensures { result ≡ is_recent (option_copied failed.entry) moment }
{
    match failed {
        None => false,
        Some(failed) => *failed <= moment && moment.saturating_sub(*failed) < RETRY_SECONDS,
    }
}
