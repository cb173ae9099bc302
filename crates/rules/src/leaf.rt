// What is asked of the leaf alone: that it is for servers, and for the host.
ghost use Rattle.std.specs.Prelude.{◌≡◌, ℕ, List};
ghost use Rattle.lists.specs.Lists.{usage_p, dns_name_p};
ghost use Rattle.rules.specs.Rules.{serving, names_host};
ghost use Rattle.rules.specs.Records.{for_servers_at, for_host_at};

use fields::{Reading, Run, Test, part};
use lists::{dns_name_at, usage_at};
use text::match_lowered;

// Usages: none listed, or server or any among them.
#[tactic(auto, unfolding(crate::specs::Records::for_servers_at))]
pub fn for_servers(file: &[u8], usages: Run) -> bool
    ensures { result ≡ for_servers_at file.now usages }
{
    if usages.count == 0 {
        return true;
    }
    usages.any(file, &ServingUsage)
}

// The test of a usage.
#[derive(Clone, Copy)]
struct ServingUsage;

impl Test for ServingUsage {
    ghost Value = { ℕ };

    ghost thing_p = { usage_p };

    ghost passes = { λ _ usage. serving usage };

    fn ask(&self, file: &[u8], at: usize) -> Reading<bool> {
        let (usage, next) = usage_at(file, at)?;
        Ok((serving(usage), next))
    }
}

// Two of the usages, by their numbers in the file: what the others mean is not asked, so there is no enum of them.
const SERVER: usize = 0;

const ANY: usize = 6;

#[tactic(auto, unfolding(crate::specs::Rules::serving))]
fn serving(usage: usize) -> bool
    ensures { result ≡ serving usage }
{
    usage == SERVER || usage == ANY
}

// If a host is asked, some DNS name matches it, both lowered.
#[tactic(auto, unfolding(crate::specs::Records::for_host_at))]
pub fn for_host(file: &[u8], host: &[u8], dns: Run) -> bool
    ensures { result ≡ for_host_at file.now host.now dns }
{
    if host.is_empty() {
        return true;
    }
    dns.any(file, &NamesHost { host })
}

// The test of a DNS name, by the host that is asked.
#[derive(Clone, Copy)]
struct NamesHost<'a> {
    host: &'a [u8],
}

impl Test for NamesHost<'_> {
    ghost Value = { List ℕ };

    ghost thing_p = { dns_name_p };

    ghost passes = { λ test name. names_host test.host.now name };

    #[tactic(auto, using(fields::proofs::Strings::string_by_span), unfolding(crate::specs::Rules::names_host, lists::specs::Lists::dns_name_p))]
    fn ask(&self, file: &[u8], at: usize) -> Reading<bool> {
        let name = dns_name_at(file, at)?;
        Ok((match_lowered(part(file, name), self.host), name.end))
    }
}
