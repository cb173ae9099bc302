// A list of DNS names: a count, then a string for each.
ghost use Rattle.std.specs.Prelude.{◌≡◌, ℕ, List};
ghost use Rattle.fields.specs.Answers.{read, spanned};
ghost use Rattle.lists.specs.Lists.{dns_name_p};
ghost use Rattle.lists.specs.Runs.{dns_span_p, dns_names_p};

use fields::{Fault, Reading, Run, Span, Thing, list_at, string_at};

pub struct DnsName;

impl DnsName {
    // Of its bytes.
    pub const LEAST: usize = 1;

    pub const MOST: usize = 253;

    // Of the names in a list.
    pub const FEWEST: usize = 0;

    pub const MANY: usize = 32;
}

impl Thing for DnsName {
    ghost Value = { List ℕ };

    ghost thing_p = { dns_name_p };

    #[tactic(auto, using(fields::proofs::Strings::string_by_span), unfolding(crate::specs::Lists::dns_name_p))]
    fn past(file: &[u8], at: usize) -> Result<usize, Fault> {
        Ok(dns_name_at(file, at)?.end)
    }
}

// The DNS names at a place.
pub fn dns_names_at(file: &[u8], at: usize) -> Reading<Run>
    ensures { read result ≡ dns_names_p file.now at }
{
    list_at::<DnsName>(file, at, DnsName::FEWEST, DnsName::MANY)
}

// Where the bytes of the DNS name at a place stand.
pub fn dns_name_at(file: &[u8], at: usize) -> Result<Span, Fault>
    ensures { spanned result ≡ dns_span_p file.now at }
{
    string_at(file, at, DnsName::LEAST, DnsName::MOST)
}
