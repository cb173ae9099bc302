// Likely issued: the names fit and the key identifiers do.
ghost use Rattle.std.specs.Prelude.{◌≡◌};
ghost use Rattle.keys.specs.Given.{given};
ghost use Rattle.issuing.specs.Records.{claim_of, claimed, fits_at, keys_fit_at};

use extensions::{Flags, has_flag};
use fields::{Span, part};
use keys::check_auth_key_id;
use record::Record;
use same::same_names;

// What a certificate says of its issuer: the name and, by its flags, key id and serial.
#[derive(Clone, Copy)]
pub(crate) struct Claim {
    pub(crate) key_id: Option<Span>,
    pub(crate) serial: Option<Span>,
    pub(crate) name: Span,
}

// What a subject says of its issuer, read once for all who may have issued it.
pub(crate) fn claim_of(file: &[u8], subject: Record) -> Claim
    ensures { result ≡ claim_of file.now subject }
{
    let flags = subject.flags(file);
    let ids = subject.key_ids(file, flags);
    Claim {
        key_id: has_flag(flags, Flags::AUTHORITY_KEY).then_some(ids.authority),
        serial: has_flag(flags, Flags::AUTHORITY_SERIAL).then_some(ids.authority_serial),
        name: subject.issuer_name(),
    }
}

// Whether an issuer is the one that a claim speaks of: its key ids fit, and the claim's name is the same as its subject name, normalised.
// The claim's name comes first, which decides where attributes repeat.
pub(crate) fn fits(file: &[u8], issuer: Record, claim: Claim) -> bool
    ensures { result ≡ fits_at file.now issuer claim }
{
    keys_fit(file, issuer, claim) && same_names(file, claim.name, issuer.subject_name(), true)
}

// Whether what a claim says of the issuer's key fits the issuer.
fn keys_fit(file: &[u8], issuer: Record, claim: Claim) -> bool
    ensures { result ≡ keys_fit_at file.now issuer claim }
{
    let flags = issuer.flags(file);
    let own = issuer.key_ids(file, flags);
    let strings = issuer.strings(file);
    let key_id = has_flag(flags, Flags::SUBJECT_KEY).then_some(own.subject);
    check_auth_key_id(
        part_if(file, claim.key_id),
        part_if(file, claim.serial),
        part_if(file, key_id),
        part(file, strings.serial),
    )
}

// The bytes of a part that may be absent.
fn part_if(file: &[u8], span: Option<Span>) -> Option<&[u8]>
    ensures { given result ≡ claimed file.now span }
{
    Some(part(file, span?))
}
