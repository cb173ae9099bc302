// Authority key identifiers (RFC 5280, 4.2.1.1).
ghost use Rattle.std.specs.Prelude.{◌≡◌};
ghost use Rattle.keys.specs.AuthKeyId.{agree, check_auth_key_id};
ghost use Rattle.keys.specs.Given.{given};

// Whether what a subject says of its issuer's key fits the issuer: the subject's authority key id and authority serial,
// the issuer's subject key id and serial. Always inlined, so that flags which a caller has are looked at as they are, and no Option is made
// of them.
#[tactic(auto, unfolding(crate::specs::AuthKeyId::check_auth_key_id))]
#[inline(always)]
pub fn check_auth_key_id(
    akid: Option<&[u8]>,
    aserial: Option<&[u8]>,
    skid: Option<&[u8]>,
    serial: &[u8],
) -> bool
    ensures { result ≡ check_auth_key_id (given akid.entry) (given aserial.entry) (given skid.entry) serial.now }
{
    agree(akid, skid) && agree(aserial, Some(serial))
}

// Whether two parts are the same where both are present.
fn agree(a: Option<&[u8]>, b: Option<&[u8]>) -> bool
    ensures { result ≡ agree (given a.entry) (given b.entry) }
{
    match (a, b) {
        (Some(a), Some(b)) => text::equal(a, b),
        _ => true,
    }
}
