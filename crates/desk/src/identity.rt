// Authority key identifiers for C.
ghost use Rattle.std.specs.Prelude.{◌≡◌};
ghost use Rattle.keys.specs.AuthKeyId.{check_auth_key_id};
ghost use Rattle.keys.specs.Given as lent;
ghost use Rattle.desk.specs.Leaves.{flagged, given, yes_no};

// Whether what a subject says of its issuer's key fits the issuer. A part that is not present is not read.
#[unsafe(no_mangle)]
pub extern "C" fn savuneco_check_auth_key_id(
    has_akid: u8,
    akid: &[u8],
    has_aserial: u8,
    aserial: &[u8],
    has_skid: u8,
    skid: &[u8],
    serial: &[u8],
) -> u8
    ensures { result ≡ yes_no (check_auth_key_id
        (given (flagged has_akid) akid.now)
        (given (flagged has_aserial) aserial.now)
        (given (flagged has_skid) skid.now)
        serial.now) }
{
    let akid = part(has_akid, akid);
    let aserial = part(has_aserial, aserial);
    let skid = part(has_skid, skid);
    keys::check_auth_key_id(akid, aserial, skid, serial).into()
}

// A part, where its flag says that it is present.
fn part(has: u8, bytes: &[u8]) -> Option<&[u8]>
    ensures { lent.given result ≡ given (flagged has) bytes.now }
{
    (has != 0).then_some(bytes)
}
