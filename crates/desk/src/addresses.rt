// Address ranges for C.
ghost use Rattle.std.specs.Prelude.{◌≡◌};
ghost use Rattle.keys.specs.Address.{ip_addr_in_range};
ghost use Rattle.desk.specs.Leaves.{yes_no};

// Whether an address lies in a range of its own kind.
#[unsafe(no_mangle)]
pub extern "C" fn savuneco_ip_addr_in_range(range: &[u8], addr: &[u8]) -> u8
    ensures { result ≡ yes_no (ip_addr_in_range range.now addr.now) }
{
    keys::ip_addr_in_range(range, addr).into()
}
