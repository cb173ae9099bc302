// Address ranges (RFC 5280, 4.2.1.10): a network address and a mask of the same length.
ghost use Rattle.std.specs.Prelude.{◌≡◌};
ghost use Rattle.keys.specs.Address.{ip_addr_in_range, masked};

// The bytes of an address of either kind.
const V4: usize = 4;

const V6: usize = 16;

// Whether an address lies in a range of its own kind. The mask is any bytes; it is cut to the address's length, which it has, so that a
// byte costs one look at a length and not two.
pub fn ip_addr_in_range(range: &[u8], addr: &[u8]) -> bool
    ensures { result ≡ ip_addr_in_range range.now addr.now }
{
    let width = addr.len();
    if width != V4 && width != V6 {
        return false;
    }
    if range.len() != 2 * width {
        return false;
    }
    let (net, mask) = range.split_at(width);
    agrees(net, &mask[..width], addr)
}

// Whether net and addr agree wherever the mask has a one.
fn agrees(net: &[u8], mask: &[u8], addr: &[u8]) -> bool
    ensures { result ≡ masked net.now mask.now addr.now }
{
    net.iter()
        .zip(mask)
        .zip(addr)
        .all(|((&n, &m), &a)| n & m == a & m)
}
