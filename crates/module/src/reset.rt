// What the commands do to what outlasts a packet: 6.6.3.2, 6.6.3.3, 6.6.3.5, 6.6.3.7.
ghost use Rattle.std.specs.Prelude.{◌≡◌};
ghost use Rattle.module.specs.Reset.{without_address, prepared, assigned, at_home, renewed, reset};

use crate::state::Lasting;
use udid::Udid;
use udid::kind::AddressKind;

// Prepare To ARP: all but Address Resolved stays.
pub(crate) fn prepare(own: Lasting) -> Lasting
    ensures { result ≡ prepared own }
{
    let resolved = false;
    Lasting { resolved, ..own }
}

// Assign Address.
pub(crate) fn assign(own: Lasting, address: u8) -> Lasting
    ensures { result ≡ assigned own address }
{
    Lasting {
        valid: true,
        address,
        resolved: true,
        ..own
    }
}

// No address.
fn forget(own: Lasting) -> Lasting
    ensures { result ≡ without_address own }
{
    Lasting {
        valid: false,
        address: 0,
        resolved: false,
        ..own
    }
}

// A fixed module at the address that it is fixed at; a number above 127 is no address.
fn go_home(own: Lasting) -> Lasting
    ensures { result ≡ at_home own }
{
    if own.home < 128 {
        Lasting {
            valid: true,
            address: own.home,
            resolved: false,
            ..own
        }
    } else {
        forget(own)
    }
}

// The identifier with other vendor-specific bytes, its last four.
fn renew(u: Udid, fresh: u32) -> Udid
    ensures { result ≡ renewed u fresh }
{
    Udid {
        low: u.low / 0x1_0000_0000 * 0x1_0000_0000 + fresh as u64,
        ..u
    }
}

// Reset Device, by the kind of the address.
#[tactic(auto, unfolding(crate::specs::Reset::reset))]
pub(crate) fn reset_device(own: Lasting) -> Lasting
    ensures { result ≡ reset own }
{
    match own.udid.address_kind() {
        AddressKind::Fixed => go_home(own),
        AddressKind::Persistent => prepare(own),
        AddressKind::Volatile => forget(own),
        AddressKind::Random => forget(Lasting {
            udid: renew(own.udid, own.fresh),
            ..own
        }),
    }
}
