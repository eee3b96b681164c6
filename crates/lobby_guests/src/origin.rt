//! Where a connection comes from.
ghost use Rattle.std.specs.Prelude.{◌≡◌, ◌↔◌, Some, IsTrue};
ghost use Rattle.lobby_guests.specs.Origins.{number_of, IsPlain, IsFrom, IsToldOrigin};

use std::net::IpAddr;

/// The address that a connection counts for, if for any, and whether it is a trusted proxy's, which tells another.
#[derive(Clone, Copy)]
pub struct Origin {
    pub address: Option<u64>,
    pub is_proxy: bool,
}

// An address as a number: all of one of IPv4, and the first half of one of IPv6, whose other half a peer chooses.
fn number_of(address: IpAddr) -> u64
    ensures { result ≡ number_of address }
{
    match address {
        IpAddr::V4(address) => u64::from(address.to_bits()),
        IpAddr::V6(address) => {
            let [a, b, c, d, ..] = address.segments();
            let high = u64::from(a) * 65_536 + u64::from(b);
            let low = u64::from(c) * 65_536 + u64::from(d);
            high * 4_294_967_296 + low
        }
    }
}

// Whether this is the address of the trusted proxy, if there is one.
fn is_proxy(proxy: Option<IpAddr>, peer: IpAddr) -> bool
    ensures { IsTrue result ↔ (proxy ≡ Some peer) }
{
    proxy == Some(peer)
}

// Where a peer of this plain address comes from.
fn origin_of(peer: IpAddr, proxy: Option<IpAddr>) -> Origin
    ensures { IsFrom proxy peer result }
{
    if is_proxy(proxy, peer) {
        return Origin {
            address: None,
            is_proxy: true,
        };
    }
    let address = if peer.is_loopback() {
        None
    } else {
        Some(number_of(peer))
    };
    Origin {
        address,
        is_proxy: false,
    }
}

impl Origin {
    /// Of a peer: its address, where one of IPv4 within one of IPv6 is that of IPv4; but none for one of this machine,
    /// and none for the trusted proxy, if there is one, until it tells another.
    pub fn of(peer: IpAddr, proxy: Option<IpAddr>) -> Origin
        ensures { (plain : IpAddr) × IsPlain peer plain × IsFrom proxy plain result }
    {
        origin_of(peer.to_canonical(), proxy)
    }

    /// Where a connection comes from once a request says that a proxy asks for this address: that counts of the trusted
    /// proxy alone.
    pub fn told(self, forwarded: Option<IpAddr>) -> Origin
        ensures { IsToldOrigin forwarded self result }
    {
        match forwarded {
            Some(address) if self.is_proxy => Origin {
                address: Some(number_of(address.to_canonical())),
                is_proxy: true,
            },
            _ => self,
        }
    }
}
