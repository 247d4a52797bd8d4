//! The same routing and blocks on other capacities.
ghost use Rattle.std.specs.Prelude.{◌≡◌, ◌^◌, ◌<◌, IsTrue};
ghost use Rattle.te_model.specs.declared.certificate.Certificate.{Certificate};
ghost use Rattle.te_model.specs.Network.{is_well_formed};
ghost use Rattle.link_bounds.specs.SameLinks.{AreSameLinks};
ghost use Rattle.te_model.specs.Validity.{IsValid};
ghost use Rattle.link_bounds.specs.Laws.{CanReprice};
ghost use Rattle.link_bounds.specs.Repriced.{greatest_need, has_ratio_on, repriced};

use te_model::{Certificate, Head, Network};

// The greatest need of the certificate's blocks on the network, in millionths.
fn need_on(certificate: &Certificate, network: &Network) -> u128
    requires valid { IsValid certificate.now }
    requires formed { IsTrue (is_well_formed network.now) }
    requires same { AreSameLinks certificate.now.head.network network.now }
    ensures { result ≡ greatest_need network.now certificate.now.blocks }
{
    best_blocks::greatest_need(network, certificate.blocks.as_slice())
}

/// Whether the blocks of the certificate need a ratio on the network that a file can spell, one below 10^19.
///
/// The network has the links of the certificate's, of any capacities and costs. No memory is taken.
pub fn has_ratio_on(certificate: &Certificate, network: &Network) -> bool
    requires valid { IsValid certificate.now }
    requires formed { IsTrue (is_well_formed network.now) }
    requires same { AreSameLinks certificate.now.head.network network.now }
    ensures { result ≡ has_ratio_on certificate.now network.now }
{
    need_on(certificate, network) < 10_000_000_000_000_000_000
}

// The same as a ratio, where a file can spell it.
fn ratio_on(certificate: &Certificate, network: &Network) -> u64
    requires valid { IsValid certificate.now }
    requires formed { IsTrue (is_well_formed network.now) }
    requires same { AreSameLinks certificate.now.head.network network.now }
    requires small { greatest_need network.now certificate.now.blocks < 10 ^ 19 }
    ensures { result ≡ greatest_need network.now certificate.now.blocks }
{
    need_on(certificate, network) as u64
}

/// The certificate with the capacities and costs of the network, and the greatest need of its blocks there as its ratio. The format,
/// the routing, the set and the blocks stay.
pub fn reprice(certificate: Certificate, network: Network) -> Certificate
    requires valid { IsValid certificate }
    requires can { CanReprice certificate network }
    ensures repriced { result ≡ repriced certificate network }
    ensures valid { IsValid result }
{
    let ratio = ratio_on(&certificate, &network);
    let Certificate { head, blocks } = certificate;
    let head = Head {
        format: head.format,
        network,
        routes: head.routes,
        set: head.set,
        ratio,
    };
    Certificate { head, blocks }
}
