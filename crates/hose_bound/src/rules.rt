//! The rules K1 to K4, and the first that fails.
ghost use Rattle.std.specs.Prelude.{◌≡◌, ◌↔◌, ◌^◌, ◌<◌, Some, length};
ghost use Rattle.te_model.specs.declared.certificate.RuleFault.{RuleFault};
ghost use Rattle.te_model.specs.Network.{node_count};
ghost use Rattle.te_model.specs.Validity.{rule_fault, follows};
ghost use Rattle.number_tables.specs.Rules.{IsFirstRuleOf};
ghost use Rattle.hose_bound.specs.Rules.{hose_block_at, is_small_amount, has_bound, has_link_in_order, has_millionths, are_millionths, link_before_block, amount_rule, hose_fault, hose_rules, hose_cert_fault, hose_cert_rules};

use crate::hose::{Hose, HoseBlock, HoseCert};
use te_model::{Network, RuleFault, SHARE_UNIT, first_fault, number_at};

/// The greatest amount that a node may send or receive.
const MAX_AMOUNT: u64 = 1 << 32;

// K1 at the place.
fn is_small_amount(nodes: usize, hose: &Hose, k: usize) -> bool
    ensures { result ≡ is_small_amount nodes hose.now k }
{
    let amount = if k < nodes {
        number_at(hose.sent.as_slice(), k)
    } else {
        number_at(hose.received.as_slice(), k - nodes)
    };
    amount <= MAX_AMOUNT
}

// The first place at which K1 fails.
fn amount_fault(nodes: usize, hose: &Hose) -> Option<RuleFault>
    requires { nodes < 2 ^ 32 }
    ensures { result ≡ rule_fault 1 (amount_rule nodes hose.now).places (amount_rule nodes hose.now).holds }
{
    first_fault(1, 2 * nodes, |k| is_small_amount(nodes, hose, k))
}

// Whether the link is above that of the block before block k, if there is one.
fn follows_block_before(blocks: &[HoseBlock], k: usize) -> bool
    requires { k < length blocks.now }
    ensures { result ≡ follows (link_before_block blocks.now k) (hose_block_at blocks.now k).link }
{
    k == 0 || blocks[k - 1].link < blocks[k].link
}

// K3 at the place.
fn has_link_in_order(net: &Network, blocks: &[HoseBlock], k: usize) -> bool
    requires { k < length blocks.now }
    ensures { result ≡ has_link_in_order net.now blocks.now k }
{
    (blocks[k].link as usize) < net.links.as_slice().len() && follows_block_before(blocks, k)
}

fn are_millionths(numbers: &[u64]) -> bool
    ensures { result ≡ are_millionths numbers.now }
{
    numbers.iter().all(|x| *x <= SHARE_UNIT)
}

// K4 at the place.
fn has_millionths(blocks: &[HoseBlock], k: usize) -> bool
    requires { k < length blocks.now }
    ensures { result ≡ has_millionths blocks.now k }
{
    are_millionths(blocks[k].tails.as_slice()) && are_millionths(blocks[k].heads.as_slice())
}

// K2.
fn has_bound(cert: &HoseCert) -> bool
    ensures { result ≡ has_bound cert.now }
{
    cert.bound < 10_000_000_000_000_000_000
}

// Where K2 fails.
fn bound_fault(cert: &HoseCert) -> Option<RuleFault>
    ensures { result ≡ rule_fault 2 1 (λ _. has_bound cert.now) }
{
    if has_bound(cert) {
        None
    } else {
        Some(RuleFault {
            number: 2,
            place: 0,
        })
    }
}

// The first place at which K3 fails.
fn link_fault(net: &Network, blocks: &[HoseBlock]) -> Option<RuleFault>
    ensures { result ≡ rule_fault 3 (length blocks.now) (has_link_in_order net.now blocks.now) }
{
    first_fault(3, blocks.len(), |k| has_link_in_order(net, blocks, k))
}

// The first place at which K4 fails.
fn number_fault(blocks: &[HoseBlock]) -> Option<RuleFault>
    ensures { result ≡ rule_fault 4 (length blocks.now) (has_millionths blocks.now) }
{
    first_fault(4, blocks.len(), |k| has_millionths(blocks, k))
}

/// The first place at which K1 fails of a hose of so many nodes, and `None` exactly where it holds: what a node sends and
/// receives is at most 2^32 (place i of what node i sends, and n + i of what it receives). Takes no memory.
pub fn hose_fault(nodes: usize, hose: &Hose) -> Option<RuleFault>
    requires { nodes < 2 ^ 32 }
    ensures search { result ≡ hose_fault nodes hose.now }
    ensures first { (f : RuleFault) → (result ≡ Some f) ↔ IsFirstRuleOf (hose_rules nodes hose.now) f }
{
    amount_fault(nodes, hose)
}

/// The failing rule of the least number, K1 to K4, at its least place, and `None` exactly where all hold. K1 is that of
/// [`hose_fault`]. K2: the bound is below 10^19 (place 0). K3: the links of the blocks are links of the network and strictly
/// ascend (place: the block). K4: the numbers of a block are at most 1,000,000 (place: the block). Takes no memory.
pub fn hose_cert_fault(net: &Network, cert: &HoseCert) -> Option<RuleFault>
    requires { node_count net.now < 2 ^ 32 }
    ensures search { result ≡ hose_cert_fault net.now cert.now }
    ensures first { (f : RuleFault) → (result ≡ Some f) ↔ IsFirstRuleOf (hose_cert_rules net.now cert.now) f }
{
    let blocks = cert.blocks.as_slice();
    amount_fault(net.names.as_slice().len(), &cert.hose)
        .or(bound_fault(cert))
        .or(link_fault(net, blocks))
        .or(number_fault(blocks))
}
