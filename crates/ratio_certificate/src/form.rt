//! The form of a made certificate: its format, and its set in this format.
ghost use Rattle.std.specs.Prelude.{◌≡◌, IfOk};
ghost use Rattle.te_model.specs.SmallMargin.{HasSmallMargin};
ghost use Rattle.ratio_certificate.specs.Form.{fits_first_format, is_box, made_format, set_in};

use std::alloc::Global;
use te_model::{DemandSet, FORMAT_1, FORMAT_2, Memory, Network, box_of};

/// Whether the set has a lower and an upper bound of its own for each pair.
fn is_box(set: &DemandSet) -> bool
    ensures { result ≡ is_box set.now }
{
    match set {
        DemandSet::All | DemandSet::Margin { .. } => false,
        DemandSet::Box { .. } => true,
    }
}

/// Whether the first format has room for the network, and sets of this form.
fn fits_first_format(net: &Network, set: &DemandSet) -> bool
    ensures { result ≡ fits_first_format net.now set.now }
{
    let nodes = net.names.as_slice().len() as u64;
    let links = net.links.as_slice().len() as u64;
    nodes <= FORMAT_1.nodes && links <= FORMAT_1.links && !is_box(set)
}

/// The number of the format in which a certificate of the network and the set is made: the first where it can be.
pub fn made_format(net: &Network, set: &DemandSet) -> u32
    ensures { result ≡ made_format net.now set.now }
{
    if fits_first_format(net, set) {
        FORMAT_1.format
    } else {
        FORMAT_2.format
    }
}

/// The set in the format: in the second a margin stands as its box.
pub fn set_in(alloc: Global, format: u32, set: DemandSet) -> Result<DemandSet, Memory>
    requires { HasSmallMargin set }
    ensures { IfOk result (λ s. s ≡ set_in format set) }
{
    if format == FORMAT_2.format {
        box_of(alloc, set)
    } else {
        Ok(set)
    }
}
