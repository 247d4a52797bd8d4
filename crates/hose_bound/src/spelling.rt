//! Hose certificates are printed and read back, and read and printed again.
ghost use Rattle.std.specs.Prelude.{◌≡◌, ◌^◌, ◌<◌, Err, IfErr, IfOk};
ghost use Rattle.te_model.specs.Network.{node_count, link_count};
ghost use Rattle.hose_bound.specs.Reading.{GivesCertOrMemory, GivesHoseCert};
ghost use Rattle.hose_bound.specs.Rules.{IsValidHoseCert};

use crate::fault::HoseFault;
use crate::hose::HoseCert;
use crate::reader::read;
use crate::writer::print;
use std::alloc::Global;
use te_model::Network;

/// Prints the hose certificate and reads it back: what [`print`] writes, [`read`] takes for the same hose certificate.
pub fn print_and_read(alloc: Global, net: &Network, cert: &HoseCert) -> Result<HoseCert, HoseFault>
    requires nodes { node_count net.now < 2 ^ 32 }
    requires links { link_count net.now < 2 ^ 32 }
    requires cert { IsValidHoseCert net.now cert.now }
    ensures same { GivesCertOrMemory result cert.now }
{
    let file = print(alloc, cert)?;
    read(alloc, net, file.as_slice())
}

/// Reads the file and prints it again: what [`read`] takes, [`print`] writes byte for byte.
pub fn read_and_print(alloc: Global, net: &Network, bytes: &[u8]) -> Result<Vec<u8>, HoseFault>
    requires nodes { node_count net.now < 2 ^ 32 }
    requires links { link_count net.now < 2 ^ 32 }
    ensures same { IfOk result (λ file. file.items ≡ bytes.now) }

    // It is refused as [`read`] refuses it, but for want of memory.
    ensures refused { IfErr result (λ fault. GivesHoseCert net.now bytes.now (Err fault)) }
{
    let cert = read(alloc, net, bytes)?;
    Ok(print(alloc, &cert)?)
}
