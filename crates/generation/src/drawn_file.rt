//! The certificate of a drawn network: it is published as a file, and read from there.
ghost use Rattle.std.specs.Prelude.{◌≡◌, ◌≤◌, IfOk, IsTrue};
ghost use Rattle.te_model.specs.declared.certificate.Certificate.{Certificate};
ghost use Rattle.te_model.specs.Network.{is_well_formed, link_count};
ghost use Rattle.te_model.specs.Pairs.{AscendPairs};
ghost use Rattle.te_model.specs.Text.{Spells};
ghost use Rattle.scheme.specs.Reach.{AllReached, ArePairsOf};
ghost use Rattle.generation.specs.Summary.{IsDrawnFile};

use cert_text::{print, read};
use experiment::publish;
use racke_mix::Racke;
use scheme::SchemeFault;
use std::alloc::Global;
use te_model::{Certificate, DemandSet, Memory, Network, Pairs};

const BUDGET: u32 = 32;

/// The file of a certificate, for all matrices, of the routing over four trees of the seed, of which each pair keeps the 32 heaviest paths.
///
/// Each pair has a path in the network. The only error is `Memory`, where memory is wanting.
pub fn drawn_file(
    alloc: Global,
    network: &Network,
    pairs: &Pairs,
    seed: u64,
) -> Result<Vec<u8>, Memory>
    requires network { IsTrue (is_well_formed network.now) }
    requires links { 1 ≤ link_count network.now }
    requires pairs { ArePairsOf network.now pairs.now.list }
    requires ascending { AscendPairs pairs.now.list }
    requires reached { AllReached network.now pairs.now.list }
    ensures { IfOk result (λ file. IsDrawnFile seed network.now pairs.now.list file.items) }
{
    let scheme = four_trees(seed);
    match publish(alloc, &scheme, network, pairs, DemandSet::All, BUDGET) {
        Ok(certificate) => print(alloc, &certificate),
        Err(SchemeFault::Memory) => Err(Memory),
        Err(SchemeFault::NoPath(_)) => unreachable!(),
    }
}

// The routing over four trees of the seed.
fn four_trees(seed: u64) -> Racke
    ensures trees { result.trees ≡ 4 }
    ensures seed { result.seed ≡ seed }
{
    Racke { trees: 4, seed }
}

/// The certificate that the bytes spell. The only error is `Memory`, where memory is wanting.
pub fn read_back(alloc: Global, bytes: &[u8]) -> Result<Certificate, Memory>
    requires { (certificate : Certificate) × Spells bytes.now certificate }
    ensures { (certificate : Certificate) → Spells bytes.now certificate → IfOk result (λ read. read ≡ certificate) }
{
    match read(alloc, bytes) {
        Ok(certificate) => Ok(certificate),
        Err(cert_text::CertFault::Memory) => Err(Memory),
        Err(_) => unreachable!(),
    }
}
