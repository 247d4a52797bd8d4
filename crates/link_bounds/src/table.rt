//! The table of the needs.
ghost use Rattle.std.specs.Prelude.{◌≡◌, ◌<◌, ◌++◌, ◌∷◌, IfOk, List, OnOk, decimal, length};
ghost use Rattle.te_model.specs.declared.certificate.Certificate.{Certificate};
ghost use Rattle.te_model.specs.declared.route.PairRoutes.{PairRoutes};
ghost use Rattle.te_model.specs.Laws.{LinksJoinNodes};
ghost use Rattle.te_model.specs.Network.{link_count};
ghost use Rattle.ratio_checker.specs.Checked.{CanCheckHead};
ghost use Rattle.ratio_checker.specs.Shares.{AreSharesOn, HasShares};
ghost use Rattle.link_bounds.specs.Feeds.{HasNeeds};
ghost use Rattle.link_bounds.specs.Needs.{has_share};
ghost use Rattle.link_bounds.specs.Table.{bounds_text, need_row, row_of, row_where};

use crate::needs::{LinkNeed, has_share};
use ratio_checker::link_pairs::LinkPairs;
use ratio_checker::share_table::ShareTable;
use std::alloc::Global;
use te_model::{Head, Memory, Network};

// Writes a comma and a field.
fn print_field(text: &mut Vec<u8>, field: &str) -> Result<(), Memory>
    ensures { OnOk result (text.new.items ≡ text.old.items ++ 44 ∷ field.now) }
{
    text.push(b',')?;
    text.extend_from_slice(field.as_bytes())?;
    Ok(())
}

// Writes a comma and a number.
fn print_number(text: &mut Vec<u8>, number: u128) -> Result<(), Memory>
    ensures { OnOk result (text.new.items ≡ text.old.items ++ 44 ∷ decimal number) }
{
    print_field(text, itoa::Buffer::new().format(number))
}

// Writes the row of a link, with the names of its ends.
fn print_row(
    text: &mut Vec<u8>,
    source: &str,
    target: &str,
    capacity: u64,
    row: LinkNeed,
) -> Result<(), Memory>
    ensures { OnOk result (text.new.items ≡ text.old.items ++ row_of source.now target.now capacity row) }
{
    text.extend_from_slice(itoa::Buffer::new().format(row.link).as_bytes())?;
    print_field(text, source)?;
    print_field(text, target)?;
    print_number(text, capacity as u128)?;
    print_number(text, row.need)?;
    text.push(b'\n')?;
    Ok(())
}

// Writes the row of a link of the network.
fn print_need(text: &mut Vec<u8>, network: &Network, row: LinkNeed) -> Result<(), Memory>
    requires link { row.link < link_count network.now }
    requires ends { LinksJoinNodes network.now }
    ensures { OnOk result (text.new.items ≡ text.old.items ++ need_row network.now row) }
{
    let link = network.links.as_slice()[row.link as usize];
    let source = &network.names.as_slice()[link.tail as usize];
    let target = &network.names.as_slice()[link.head as usize];
    print_row(text, source.as_str(), target.as_str(), link.capacity, row)
}

// Writes the row where some pair sends over the link, on which these are the shares.
fn print_shared(
    text: &mut Vec<u8>,
    network: &Network,
    shares: &LinkPairs,
    row: LinkNeed,
) -> Result<(), Memory>
    requires link { row.link < link_count network.now }
    requires ends { LinksJoinNodes network.now }
    ensures { (routes : List PairRoutes) → AreSharesOn routes row.link shares.now →
        OnOk result (text.new.items ≡ text.old.items ++ row_where (has_share routes row.link) network.now row) }
{
    if has_share(shares) {
        print_need(text, network, row)?;
    }
    Ok(())
}

// The table of a head with these shares, and with these needs of its links.
pub fn table_text(
    alloc: Global,
    head: &Head,
    shares: &ShareTable,
    needs: &[u128],
) -> Result<Vec<u8>, Memory>
    requires head { CanCheckHead head.now }
    requires ends { LinksJoinNodes head.now.network }
    requires shares { HasShares head.now.routes (link_count head.now.network) shares.now }
    requires count { length needs.now ≡ link_count head.now.network }
    ensures { (c : Certificate) → c.head ≡ head.now → HasNeeds c needs.now → IfOk result (λ text. text.items ≡ bounds_text c) }
{
    let mut text = Vec::from_slice(alloc, b"link,source,target,capacity,need\n")?;
    for e in 0..needs.len() {
        let row = LinkNeed {
            link: e as u32,
            need: needs[e],
        };
        print_shared(&mut text, &head.network, shares.on(row.link), row)?;
    }
    Ok(text)
}
