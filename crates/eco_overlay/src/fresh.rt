//! New statements of NETS, and their number.

ghost use Rattle.std.specs.Prelude.{◌≡◌, ◌+◌, ◌++◌, [], ℕ, List, map, not, length, OnOk, IfOk};
ghost use Rattle.std.specs.List.{filter, flat_map};
ghost use Rattle.eco_def.specs.View.{design_in};
ghost use Rattle.eco_issued_laws.specs.Issued.{fresh_text};
ghost use Rattle.eco_overlay.specs.NetChanges.{fresh_of, changes_in, AreCountable};
ghost use Rattle.eco_overlay.specs.Overlays.{count_edits, appended};

use crate::net_changes::NetChanges;
use crate::overlay::Overlay;
use crate::statement::put_fresh;
use eco_def::{Design, NetStatement};
use std::alloc::{AllocError, Global};

/// How many statements are in NETS.
fn ordinary_count(nets: &[NetStatement]) -> usize
    ensures { result ≡ length (filter (λ s. not s.special) nets.now) }
{
    nets.iter().filter(|net| !net.special).count()
}

/// Adds the edit of the count word, where there are new statements.
pub fn add_count(
    overlay: &mut Overlay,
    alloc: Global,
    design: &Design,
    changes: &NetChanges<'_>,
) -> Result<(), AllocError>
    requires { AreCountable design.now }
    ensures { OnOk result ((text : List ℕ) → overlay.new ≡ overlay.old ++ count_edits text (changes_in changes.now) (design_in text design.now).nets (changes_in changes.now).fresh) }
{
    if changes.fresh.is_empty() {
        return Ok(());
    }
    let count = ordinary_count(design.nets.as_slice()) + changes.fresh.len();
    let numeral = format!(in alloc; "{count}")?;
    overlay.add(
        design.net_count.start,
        design.net_count.end,
        numeral.as_bytes(),
    )
}

/// The new statements.
fn fresh_statements(
    alloc: Global,
    fresh: &[&[u8]],
    changes: &NetChanges<'_>,
) -> Result<Vec<u8>, AllocError>
    ensures { IfOk result (λ bytes. bytes.items ≡ flat_map (λ n. fresh_text (fresh_of changes.now n)) fresh.now) }
{
    let mut bytes = Vec::new(alloc);
    for name in fresh {
        put_fresh(&mut bytes, name, &changes.added)?;
    }
    Ok(bytes)
}

/// Adds the edit before the END of NETS, where there are new statements.
pub fn add_fresh(
    overlay: &mut Overlay,
    alloc: Global,
    design: &Design,
    changes: &NetChanges<'_>,
) -> Result<(), AllocError>
    ensures { OnOk result ((text : List ℕ) → overlay.new ≡ overlay.old ++ appended (design_in text design.now).nets (changes_in changes.now).fresh) }
{
    if changes.fresh.is_empty() {
        return Ok(());
    }
    let bytes = fresh_statements(alloc, &changes.fresh, changes)?;
    overlay.add(design.nets_end, design.nets_end, &bytes)
}
