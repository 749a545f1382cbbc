// Retired files that are still on the disk, and which of them a store lists again.
ghost use Rattle.std.specs.Prelude.{◌≡◌, ◌<◌, true, false, IfOk, IfSome};
ghost use Rattle.store_manifest.specs.Entries.{InOrder};
ghost use Rattle.tier_store.specs.Limbo.{ListsPlace, Stay};
ghost use Rattle.tier_store.specs.Revival.{AreUnlistedIn, IsUnlistedOf};
ghost use Rattle.tier_store.specs.Reviving.{IsBehind, SaysBehind};
ghost use Rattle.tier_store.specs.Seen.{AtEach};

use disk_model::FileName;
use std::alloc::{AllocError, Global};
use store_manifest::{Entry, Manifest, begins_at};

/// A file that a retirement has taken from its store's list, or that a retirement in doubt would take: it stays on the
/// disk while a pin names it, and until it is swept.
#[derive(Drop)]
pub struct Retired {
    /// The file's name.
    pub name: FileName,
    /// What was listed of it.
    pub entry: Entry,
}

// Takes from limbo what its store lists again.
pub(crate) fn leave_listed(manifests: &[Manifest], limbo: &mut Vec<Retired>)
    ensures { AtEach manifests.now (λ i m. InOrder m.entries)
        → Stay (λ r. ListsPlace manifests.now r → ⊥) (ListsPlace manifests.now) limbo.old.items limbo.new.items }
{
    limbo.retain(|file| is_unlisted(manifests, file));
}

// The entries of the files in limbo of a store that it doesn't list.
pub(crate) fn unlisted_entries(
    alloc: Global,
    manifests: &[Manifest],
    limbo: &[Retired],
    store: u8,
) -> Result<Vec<Entry>, AllocError>
    ensures { AtEach manifests.now (λ i m. InOrder m.entries)
        → IfOk result (λ entries. AreUnlistedIn manifests.now store limbo.now entries.items) }
{
    let mut entries = Vec::new(alloc);
    for file in limbo {
        let unlisted = is_unlisted_of(manifests, file, store);
        if unlisted {
            entries.push(file.entry)?;
        }
    }
    Ok(entries)
}

// Whether a file is of the store, which doesn't list it.
fn is_unlisted_of(manifests: &[Manifest], file: &Retired, store: u8) -> bool
    ensures unlisted { AtEach manifests.now (λ i m. InOrder m.entries) → result ≡ true
        → IsUnlistedOf manifests.now store file.now }
    ensures other { AtEach manifests.now (λ i m. InOrder m.entries) → result ≡ false
        → IsUnlistedOf manifests.now store file.now → ⊥ }
{
    file.name.store == store && is_unlisted(manifests, file)
}

// The entry of the file in limbo of a store, of a row, and of the partition that holds a moment, where that lies
// behind the row's last entry.
pub(crate) fn entry_behind(
    limbo: &[Retired],
    store: u8,
    row: u32,
    last: Option<Entry>,
    t: u64,
) -> Option<Entry>
    ensures { SaysBehind limbo.now store row last t result }
{
    for file in limbo {
        if is_behind(file, store, row, &last, t) {
            return Some(file.entry);
        }
    }
    None
}

// Whether it is this one.
fn is_behind(file: &Retired, store: u8, row: u32, last: &Option<Entry>, t: u64) -> bool
    ensures behind { result ≡ true → IsBehind store row last.now t file.now }
    ensures other { result ≡ false → IsBehind store row last.now t file.now → ⊥ }
{
    let part = file.entry.part;
    file.name.store == store
        && file.entry.series == row
        && part.start <= t
        && t < part.end
        && begins_behind(last, part.start)
}

// Whether the partition of an entry, if there is one, begins before this moment.
fn begins_behind(last: &Option<Entry>, start: u64) -> bool
    ensures behind { result ≡ true → IfSome last.now (λ e. e.part.start < start) }
    ensures other { result ≡ false → IfSome last.now (λ e. e.part.start < start) → ⊥ }
{
    match last {
        Some(last) => last.part.start < start,
        None => true,
    }
}

// Whether the manifest of a file's store lists none of its row and partition.
pub(crate) fn is_unlisted(manifests: &[Manifest], file: &Retired) -> bool
    ensures unlisted { AtEach manifests.now (λ i m. InOrder m.entries) → result ≡ true
        → ListsPlace manifests.now file.now → ⊥ }
    ensures listed { AtEach manifests.now (λ i m. InOrder m.entries) → result ≡ false
        → ListsPlace manifests.now file.now }
{
    let store = usize::from(file.name.store);
    if store == 0 || store > manifests.len() {
        return true;
    }
    let entries = manifests[store - 1].entries(file.entry.series);
    !begins_at(entries, file.entry.part.start)
}
