// The manifest on the disk: each commit makes its changes whole or not at all, also across a crash.
ghost use Rattle.std.specs.Prelude.{◌≡◌, ◌≢◌, ◌==◌, ◌≤◌, ◌+◌, [], ◌∷◌, ℕ, filter, length, IfOk, IfErr, OnOk, OnErr};
ghost use Rattle.std.specs.Prelude.{IsErrOf, IsTrue, true, false, Ok};
ghost use Rattle.std.specs.Int.{IsInRange};
ghost use Rattle.disk_model.specs.Files.{Name, Rose};
ghost use Rattle.disk_model.specs.Past.{Passes};
ghost use Rattle.gate_journal.specs.Batches.{greatest_batch};
ghost use Rattle.gate_journal.specs.Generations.{IsOwn, AtOwn, HasOneOf};
ghost use Rattle.gate_journal.specs.Journal.{IsSettledWith, is_of_commit, OnlyRemoves};
ghost use Rattle.gate_journal.specs.DiskShown.{shown_by};
ghost use Rattle.store_manifest.specs.declared.error.ManifestErr.TheVariants.{GranularityDiffers};
ghost use Rattle.store_manifest.specs.Batches.{config, batch_of, whole, Configured, Folds};
ghost use Rattle.store_manifest.specs.Entries.{all_changed, AllCanFollow, AreEntries};
ghost use Rattle.store_manifest.specs.Listing.{entries_of, AreLists};
ghost use Rattle.store_manifest.specs.Manifest.{manifest_name, CommitsEntries, IsKept, IsUnsure, IsLong};
ghost use Rattle.store_manifest.specs.Manifest.{EndsEntries, EndsGate, EndsReview, ReviewsEntries};
ghost use Rattle.store_manifest.specs.Manifest.{IsLoaded, IsRefused, LeavesLoaded};

use crate::folding::{Folded, Folding};
use crate::listing::Listing;
use crate::lists::SeriesLists;
use crate::whole::{encode_whole, is_long};
use crate::writing::encode;
use crate::{AllEntries, Change, Entry, ManifestErr};
use disk_model::{Disk, DiskErr, FileName};
use gate_journal::Journal;
use partition_names::Granularity;
use std::alloc::{AllocError, Global};
use std::marker::Model;

/// Which partition files a store lists, and how much of each. Contracts see the state of its journal, its granularity,
/// its entries in the order of series and time, and the entries that the last commit was to make.
#[derive(Drop)]
pub struct Manifest {
    journal: Journal,
    granularity: Granularity,
    listing: Listing,
    batch: Vec<u8>,
}

impl Model for Manifest {
    ghost use Rattle.store_manifest.specs.Listing.{entries_of, next_of, IsListing};
    ghost use Rattle.store_manifest.specs.Manifest.{ManifestState};

    ghost Value = { ManifestState };

    ghost view = { λ m. record {
      journal = m.journal;
      granularity = m.granularity;
      entries = entries_of m.listing.lists.listed.entries;
      next = next_of m.listing;
    } };

    ghost invariant = { λ m. IsListing m.listing };
}

impl Manifest {
    /// The manifest of a store, from 1 to 3. Where its journal has no batch, one that says
    /// the granularity is committed.
    pub fn load<D: Disk>(
        alloc: Global,
        disk: &mut D,
        store: u8,
        g: Granularity,
    ) -> Result<Manifest, ManifestErr>
        requires store { IsInRange 1 3 store }
        requires unopened { IsTrue D.tells → (n : Name) → IsOwn (manifest_name store) n → D.opened disk.old n ≡ 0 }

        ensures loaded { IfOk result (λ m. IsLoaded D.Disk store g disk.old m disk.new) }
        ensures refused { IsRefused D.Disk store g disk.old disk.new result }
        ensures leaves { IsTrue D.tells
            → LeavesLoaded g (manifest_name store) (shown_by D.Disk disk.old) (shown_by D.Disk disk.new) }
        ensures faults { D.faults disk.old ≤ D.faults disk.new }
    {
        let name = manifest_file(alloc, store)?;
        let mut folding = Folding::new(alloc);
        let journal = Journal::load_into(alloc, disk, &name, &mut folding)?;
        match folding.folded {
            Folded::Nothing => {
                let manifest = configure(alloc, disk, journal, g)?;
                Ok(manifest)
            }
            Folded::Good(kept, lists) => opened(alloc, journal, kept, lists, g),
            Folded::Bad(number) => Err(ManifestErr::BadBatch { number }),
        }
    }

    /// Whether it may commit: no commit has failed since it was loaded or reviewed.
    pub fn is_sound(&self) -> bool
        ensures { result ≡ self.now.journal.sound }
    {
        self.journal.is_sound()
    }

    /// The number of the store whose files it lists, which its own name ends with.
    pub fn store(&self) -> u8
        ensures { (store : ℕ) → store ≤ 9 → self.now.journal.name ≡ manifest_name store → result ≡ store }
    {
        match self.journal.name().path.last() {
            Some(digit) => digit.saturating_sub(b'0'),
            None => 0,
        }
    }

    /// How long its partitions are.
    pub fn granularity(&self) -> Granularity
        ensures { result ≡ self.now.granularity }
    {
        self.granularity
    }

    /// The entries of a series, oldest first. It copies nothing and passes by the entries of other series.
    pub fn entries(&self, series: u32) -> &[Entry]
        ensures { result.now ≡ filter (λ e. e.series == series) self.now.entries }
    {
        self.listing.entries(series)
    }

    /// The entries of all series, in the order of series and time, without a copy.
    pub fn all(&self) -> AllEntries<'_>
        ensures { result ≡ self.now.entries }
    {
        self.listing.all()
    }

    /// Makes all the changes, one after another, or none of them. Each is made in place, and costs the entries behind
    /// it in its series. With no change it leaves the disk alone. Where the journal is long for the entries, it is
    /// begun anew first with a batch that lists them: where it has at least as many bytes as four such batches, and at
    /// least 1,048,576, and that batch at most 1,073,741,824.
    ///
    /// After `Fault` the manifest isn't sound: it is reviewed, or loaded again. After `Memory` it lists what it listed;
    /// its journal may have begun anew where it was long, and nothing was done where it wasn't.
    pub fn commit<D: Disk>(&mut self, disk: &mut D, changes: &[Change]) -> Result<(), DiskErr>
        requires sound { IsTrue self.old.journal.sound }
        requires follow { AllCanFollow self.old.granularity self.old.entries changes.now }
        requires few { length (batch_of changes.now) ≤ greatest_batch }
        requires kept { IsTrue D.tells → IsKept self.old (shown_by D.Disk disk.old) }

        // A crash at any moment leaves the entries from before it or those with all the changes, and of every name that
        // isn't the manifest's what it might have left before.
        ensures commits { IsTrue D.tells
            → CommitsEntries Folds (all_changed self.old.entries changes.now) result self.old self.new
            (shown_by D.Disk disk.old) (shown_by D.Disk disk.new) }
        ensures ends { EndsEntries self.old self.new (all_changed self.old.entries changes.now) result }
        ensures nothing { changes.now ≡ [] → (result ≡ Ok tt) × (disk.new ≡ disk.old) }

        ensures gate { changes.now ≢ []
            → OnOk result (EndsGate (length (whole self.old.granularity self.old.entries)) (length (batch_of changes.now))
            self.old.journal.current.place self.new.journal.current.place) }
        ensures untouched { let size = length (whole self.old.granularity self.old.entries) in
            IsErrOf result DiskErr.Memory
            → (IsLong (self.old.journal.current.place + 1) size → ⊥)
            → (self.new.journal ≡ self.old.journal) × (disk.new ≡ disk.old) }
        ensures faults { D.faults disk.old ≤ D.faults disk.new }
        ensures cause { IsErrOf result DiskErr.Fault → Rose (D.faults disk.old) (D.faults disk.new) }
    {
        if changes.is_empty() {
            return Ok(());
        }
        self.listing.prepare(changes)?;
        self.shorten(disk)?;
        self.add(disk, changes)
    }

    /// After a commit that failed: takes its changes in where the journal has them. The manifest is sound afterwards.
    /// After an error it lists what it listed, and can be reviewed again. It takes no memory of its own, since the
    /// commit took it: `Memory` is the disk's.
    pub fn review<D: Disk>(&mut self, disk: &mut D) -> Result<(), DiskErr>
        requires unsound { self.old.journal.sound ≡ false }
        requires doubt { IsTrue D.tells → IsUnsure self.old (shown_by D.Disk disk.old) }

        ensures ends { EndsReview result self.old self.new }

        // A crash at any moment leaves the entries from before the commit or those that it was to make, and of every
        // name that isn't the manifest's what it might have left before.
        ensures reviews { IsTrue D.tells
            → ReviewsEntries result self.old self.new (shown_by D.Disk disk.old) (shown_by D.Disk disk.new) }

        // After a commit it changes no file and no image of a crash, and after an error the manifest is as before.
        // After a journal that was to begin anew it changes only the file that it removes.
        ensures one_file { IsTrue D.tells → OnlyRemoves self.old.journal (D.files disk.old) (D.files disk.new)
            × Passes (OnlyRemoves self.old.journal) (D.past disk.old) (D.past disk.new) }
        ensures quiet { IsTrue D.tells → is_of_commit self.old.journal.pending ≡ true
            → (D.files disk.new ≡ D.files disk.old)
            × Passes (λ a b. b ≡ a) (D.past disk.old) (D.past disk.new)
            × (D.opened disk.new ≡ D.opened disk.old) }
        ensures unchanged { is_of_commit self.old.journal.pending ≡ true → OnErr result (self.new ≡ self.old) }

        ensures faults { D.faults disk.old ≤ D.faults disk.new }
        ensures cause { IsErrOf result DiskErr.Fault → Rose (D.faults disk.old) (D.faults disk.new) }
    {
        let of_commit = self.journal.is_commit_open();
        if self.journal.review(disk)? && of_commit {
            self.listing.take();
        }
        Ok(())
    }

    // Begins the journal anew with a batch that lists all entries, where it is long for them.
    fn shorten<D: Disk>(&mut self, disk: &mut D) -> Result<(), DiskErr>
        requires sound { IsTrue self.old.journal.sound }
        requires kept { IsTrue D.tells → IsKept self.old (shown_by D.Disk disk.old) }
        ensures commits { IsTrue D.tells → CommitsEntries Configured self.old.entries result self.old self.new
            (shown_by D.Disk disk.old) (shown_by D.Disk disk.new) }
        ensures state { (self.new.granularity ≡ self.old.granularity)
            × (self.new.journal.name ≡ self.old.journal.name)
            × (self.new.entries ≡ self.old.entries)
            × (self.new.next ≡ self.old.next) }
        ensures begun { let size = length (whole self.old.granularity self.old.entries) in
            IsLong (self.old.journal.current.place + 1) size → OnOk result (self.new.journal.current.place ≡ size + 5) }
        ensures grown { let size = length (whole self.old.granularity self.old.entries) in
            (IsLong (self.old.journal.current.place + 1) size → ⊥)
            → OnOk result (self.new.journal.current.place ≡ self.old.journal.current.place) }
        ensures untouched { let size = length (whole self.old.granularity self.old.entries) in
            (IsLong (self.old.journal.current.place + 1) size → ⊥)
            → (result ≡ Ok tt) × (self.new.journal ≡ self.old.journal) × (disk.new ≡ disk.old) }
        ensures sound { (IsErrOf result DiskErr.Fault → ⊥) → self.new.journal.sound ≡ true }
        ensures fault { IsErrOf result DiskErr.Fault
            → (self.new.journal.sound ≡ false) × Rose (D.faults disk.old) (D.faults disk.new) }
        ensures faults { D.faults disk.old ≤ D.faults disk.new }
    {
        if !is_long(self.journal.len(), self.listing.all()) {
            return Ok(());
        }
        encode_whole(&mut self.batch, self.granularity, self.listing.all())?;
        self.journal.checkpoint(disk, &self.batch)
    }

    // Adds the batch of these changes, for which the listing is prepared.
    fn add<D: Disk>(&mut self, disk: &mut D, changes: &[Change]) -> Result<(), DiskErr>
        requires sound { IsTrue self.old.journal.sound }
        requires some { changes.now ≢ [] }
        requires prepared { self.old.next ≡ all_changed self.old.entries changes.now }
        requires follow { AllCanFollow self.old.granularity self.old.entries changes.now }
        requires few { length (batch_of changes.now) ≤ greatest_batch }
        requires kept { IsTrue D.tells → IsKept self.old (shown_by D.Disk disk.old) }
        ensures commits { IsTrue D.tells → CommitsEntries Configured self.old.next result self.old self.new
            (shown_by D.Disk disk.old) (shown_by D.Disk disk.new) }
        ensures entries { OnOk result (self.new.entries ≡ self.old.next) }
        ensures state { (self.new.granularity ≡ self.old.granularity)
            × (self.new.journal.name ≡ self.old.journal.name) }
        ensures placed { OnOk result
            (self.new.journal.current.place ≡ self.old.journal.current.place + (5 + length (batch_of changes.now))) }
        ensures sound { OnOk result (self.new.journal.sound ≡ true) }
        ensures doubtful { OnErr result ((self.new.entries ≡ self.old.entries) × (self.new.next ≡ self.old.next)) }
        ensures fault { IsErrOf result DiskErr.Fault
            → (self.new.journal.sound ≡ false) × Rose (D.faults disk.old) (D.faults disk.new) }
        ensures memory { IsErrOf result DiskErr.Memory → (self.new.journal ≡ self.old.journal) × (disk.new ≡ disk.old) }
        ensures faults { D.faults disk.old ≤ D.faults disk.new }
    {
        encode(&mut self.batch, changes)?;
        self.journal.commit(disk, &self.batch)?;
        self.listing.take();
        Ok(())
    }
}

impl Manifest {
    ghost use Rattle.store_manifest.specs.Listing.{next_of, IsListing};

    fn of(journal: Journal, granularity: Granularity, listing: Listing, alloc: Global) -> Manifest
        requires { IsListing listing }
        ensures { result ≡ record {
          journal = journal;
          granularity = granularity;
          entries = entries_of listing.lists.listed.entries;
          next = next_of listing;
        } }
    {
        Manifest {
            journal,
            granularity,
            listing,
            batch: Vec::new(alloc),
        }
    }
}

// Commits the batch that says the granularity, to a journal that has none.
fn configure<D: Disk>(
    alloc: Global,
    disk: &mut D,
    mut journal: Journal,
    g: Granularity,
) -> Result<Manifest, DiskErr>
    requires sound { IsTrue journal.sound }
    requires settled { IsTrue D.tells → IsSettledWith journal (shown_by D.Disk disk.old) [] }
    ensures kept { IsTrue D.tells → IfOk result (λ m. IsKept m (shown_by D.Disk disk.new)) }
    ensures are { IfOk result (λ m. AreEntries g m.entries) }
    ensures manifest { IfOk result (λ m.
        (m.journal.name ≡ journal.name) × (m.granularity ≡ g) × (m.journal.sound ≡ true) × (m.entries ≡ [])) }
    ensures any_moment { IsTrue D.tells
        → Passes (AtOwn journal.name (HasOneOf journal.name [] (config g ∷ []))) (D.past disk.old) (D.past disk.new) }
    ensures elsewhere { IsTrue D.tells → (n : Name) → (IsOwn journal.name n → ⊥)
        → D.files disk.new n ≡ D.files disk.old n }
    ensures opened { IsTrue D.tells → D.opened disk.new ≡ D.opened disk.old }
    ensures faults { D.faults disk.old ≤ D.faults disk.new }
    ensures cause { IsErrOf result DiskErr.Fault → Rose (D.faults disk.old) (D.faults disk.new) }
{
    journal.commit(disk, &[1, g.number()])?;
    Ok(Manifest::of(
        journal,
        g,
        Listing::of(alloc, SeriesLists::new(alloc)),
        alloc,
    ))
}

// The manifest of a journal whose batches say a granularity and make these lists.
fn opened(
    alloc: Global,
    journal: Journal,
    kept: Granularity,
    lists: SeriesLists,
    asked: Granularity,
) -> Result<Manifest, ManifestErr>
    requires { AreLists lists.listed.entries }
    ensures good { IfOk result (λ m. (m.journal ≡ journal) × (m.granularity ≡ asked) × (kept ≡ asked)
        × (m.entries ≡ entries_of lists.listed.entries)) }
    ensures differs { IfErr result (λ e. (e ≡ GranularityDiffers kept asked) × (kept ≢ asked)) }
{
    if kept != asked {
        return Err(ManifestErr::GranularityDiffers { kept, asked });
    }
    Ok(Manifest::of(journal, kept, Listing::of(alloc, lists), alloc))
}

/// The name of the file of a store's manifest.
pub fn manifest_file(alloc: Global, store: u8) -> Result<FileName, AllocError>
    requires { store ≤ 9 }
    ensures { IfOk result (λ name. name ≡ manifest_name store) }
{
    let mut path = b"manifest".to_vec(alloc)?;
    path.push(b'0' + store)?;
    Ok(FileName { store: 0, path })
}
