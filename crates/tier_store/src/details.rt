// What is told of a variable.
ghost use Rattle.std.specs.Prelude.{◌≡◌, ◌≤◌, ◌<◌, List, Ok, Some, None, length, slice_get, IfOk, IsErrOf, IsTrue};
ghost use Rattle.act_model.specs.Details.{last_time};
ghost use Rattle.act_model.specs.declared.acts.Answer.TheVariants.{NoSuchVariable};
ghost use Rattle.disk_model.specs.Files.{Rose};
ghost use Rattle.durable_write.specs.Ends.{end_of_disk};
ghost use Rattle.series_model.specs.Series.{over};
ghost use Rattle.series_model.specs.declared.sample.Sample.{Sample};
ghost use Rattle.tier_store.specs.Stores.{Stores, samples_in, whole_in};
ghost use Rattle.tier_store.specs.Seen.{seen, SameMemory};
ghost use Rattle.tier_store.specs.Change.{Has, IsKnown, OnlyReads};
ghost use Rattle.tier_store.specs.Counting.{OnlyReadsDisk, behind};
ghost use Rattle.tier_store.specs.Details.{IsDescribed, IsTally, SaysDescribed};
ghost use Rattle.tier_store.specs.Frame.{Frame};
ghost use Rattle.tier_store.specs.Opening.{end_of_answer};
ghost use Rattle.tier_store.specs.Pinned.{seen_all};
ghost use Rattle.tier_store.specs.Pinning.{HasNoName, entries_of};
ghost use Rattle.tier_store.specs.Telling.{ReadsOf};
ghost use Rattle.tier_store.specs.Tallying.{Adds, RiseFrom, end_of_files, entries_in, entries_of_line, listed_count};

use crate::TierStore;
use crate::opening_pieces::told;
use crate::pinning::copied;
use crate::tallying::{Tally, add_files, last_listed, none, with_tail};
use act_model::{Answer, Details};
use disk_model::{Disk, DiskErr};
use series_model::Samples;
use store_manifest::{Entry, Manifest};

// What the manifest at this place lists of a row.
fn own_entries(manifests: &[Manifest], i: usize, row: u32) -> &[Entry]
    requires { i < length manifests.now }
    ensures { result.now ≡ entries_of row (slice_get manifests.now i) }
{
    manifests[i].entries(row)
}

impl<D: Disk> TierStore<D> {
    // Adds the samples that are held of a row itself to those before them, by its files in the
    // order in which they are read.
    fn tally_row(&mut self, row: u32, tally: Tally) -> Result<Tally, DiskErr>
        requires row { row < length self.old.catalogue.rows }
        requires three { length self.old.manifests.items ≡ 3 }
        requires has { (held : Stores) × Has D.tells (seen D.Disk self.old) held }

        ensures tally { IsTrue D.tells → (held : Stores) (samples : List Sample)
            → Has D.tells (seen D.Disk self.old) held → IsTrue held.stands → IsTally samples tally
            → IfOk result (IsTally (over samples (samples_in row held))) }
        ensures listed { IfOk result (Adds tally (entries_in row self.old.manifests.items)) }
        ensures ends { IfOk result (λ t.
            behind t.last ≡ end_of_files (behind tally.last) (entries_in row self.old.manifests.items)) }
        ensures same { SameMemory self.old self.new }
        ensures reads { OnlyReadsDisk D.Disk self.old.disk self.new.disk }
        ensures faults { D.faults self.old.disk ≤ D.faults self.new.disk }
        ensures cause { IsErrOf result DiskErr.Fault → Rose (D.faults self.old.disk) (D.faults self.new.disk) }
    {
        let rows = self.catalogue.rows();
        let (alloc, disk) = (self.alloc, &mut self.disk);
        let long = own_entries(&self.manifests, 2, row);
        let tally = add_files(alloc, disk, 3, rows, long, tally)?;
        let medium = own_entries(&self.manifests, 1, row);
        let tally = add_files(alloc, disk, 2, rows, medium, tally)?;
        let short = own_entries(&self.manifests, 0, row);
        add_files(alloc, disk, 1, rows, short, tally)
    }

    // How many samples are held of the whole of a row, by the files of the rows of its line.
    fn tally_line(&mut self, row: u32) -> Result<Tally, DiskErr>
        requires three { length self.old.manifests.items ≡ 3 }
        requires has { (held : Stores) × Has D.tells (seen D.Disk self.old) held }

        ensures tally { IsTrue D.tells → (held : Stores) → Has D.tells (seen D.Disk self.old) held → IsTrue held.stands
            → IfOk result (IsTally (whole_in row held)) }
        ensures listed { let entries = entries_of_line row self.old.catalogue.rows self.old.manifests.items in
            RiseFrom 0 entries → IfOk result (λ t. t.count ≡ listed_count entries) }
        ensures ends { IfOk result (λ t.
            behind t.last ≡ end_of_files 0 (entries_of_line row self.old.catalogue.rows self.old.manifests.items)) }
        ensures same { SameMemory self.old self.new }
        ensures reads { OnlyReadsDisk D.Disk self.old.disk self.new.disk }
        ensures faults { D.faults self.old.disk ≤ D.faults self.new.disk }
        ensures cause { IsErrOf result DiskErr.Fault → Rose (D.faults self.old.disk) (D.faults self.new.disk) }
    {
        let line = self.catalogue.line(self.alloc, row)?;
        let mut tally = none();
        for id in &line {
            tally = self.tally_row(*id, tally)?;
        }
        Ok(tally)
    }

    /// How many samples the three stores hold of the whole of a row, which are those of the variable under all its
    /// names up to the row's. A sample that two stores list counts once. And the moments of the first and of the last.
    /// It needs that no change stands in doubt.
    ///
    /// A file is read that the samples before it reach into, as the file of an earlier store while a move is half
    /// done; all others count by their entries. Where by these each file of the rows begins behind those that are
    /// read before it, no file is read, and the number is the one that they say. Else nothing is said of it where
    /// the disk doesn't tell its files, or somebody has damaged listed ones. The last moment is always the latest
    /// one that the entries say.
    ///
    /// `Fault` comes only where the disk's count of faults rose in the call. `Memory` comes also
    /// where no `u64` has the number.
    pub fn tally(&mut self, row: u32) -> Result<Tally, DiskErr>
        requires row { row < length self.old.catalogue.rows }
        requires has { (held : Stores) × Has D.tells (seen D.Disk self.old) held }

        ensures tally { IsTrue D.tells → (held : Stores) → Has D.tells (seen D.Disk self.old) held → IsTrue held.stands
            → IfOk result (IsTally (whole_in row held)) }
        ensures listed { let entries = entries_of_line row self.old.catalogue.rows self.old.manifests.items in
            RiseFrom 0 entries → IfOk result (λ t. t.count ≡ listed_count entries) }
        ensures ends { IfOk result (λ t.
            behind t.last ≡ end_of_files 0 (entries_of_line row self.old.catalogue.rows self.old.manifests.items)) }
        ensures kept { (held : Stores) → Has D.tells (seen D.Disk self.old) held
            → Has D.tells (seen D.Disk self.new) held }
        ensures same { SameMemory self.old self.new }
        ensures frame { Frame D.tells (seen_all D.Disk self.old) (seen_all D.Disk self.new) }
        ensures reads { OnlyReads D.tells (seen D.Disk self.old) (seen D.Disk self.new) (end_of_disk result) }
    {
        self.tally_line(row)
    }

    // The moment of the last sample of a row itself by what is listed, but no earlier one than that given.
    fn last_own(&self, row: u32, before: Option<u64>) -> Option<u64>
        requires { length self.now.manifests.items ≡ 3 }
        ensures { behind result ≡ end_of_files (behind before) (entries_in row self.now.manifests.items) }
    {
        let last = last_listed(before, own_entries(&self.manifests, 2, row));
        let last = last_listed(last, own_entries(&self.manifests, 1, row));
        last_listed(last, own_entries(&self.manifests, 0, row))
    }

    /// The moment of the last sample that the three stores hold of the whole of a row, or `None` where they hold none:
    /// always the latest one that the entries say. It reads nothing and takes no memory, and may be asked while a
    /// change stands in doubt: it is then of what was held before.
    pub fn last_of(&self, row: u32) -> Option<u64>
        requires row { row < length self.now.catalogue.rows }
        requires known { (held : Stores) × IsKnown self.now.catalogue self.now.manifests.items held }
        ensures last { (held : Stores) → IsKnown self.now.catalogue self.now.manifests.items held → IsTrue held.stands
            → result ≡ last_time (whole_in row held) }
        ensures listed { behind result
            ≡ end_of_files 0 (entries_of_line row self.now.catalogue.rows self.now.manifests.items) }
    {
        let rows = self.catalogue.rows();
        let mut last = None;
        let mut next = Some(row);
        while let Some(id) = next {
            last = self.last_own(id, last);
            next = rows[id as usize].base;
        }
        last
    }

    // What is told of a row.
    fn describe(&mut self, row: u32, tail: &Samples) -> Result<Details, DiskErr>
        requires row { row < length self.old.catalogue.rows }
        requires three { length self.old.manifests.items ≡ 3 }
        requires has { (held : Stores) × Has D.tells (seen D.Disk self.old) held }

        ensures described { (held : Stores) → Has D.tells (seen D.Disk self.old) held
            → IfOk result (IsDescribed D.tells held row tail.now) }
        ensures same { SameMemory self.old self.new }
        ensures reads { OnlyReadsDisk D.Disk self.old.disk self.new.disk }
        ensures faults { D.faults self.old.disk ≤ D.faults self.new.disk }
        ensures cause { IsErrOf result DiskErr.Fault → Rose (D.faults self.old.disk) (D.faults self.new.disk) }
    {
        let durable = self.tally_line(row)?;
        let Some(accepted) = with_tail(durable, tail.items()) else {
            return Err(DiskErr::Memory);
        };
        let found = &self.catalogue.rows()[row as usize];
        Ok(Details {
            name: found.name.clone()?,
            about: copied(&found.about)?,
            state: found.state,
            accepted: accepted.count,
            durable: durable.count,
            first: accepted.first,
            last: accepted.last,
            files: [
                own_entries(&self.manifests, 0, row).len() as u64,
                own_entries(&self.manifests, 1, row).len() as u64,
                own_entries(&self.manifests, 2, row).len() as u64,
            ],
        })
    }

    // What is told of the row that has the name, if one has it.
    fn describe_named(&mut self, name: &[u8], tail: &Samples) -> Result<Answer<D::Reader>, DiskErr>
        requires three { length self.old.manifests.items ≡ 3 }
        requires has { (held : Stores) × Has D.tells (seen D.Disk self.old) held }

        ensures says { (held : Stores) → Has D.tells (seen D.Disk self.old) held
            → IfOk result (λ a. SaysDescribed D.tells name.now tail.now a held) }
        ensures unknown { HasNoName self.old.catalogue.rows name.now
            → (result ≡ Ok NoSuchVariable) × (self.new ≡ self.old) }
        ensures same { SameMemory self.old self.new }
        ensures reads { OnlyReadsDisk D.Disk self.old.disk self.new.disk }
        ensures faults { D.faults self.old.disk ≤ D.faults self.new.disk }
        ensures cause { IsErrOf result DiskErr.Fault → Rose (D.faults self.old.disk) (D.faults self.new.disk) }
    {
        let Some(row) = self.catalogue.find(name) else {
            return Ok(Answer::NoSuchVariable);
        };
        let details = self.describe(row, tail)?;
        Ok(Answer::Described(details))
    }

    /// Tells of a variable: its name, what else the catalogue has of it, its state, how many files each store lists
    /// of it under this name, how many of its samples are durable and how many are accepted, those under earlier
    /// names too, and the moments of the first and the last of these. `tail` stands for the accepted samples that no
    /// store lists yet; those of it count that are later than all that is durable. It needs that nothing stands in
    /// doubt, as after `review`.
    ///
    /// By the entries alone the samples that two stores list, as while a move is half done, would count twice; so a
    /// file is read that the samples before it reach into. Where the disk doesn't tell its files, or somebody has
    /// damaged listed ones, nothing is said of the four numbers.
    ///
    /// `NoSuchVariable` comes exactly where no row has the name. `DiskFault` comes only where the disk's count of
    /// faults rose in the call. `Memory` comes also where no `u64` has a number of samples.
    pub fn details(&mut self, name: &[u8], tail: &Samples) -> Answer<D::Reader>
        requires has { (held : Stores) × Has D.tells (seen D.Disk self.old) held }

        ensures says { (held : Stores) → Has D.tells (seen D.Disk self.old) held
            → ReadsOf (SaysDescribed D.tells name.now tail.now) (end_of_answer result) held }
        ensures unknown { HasNoName self.old.catalogue.rows name.now
            → (result ≡ NoSuchVariable) × (self.new ≡ self.old) }
        ensures kept { (held : Stores) → Has D.tells (seen D.Disk self.old) held
            → Has D.tells (seen D.Disk self.new) held }
        ensures same { SameMemory self.old self.new }
        ensures frame { Frame D.tells (seen_all D.Disk self.old) (seen_all D.Disk self.new) }
        ensures reads { OnlyReads D.tells (seen D.Disk self.old) (seen D.Disk self.new) (end_of_answer result) }
    {
        told(self.describe_named(name, tail))
    }
}
