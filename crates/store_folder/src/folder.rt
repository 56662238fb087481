//! A folder as a model: what a look sees, and what a crash may leave.

ghost use Rattle.std.specs.Prelude.{◌≡◌, ◌≢◌, ◌++◌, ◌≤◌, ℕ, List, [], length, Bool, Option, IsTrue, IsSome};
ghost use Rattle.std.specs.Prelude.{OnOk, OnErr, unwrap_or};
ghost use Rattle.store_base.specs.Counts.{HasRisen};
ghost use Rattle.store_folder.specs.Moments.{ComesFrom, NoMore, Elapses};
ghost use Rattle.store_folder.specs.Folder.{Elsewhere, ElsewhereOfBoth, FilesElsewhere, FilesElsewhereOfBoth};
ghost use Rattle.store_folder.specs.Folder.{Extends, Written, Renamed, LosesFile, EntriesAreKept, LeadsTo, Keeps};
ghost use Rattle.store_folder.specs.Folder.{EntriesStay, EntriesStayElsewhere, EntriesStayElsewhereOfBoth};

use std::io;

/// A folder of files, each of which has one name.
///
/// A crash may leave any bytes of any length in a file that was not synced since it was made. A file that was synced
/// keeps its bytes, whatever name it has later; if it was appended to since, a crash leaves after them any bytes, no
/// more than were appended. Until the folder's next sync a crash may undo a removal or a rename, and leave anything
/// under the name of a file that was made and under the old name of a renamed one.
///
/// Once a sync of a file has failed, the system may take for written what it did not write, as Linux does. Then no
/// later sync says anything of this file; a new file in its place can be synced.
///
/// Not in the model: hard links, other processes that change the folder, modes and owners.
pub trait Folder: Drop {
    /// Whether folders of this type keep these promises. A folder of the system has false here, since no program can
    /// check it.
    ghost honest: { Bool };

    /// What a look sees: the bytes of the file of each name.
    ghost seen: { Self → List ℕ → Option (List ℕ) };

    /// Which bytes a crash at this moment may leave in the file that has the name now, even if it is renamed later.
    ghost may_hold: { Self → List ℕ → List ℕ → Type 0 };

    /// Which folders a crash at this moment may leave.
    ghost may_leave: { Self → (List ℕ → Option (List ℕ)) → Type 0 };

    /// The moment, as a number that never falls.
    ghost moment: { Self → ℕ };

    /// Which folders a crash at that moment or a later one could have left, during a call or between two.
    ghost left_since: { Self → ℕ → (List ℕ → Option (List ℕ)) → Type 0 };

    /// Whether the entry of a name is on the disk: a crash leaves under the name this file, as a crash leaves the
    /// file's bytes, or nothing where there is none.
    ghost entry_kept: { Self → List ℕ → Type 0 };

    /// Whether no sync of the file that has the name has failed since the file was made.
    ghost trusted: { Self → List ℕ → Type 0 };

    /// How often a call failed. A count that stands at its greatest value is taken to have risen.
    ghost failures: { Self → ℕ };

    /// Which folder it is, whatever is done to it: of a folder that is lent, the name of the reference.
    ghost handle: { Self → ℕ } = { λ _. 0 };

    /// Makes an empty file of this name, and replaces one that is there.
    fn create(&mut self, name: &str) -> io::Result<()>
        ensures created { IsTrue honest → OnOk result (seen self.new name.now ≡ Some []) }
        ensures elsewhere { IsTrue honest → Elsewhere name.now (seen self.old) (seen self.new) }
        ensures files { IsTrue honest → FilesElsewhere name.now (may_hold self.old) (may_hold self.new) }
        ensures crash { IsTrue honest → ComesFrom (Elsewhere name.now) (may_leave self.old) (may_leave self.new) }
        ensures entries { IsTrue honest
            → EntriesStayElsewhere name.now (entry_kept self.old) (entry_kept self.new) }
        ensures fresh { IsTrue honest → OnOk result (trusted self.new name.now) }
        ensures trust { IsTrue honest → EntriesStayElsewhere name.now (trusted self.old) (trusted self.new) }
        ensures time { IsTrue honest → Elapses (moment self.old) (moment self.new)
            (left_since self.old) (left_since self.new) (may_leave self.new) }
        ensures count { failures self.old ≤ failures self.new }
        ensures fault { OnErr result (HasRisen (failures self.old) (failures self.new)) }
        ensures same { handle self.new ≡ handle self.old };

    /// Writes the bytes at the end of a file. What was synced before stays: a crash leaves in the file what it might
    /// have left before, and after it any bytes, no more than were appended.
    fn append(&mut self, name: &str, bytes: &[u8]) -> io::Result<()>
        requires { IsTrue honest → IsSome (seen self.old name.now) }
        ensures appended { IsTrue honest → OnOk result
            (seen self.new name.now ≡ Some (unwrap_or (seen self.old name.now) [] ++ bytes.now)) }
        ensures elsewhere { IsTrue honest → Elsewhere name.now (seen self.old) (seen self.new) }
        ensures file { IsTrue honest
            → Extends (length bytes.now) (may_hold self.old name.now) (may_hold self.new name.now) }
        ensures files { IsTrue honest → FilesElsewhere name.now (may_hold self.old) (may_hold self.new) }
        ensures crash { IsTrue honest → ComesFrom (Written name.now (may_hold self.new name.now))
            (may_leave self.old) (may_leave self.new) }
        ensures entries { IsTrue honest → EntriesStay (entry_kept self.old) (entry_kept self.new) }
        ensures trust { IsTrue honest → EntriesStay (trusted self.old) (trusted self.new) }
        ensures time { IsTrue honest → Elapses (moment self.old) (moment self.new)
            (left_since self.old) (left_since self.new) (may_leave self.new) }
        ensures count { failures self.old ≤ failures self.new }
        ensures fault { OnErr result (HasRisen (failures self.old) (failures self.new)) }
        ensures same { handle self.new ≡ handle self.old };

    /// Syncs a file. After an Ok, if no sync of it has failed, a crash leaves the file's bytes as they are, even if it
    /// is renamed later; and it leaves them under the name, if the entry of the name was on the disk. After an error a
    /// look may see other bytes of it, as some file systems then show the old ones again.
    fn sync_file(&mut self, name: &str) -> io::Result<()>
        requires { IsTrue honest → IsSome (seen self.old name.now) }
        ensures durable { IsTrue honest → OnOk result (trusted self.old name.now
            → (bytes : List ℕ) → may_hold self.new name.now bytes → seen self.old name.now ≡ Some bytes) }
        ensures seen { IsTrue honest → OnOk result (seen self.new name.now ≡ seen self.old name.now) }
        ensures elsewhere { IsTrue honest → Elsewhere name.now (seen self.old) (seen self.new) }
        ensures files { IsTrue honest → (n bytes : List ℕ) → may_hold self.new n bytes → may_hold self.old n bytes }
        ensures crash { IsTrue honest → NoMore (may_leave self.old) (may_leave self.new) }
        ensures entries { IsTrue honest → EntriesStay (entry_kept self.old) (entry_kept self.new) }
        ensures kept { IsTrue honest → OnOk result (trusted self.old name.now → entry_kept self.old name.now
            → Keeps name.now (seen self.old name.now) (may_leave self.new)) }
        ensures trust { IsTrue honest → OnOk result (EntriesStay (trusted self.old) (trusted self.new)) }
        ensures mistrust { IsTrue honest → EntriesStayElsewhere name.now (trusted self.old) (trusted self.new) }
        ensures time { IsTrue honest → Elapses (moment self.old) (moment self.new)
            (left_since self.old) (left_since self.new) (may_leave self.new) }
        ensures count { failures self.old ≤ failures self.new }
        ensures fault { OnErr result (HasRisen (failures self.old) (failures self.new)) }
        ensures same { handle self.new ≡ handle self.old };

    /// Renames a file, and replaces the one that has the new name. A crash leaves either of them under the new name.
    fn rename(&mut self, from: &str, to: &str) -> io::Result<()>
        requires apart { from.now ≢ to.now }
        requires there { IsTrue honest → IsSome (seen self.old from.now) }
        ensures renamed { IsTrue honest → OnOk result (seen self.new to.now ≡ seen self.old from.now) }
        ensures gone { IsTrue honest → OnOk result (seen self.new from.now ≡ None) }
        ensures elsewhere { IsTrue honest → ElsewhereOfBoth from.now to.now (seen self.old) (seen self.new) }
        ensures file { IsTrue honest → OnOk result
            ((bytes : List ℕ) → may_hold self.new to.now bytes → may_hold self.old from.now bytes) }
        ensures files { IsTrue honest → FilesElsewhereOfBoth from.now to.now (may_hold self.old) (may_hold self.new) }
        ensures crash { IsTrue honest → ComesFrom (Renamed from.now to.now (may_hold self.old from.now))
            (may_leave self.old) (may_leave self.new) }
        ensures entries { IsTrue honest
            → EntriesStayElsewhereOfBoth from.now to.now (entry_kept self.old) (entry_kept self.new) }
        ensures moved { IsTrue honest → OnOk result (trusted self.old from.now → trusted self.new to.now) }
        ensures trust { IsTrue honest
            → EntriesStayElsewhereOfBoth from.now to.now (trusted self.old) (trusted self.new) }
        ensures time { IsTrue honest → Elapses (moment self.old) (moment self.new)
            (left_since self.old) (left_since self.new) (may_leave self.new) }
        ensures count { failures self.old ≤ failures self.new }
        ensures fault { OnErr result (HasRisen (failures self.old) (failures self.new)) }
        ensures same { handle self.new ≡ handle self.old };

    /// Removes a file. A crash leaves it under its name, as it would have been left before, or none.
    fn remove(&mut self, name: &str) -> io::Result<()>
        ensures removed { IsTrue honest → OnOk result (seen self.new name.now ≡ None) }
        ensures elsewhere { IsTrue honest → Elsewhere name.now (seen self.old) (seen self.new) }
        ensures files { IsTrue honest → FilesElsewhere name.now (may_hold self.old) (may_hold self.new) }
        ensures crash { IsTrue honest → ComesFrom (LosesFile name.now) (may_leave self.old) (may_leave self.new) }
        ensures entries { IsTrue honest
            → EntriesStayElsewhere name.now (entry_kept self.old) (entry_kept self.new) }
        ensures trust { IsTrue honest → EntriesStayElsewhere name.now (trusted self.old) (trusted self.new) }
        ensures time { IsTrue honest → Elapses (moment self.old) (moment self.new)
            (left_since self.old) (left_since self.new) (may_leave self.new) }
        ensures count { failures self.old ≤ failures self.new }
        ensures fault { OnErr result (HasRisen (failures self.old) (failures self.new)) }
        ensures same { handle self.new ≡ handle self.old };

    /// Syncs the folder. After an Ok, a crash leaves the entry of each name as it is.
    fn sync(&mut self) -> io::Result<()>
        ensures durable { IsTrue honest → OnOk result
            (EntriesAreKept (seen self.old) (may_hold self.old) (may_leave self.new)) }
        ensures seen { IsTrue honest → (n : List ℕ) → seen self.new n ≡ seen self.old n }
        ensures files { IsTrue honest → (n bytes : List ℕ) → may_hold self.new n bytes → may_hold self.old n bytes }
        ensures crash { IsTrue honest → NoMore (may_leave self.old) (may_leave self.new) }
        ensures entries { IsTrue honest → EntriesStay (entry_kept self.old) (entry_kept self.new) }
        ensures kept { IsTrue honest → OnOk result ((n : List ℕ) → entry_kept self.new n) }
        ensures trust { IsTrue honest → EntriesStay (trusted self.old) (trusted self.new) }
        ensures time { IsTrue honest → Elapses (moment self.old) (moment self.new)
            (left_since self.old) (left_since self.new) (may_leave self.new) }
        ensures count { failures self.old ≤ failures self.new }
        ensures fault { OnErr result (HasRisen (failures self.old) (failures self.new)) }
        ensures same { handle self.new ≡ handle self.old };

    /// Whether it is known that no sync of this file has failed. Where it is not, a new file has to take its place
    /// before it is relied on: no sync vouches for it.
    fn is_trusted(&self, name: &str) -> bool
        ensures { IsTrue honest → IsTrue result → trusted self.now name.now };

    /// Whether it is known that the bytes of this file are on the disk, and that no sync of it has failed. So they need
    /// no sync.
    fn is_synced(&self, name: &str) -> bool
        ensures trusted { IsTrue honest → IsTrue result → trusted self.now name.now }
        ensures durable { IsTrue honest → IsTrue result → (bytes : List ℕ)
            → may_hold self.now name.now bytes → seen self.now name.now ≡ Some bytes };

    /// Whether it is known that the entry of each name is on the disk. So the folder needs no sync.
    fn has_kept_entries(&self) -> bool
        ensures { IsTrue honest → IsTrue result → (n : List ℕ) → entry_kept self.now n };

    /// This moment is one of those since an earlier one.
    ghost counts_now: { (f : Self) (t : ℕ) (c : List ℕ → Option (List ℕ))
        → t ≤ moment f → may_leave f c → left_since f t c };

    /// Since this moment there is no other.
    ghost only_now: { (f : Self) (c : List ℕ → Option (List ℕ)) → left_since f (moment f) c → may_leave f c };

    /// A crash may leave what a look sees. So a promise about every outcome is one about an outcome that there is.
    ghost seen_may_be_left: { (f : Self) → IsTrue honest → may_leave f (seen f) };

    /// What an entry that is on the disk leads to.
    ghost entry_leads: { (f : Self) (n : List ℕ) (c : List ℕ → Option (List ℕ)) → IsTrue honest
        → entry_kept f n → may_leave f c → LeadsTo (seen f n) (may_hold f n) (c n) };
}

/// A folder that is lent is a folder. What is done to it is done to the lender's.
impl<F: Folder> Folder for &mut F {
    ghost honest = { F.honest };

    ghost seen = { λ f. F.seen f.now };

    ghost may_hold = { λ f. F.may_hold f.now };

    ghost may_leave = { λ f. F.may_leave f.now };

    ghost moment = { λ f. F.moment f.now };

    ghost left_since = { λ f. F.left_since f.now };

    ghost entry_kept = { λ f. F.entry_kept f.now };

    ghost trusted = { λ f. F.trusted f.now };

    ghost failures = { λ f. F.failures f.now };

    ghost handle = { λ f. f.ghost_name };

    ghost counts_now = { λ f. F.counts_now f.now };

    ghost only_now = { λ f. F.only_now f.now };

    ghost seen_may_be_left = { λ f. F.seen_may_be_left f.now };

    ghost entry_leads = { λ f. F.entry_leads f.now };

    fn create(&mut self, name: &str) -> io::Result<()> {
        Folder::create(&mut **self, name)
    }

    fn append(&mut self, name: &str, bytes: &[u8]) -> io::Result<()> {
        Folder::append(&mut **self, name, bytes)
    }

    fn sync_file(&mut self, name: &str) -> io::Result<()> {
        Folder::sync_file(&mut **self, name)
    }

    fn rename(&mut self, from: &str, to: &str) -> io::Result<()> {
        Folder::rename(&mut **self, from, to)
    }

    fn remove(&mut self, name: &str) -> io::Result<()> {
        Folder::remove(&mut **self, name)
    }

    fn sync(&mut self) -> io::Result<()> {
        Folder::sync(&mut **self)
    }

    fn is_trusted(&self, name: &str) -> bool {
        Folder::is_trusted(&**self, name)
    }

    fn is_synced(&self, name: &str) -> bool {
        Folder::is_synced(&**self, name)
    }

    fn has_kept_entries(&self) -> bool {
        Folder::has_kept_entries(&**self)
    }
}
