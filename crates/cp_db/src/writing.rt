//! The calls that write: a new store, one entry more, and the version of the file.
ghost use Rattle.std.specs.Prelude.{◌≡◌, ◌≤◌, ◌+◌, ◌++◌, ◌∷◌, ◌⊎◌, ◌↔◌, [], true, false, Bool, IsTrue, IsErrOf, IsOk, List, ℕ, length, IfOk, OnOk};
ghost use Rattle.std.specs.declared.option.Option.TheVariants.{None};
ghost use Rattle.cp_outside.specs.Causes.{Rose};
ghost use Rattle.cp_model.specs.History.{Entry as HistoryEntry, State, IsLiteral, IsSource, start, load, commit};
ghost use Rattle.cp_model.specs.Keyed.{from_entries};
ghost use Rattle.cp_model.specs.Literals.{literal_rows};
ghost use Rattle.cp_model.specs.declared.literal.Literal.{Literal as LiteralValue};
ghost use Rattle.cp_model.specs.declared.op.Op.{Op as OpValue};
ghost use Rattle.cp_model.specs.declared.record.Record.{Record as RecordValue};
ghost use Rattle.cp_model.specs.declared.stamp.Stamp.{Stamp as StampValue};
ghost use Rattle.cp_disk.specs.Counts.{UsesDisk};
ghost use Rattle.cp_disk.specs.Views.{Either, ViewRests, ViewKeeps, IfKnown, IsSettled, Keeps};
ghost use Rattle.cp_journal.specs.Frames.{Frame, entry};
ghost use Rattle.cp_journal.specs.Holding.{Holds, Stands as StandsOnFrames};
ghost use Rattle.cp_journal.specs.Journals.{Describes};
ghost use Rattle.cp_journal.specs.NewStores.{IsVacant, SettlesInto};
ghost use Rattle.cp_engine.specs.Transactions.{Progress, going};
ghost use Rattle.cp_format.specs.Formats.{Reads};
ghost use Rattle.cp_frame.specs.Entries.{WrittenEntry, IsEntry, entry_format};
ghost use Rattle.cp_frame.specs.declared.entry.Entry.TheVariants.{Load as LoadEntry, Stamped as StampedEntry};
ghost use Rattle.cp_frame.specs.Items.{Tell};
ghost use Rattle.cp_frame.specs.Stands.{StandsFor, StandsForEither};
ghost use Rattle.cp_frame.specs.Sizes.{has_room, load_size, start_size};
ghost use Rattle.cp_db.specs.Databases.{HoldsState, HoldsSame, Stands, IsDatabase, IsReady, IsKept, HasCome, end_in, is_spent, version_in};
ghost use Rattle.cp_db.specs.FileVersions.{newest_version, HasVersionOrNewest, IsAtVersion, IsVacantOrNewest, KeepsVersion, LeavesFiles};
ghost use Rattle.cp_db.specs.Writing.{commit_size, HasCommitted, HasLoaded, HasMade, HasStepped, IsBeforeOrCommitted, IsCommitDisk, IsInitDisk, IsLoadDisk, IsOldOrVacantOrStart, IsVacantOrStart, IsWriteDisk, in_the_way};

use crate::committed::Committed;
use crate::database::{Db, Tids};
use crate::fault::{CommitFault, InitFault, LoadFault, WriteFault};
use cp_disk::{DISK_MAX, Disk};
use cp_engine::{Step, Txn};
use cp_frame::{Entry, entry_bytes};
use cp_journal::{BODY_MAX, FRAME_HEAD, HEADER_SIZE, Journal};
use cp_model::{Kind, SOURCES_MAX, Stamp};
use cp_path::Name;
use cp_record::PackedRecords;
use cp_store::ProvStore;
use cp_tree::{TreeRep, literal_of};
use std::alloc::{AllocError, Global};

/// The most bytes of a commit without its stamp, which takes nine and those of the curator.
fn commit_limit(stamp: &Stamp) -> u64
    ensures { result + 9 + length stamp.now.curator ≡ BODY_MAX }
{
    BODY_MAX as u64 - 9 - stamp.curator.as_str().len() as u64
}

/// The bytes of the entry with which a store of a kind starts from this tree. Costs the tree.
fn start_bytes<R: TreeRep>(alloc: Global, kind: Kind, tree: &R) -> Result<Vec<u8>, AllocError>
    ensures told { IfOk result (λ v. Tell true 2 (entry v.items ∷ []) (start kind (R.contents tree.now) ∷ [])) }
    ensures size { IfOk result (λ v. length v.items ≡ start_size (R.contents tree.now)) }
    ensures few { IfOk result (λ v. length v.items ≤ BODY_MAX) }
{
    let literal = literal_of(alloc, tree)?;
    let entry = Entry::Start {
        kind,
        tree: literal,
    };
    let body = entry_bytes(alloc, &entry);
    drop(entry);
    body
}

/// The bytes of the entry that loads this tree as a source under this name. Costs the tree.
fn load_bytes<S: TreeRep>(alloc: Global, name: &Name, tree: &S) -> Result<Vec<u8>, AllocError>
    requires { IsSource name.now (S.contents tree.now) }
    ensures spells { IfOk result (λ v. (l : LiteralValue) × (w : WrittenEntry) × IsLiteral (literal_rows l)
        × (from_entries (literal_rows l) ≡ S.contents tree.now) × IsEntry (LoadEntry name.now l) w
        × Reads entry_format v.items w []) }
    ensures size { IfOk result (λ v. length v.items ≡ load_size name.now (S.contents tree.now)) }
{
    let literal = literal_of(alloc, tree)?;
    let entry = Entry::Load {
        name: name.clone()?,
        tree: literal,
    };
    let body = entry_bytes(alloc, &entry);
    drop(entry);
    body
}

/// The records of the entry of a commit with a stamp.
fn stamped_records(entry: &Entry) -> &PackedRecords
    requires { (s : StampValue) × (os : List OpValue) × (rs : List RecordValue) × (entry.now ≡ StampedEntry s os rs) }
    ensures { (s : StampValue) (os : List OpValue) (rs : List RecordValue) → entry.now ≡ StampedEntry s os rs → result.now ≡ rs }
{
    match entry {
        Entry::Stamped { records, .. } => records,
        _ => unreachable!(),
    }
}

impl<R: TreeRep, S: TreeRep> Db<R, S> {
    /// Makes a store of a kind in a vacant file, which starts from this tree. Takes its memory before the first write.
    ///
    /// Until the first call of the disk that writes, a crash leaves what it could leave before; after it, a vacant file or
    /// the store. After `Exists` the file is as it was.
    pub fn init<D: Disk>(
        alloc: Global,
        disk: &mut D,
        kind: Kind,
        tree: R,
    ) -> Result<Db<R, S>, InitFault>
        ensures stands { IfOk result (λ d. (right : Bool)
            → Stands R.contents S.contents right d (start kind (R.contents tree) ∷ [])) }
        ensures kept { IfKnown (D.known disk.new) (λ v.
            IfOk result (λ d. IsKept true d (start kind (R.contents tree) ∷ []) v)) }
        ensures made { IfOk result (λ d. (version_in d ≡ 2) × (is_spent d ≡ false)
            × (end_in d ≡ HEADER_SIZE + FRAME_HEAD + start_size (R.contents tree))) }
        ensures ready { IfKnown (D.known disk.new) (λ v. IfOk result (λ d. IsReady d v)) }
        ensures vacant { IfKnown (D.known disk.old) (λ v. OnOk result (IsVacant v.content)) }
        ensures exists { IfKnown (D.known disk.old) (λ v. IsErrOf result InitFault.Exists
            → (IsVacant v.content → ⊥) × ViewRests v (D.known disk.new).view) }
        ensures durable { OnOk result (IsSettled (D.known disk.new)) }
        ensures file { IfKnown (D.known disk.old) (λ v. IsVacant v.content
            → LeavesFiles IsVacantOrNewest v (D.known disk.new).view) }
        ensures newest { OnOk result (IsAtVersion newest_version (D.known disk.new)) }
        ensures crash { Keeps (IsOldOrVacantOrStart (D.known disk.old).view kind (R.contents tree)) (D.known disk.old) (D.known disk.new) }
        ensures settles { IfKnown (D.known disk.old) (λ v.
            SettlesInto (IsVacantOrStart kind (R.contents tree)) v (D.known disk.new).view) }
        ensures cause { UsesDisk IsInitDisk (D.known disk.old) (D.known disk.new) result }
        ensures memory { IfKnown (D.known disk.old) (λ v. IsErrOf result InitFault.Memory
            → ViewRests v (D.known disk.new).view
            ⊎ Rose (D.known disk.old).counts.wants (D.known disk.new).counts.wants) }
    {
        if !Journal::vacant(disk)? {
            return Err(InitFault::Exists);
        }
        let body = start_bytes(alloc, kind, &tree)?;
        let committed = Committed::start(alloc, kind, tree);
        let journal = Journal::create(alloc, disk, &body)?;
        Ok(Db {
            committed,
            version: 2,
            journal,
            spent: false,
        })
    }

    /// Whether there is room for an entry of so many bytes.
    fn has_room(&self, size: usize) -> bool
        requires { self.now.journal.begun ≡ None }
        ensures { result ≡ has_room (end_in self.now) size }
    {
        size <= BODY_MAX && self.journal.next() <= DISK_MAX - FRAME_HEAD - 1 - size as u64
    }

    /// Why no source of this name is added, whatever its tree. Takes no memory.
    fn in_the_way(&self, name: &Name) -> Option<LoadFault>
        ensures { (s : State) → HoldsState R.contents S.contents self.now s
            → result ≡ in_the_way s name.now }
    {
        let sources = &self.committed.sources;
        if sources.get(name).is_some() {
            return Some(LoadFault::SourceThere);
        }
        if sources.len() == SOURCES_MAX {
            return Some(LoadFault::TooManySources);
        }
        None
    }

    /// Loads a tree as a source. What is in its way is told before anything else: `SourceThere` where a source of that
    /// name is there, and else `TooManySources` where as many are there as may be. Takes its memory before it writes.
    /// Costs the tree, and two writes and two syncs.
    ///
    /// A crash at any moment leaves the history before, or that with the source. `SourceThere`, `TooManySources` and
    /// `TooLarge` change nothing. After `Disk` and `Memory` the database is spent.
    pub fn load<D: Disk>(
        &mut self,
        alloc: Global,
        disk: &mut D,
        name: Name,
        tree: S,
    ) -> Result<(), LoadFault>
        requires usable { is_spent self.old ≡ false }
        requires stands { IsDatabase R.contents S.contents self.old }
        requires ready { IfKnown (D.known disk.old) (λ v. IsReady self.old v) }
        requires source { IsSource name (S.contents tree) }
        ensures loaded { (s : State) → HoldsState R.contents S.contents self.old s
            → HasLoaded R.contents S.contents self.old s name (S.contents tree) self.new result }
        ensures kept { IfKnown (D.known disk.old) (λ v. (h : List HistoryEntry)
            → Stands R.contents S.contents true self.old h → IsKept true self.old h v
            → OnOk result (IsKept true self.new (h ++ load name (S.contents tree) ∷ []) (D.known disk.new).view)) }
        ensures crash { IfKnown (D.known disk.old) (λ v. (h : List HistoryEntry)
            → Stands R.contents S.contents true self.old h → IsKept true self.old h v
            → ViewKeeps (StandsForEither h (h ++ load name (S.contents tree) ∷ [])) v (D.known disk.new).view) }
        ensures room { has_room (end_in self.old) (load_size name (S.contents tree)) ≡ false → disk.new ≡ disk.old }
        ensures ready { OnOk result (IfKnown (D.known disk.new) (λ v. IsReady self.new v)) }
        ensures durable { OnOk result (IsSettled (D.known disk.new)) }
        ensures version { version_in self.new ≡ version_in self.old }
        ensures file { KeepsVersion (D.known disk.old) (D.known disk.new) }
        ensures unchanged { ¬ (IsOk result) → ¬ (IsErrOf result LoadFault.Disk)
            → ¬ (IsErrOf result LoadFault.Memory) → disk.new ≡ disk.old }
        ensures spent { IsTrue (is_spent self.new)
            ↔ (IsErrOf result LoadFault.Disk ⊎ IsErrOf result LoadFault.Memory) }
        ensures cause { UsesDisk IsLoadDisk (D.known disk.old) (D.known disk.new) result }
        ensures memory { IsErrOf result LoadFault.Memory → (disk.new ≡ disk.old)
            ⊎ Rose (D.known disk.old).counts.wants (D.known disk.new).counts.wants }
        ensures reads { (D.known disk.new).counts.reads ≡ (D.known disk.old).counts.reads }
    {
        match self.add_source(alloc, disk, name, tree) {
            Err(LoadFault::Disk) => {
                self.spent = true;
                Err(LoadFault::Disk)
            }
            Err(LoadFault::Memory) => {
                self.spent = true;
                Err(LoadFault::Memory)
            }
            loaded => loaded,
        }
    }

    /// Commits the operations that a transaction holds, which was begun on this database, in a file of version 2. Takes its
    /// memory before it writes. Costs the bytes of its entry, and two writes and two syncs.
    ///
    /// A crash at any moment leaves the history before, or that with the commit. `Empty`, `Failed` and `TooLarge` change
    /// nothing. After `Disk` and `Memory` the database is spent. The transaction is given up in each.
    pub fn commit<D: Disk>(
        &mut self,
        alloc: Global,
        disk: &mut D,
        transaction: Txn<R>,
        stamp: Stamp,
    ) -> Result<Tids, CommitFault>
        requires usable { is_spent self.old ≡ false }
        requires version { version_in self.old ≡ 2 }
        requires stands { IsDatabase R.contents S.contents self.old }
        requires ready { IfKnown (D.known disk.old) (λ v. IsReady self.old v) }
        requires come { (p : Progress) × HasCome R.contents S.contents self.old transaction p }
        ensures committed { (p : Progress) → HasCome R.contents S.contents self.old transaction p
            → (s : State) → HoldsState R.contents S.contents self.old s
            → HasCommitted R.contents S.contents self.old s stamp p self.new result }
        ensures kept { IfKnown (D.known disk.old) (λ v. (ops : List OpValue)
            → HasCome R.contents S.contents self.old transaction (going ops) → (h : List HistoryEntry)
            → Stands R.contents S.contents true self.old h → IsKept true self.old h v
            → OnOk result (IsKept true self.new (h ++ commit stamp ops ∷ []) (D.known disk.new).view)) }
        ensures crash { IfKnown (D.known disk.old) (λ v. (p : Progress)
            → HasCome R.contents S.contents self.old transaction p → (h : List HistoryEntry)
            → Stands R.contents S.contents true self.old h → IsKept true self.old h v
            → ViewKeeps (IsBeforeOrCommitted h stamp p) v (D.known disk.new).view) }
        ensures room { (ops : List OpValue)
            → HasCome R.contents S.contents self.old transaction (going ops)
            → (s : State) → HoldsState R.contents S.contents self.old s
            → has_room (end_in self.old) (commit_size s stamp ops) ≡ false → disk.new ≡ disk.old }
        ensures ready { OnOk result (IfKnown (D.known disk.new) (λ v. IsReady self.new v)) }
        ensures durable { OnOk result (IsSettled (D.known disk.new)) }
        ensures version { version_in self.new ≡ version_in self.old }
        ensures file { KeepsVersion (D.known disk.old) (D.known disk.new) }
        ensures unchanged { ¬ (IsOk result) → ¬ (IsErrOf result CommitFault.Disk) → ¬ (IsErrOf result CommitFault.Memory)
            → disk.new ≡ disk.old }
        ensures spent { IsTrue (is_spent self.new)
            ↔ (IsErrOf result CommitFault.Disk ⊎ IsErrOf result CommitFault.Memory) }
        ensures cause { UsesDisk IsCommitDisk (D.known disk.old) (D.known disk.new) result }
        ensures memory { IsErrOf result CommitFault.Memory → (disk.new ≡ disk.old)
            ⊎ Rose (D.known disk.old).counts.wants (D.known disk.new).counts.wants }
        ensures reads { (D.known disk.new).counts.reads ≡ (D.known disk.old).counts.reads }
    {
        match self.add_commit(alloc, disk, transaction, stamp) {
            Err(CommitFault::Disk) => {
                self.spent = true;
                Err(CommitFault::Disk)
            }
            Err(CommitFault::Memory) => {
                self.spent = true;
                Err(CommitFault::Memory)
            }
            committed => committed,
        }
    }

    /// Makes a file of version 1 one of version 2.
    ///
    /// A crash at any moment leaves the same history. After an error the database is spent.
    pub fn migrate<D: Disk>(&mut self, disk: &mut D) -> Result<(), WriteFault>
        requires usable { is_spent self.old ≡ false }
        requires version { version_in self.old ≡ 1 }
        requires stands { IsDatabase R.contents S.contents self.old }
        requires ready { IfKnown (D.known disk.old) (λ v. IsReady self.old v) }
        ensures same { OnOk result (HoldsSame R.contents S.contents self.old self.new) }
        ensures kept { IfKnown (D.known disk.old) (λ v. (right : Bool) (h : List HistoryEntry)
            → IsKept right self.old h v → OnOk result (IsKept right self.new h (D.known disk.new).view)) }
        ensures crash { IfKnown (D.known disk.old) (λ v. (h : List HistoryEntry) → IsKept true self.old h v
            → ViewKeeps (StandsFor h) v (D.known disk.new).view) }
        ensures version { OnOk result (version_in self.new ≡ 2) }
        ensures file { IfKnown (D.known disk.old) (λ v.
            LeavesFiles (HasVersionOrNewest (version_in self.old)) v (D.known disk.new).view) }
        ensures newest { OnOk result (IsAtVersion newest_version (D.known disk.new)) }
        ensures end { end_in self.new ≡ end_in self.old }
        ensures ready { OnOk result (IfKnown (D.known disk.new) (λ v. IsReady self.new v)) }
        ensures durable { OnOk result (IsSettled (D.known disk.new)) }
        ensures kinds { IsErrOf result WriteFault.TooLarge → ⊥ }
        ensures spent { IsTrue (is_spent self.new) ↔ (IsErrOf result WriteFault.Disk ⊎ IsErrOf result WriteFault.Memory) }
        ensures cause { UsesDisk IsWriteDisk (D.known disk.old) (D.known disk.new) result }
        ensures memory { IsErrOf result WriteFault.Memory
            → Rose (D.known disk.old).counts.wants (D.known disk.new).counts.wants }
    {
        match self.journal.upgrade(disk) {
            Ok(()) => {
                self.version = 2;
                Ok(())
            }
            Err(fault) => {
                self.spent = true;
                Err(fault.into())
            }
        }
    }

    /// Adds an entry with this body, for which there is room, to the file.
    fn append<D: Disk>(
        &mut self,
        alloc: Global,
        disk: &mut D,
        body: &[u8],
    ) -> Result<(), WriteFault>
        requires whole { self.old.journal.broken ≡ None }
        requires usable { self.old.journal.spent ≡ false }
        requires idle { self.old.journal.begun ≡ None }
        requires ready { IfKnown (D.known disk.old) (λ v. IsReady self.old v) }
        requires room { has_room (end_in self.old) (length body.now) ≡ true }
        ensures same { self.new ≡ record self.old { journal = self.new.journal } }
        ensures file { KeepsVersion (D.known disk.old) (D.known disk.new) }
        ensures whole { self.new.journal.broken ≡ None }
        ensures idle { self.new.journal.begun ≡ None }
        ensures usable { OnOk result (self.new.journal.spent ≡ false) }
        ensures end { OnOk result (end_in self.new ≡ end_in self.old + FRAME_HEAD + length body.now) }
        ensures described { IfKnown (D.known disk.old) (λ v. (head : List ℕ) (fs : List Frame)
            → Describes head fs self.old.journal v
            → OnOk result (Describes head (fs ++ entry body.now ∷ []) self.new.journal (D.known disk.new).view)) }
        ensures crash { IfKnown (D.known disk.old) (λ v. (head : List ℕ) (fs : List Frame)
            → Holds head fs (end_in self.old) v
            → ViewKeeps (Either (StandsOnFrames head fs) (StandsOnFrames head (fs ++ entry body.now ∷ []))) v (D.known disk.new).view) }
        ensures ready { OnOk result (IfKnown (D.known disk.new) (λ v. IsReady self.new v)) }
        ensures durable { OnOk result (IsSettled (D.known disk.new)) }
        ensures kinds { IsErrOf result WriteFault.TooLarge → ⊥ }
        ensures cause { UsesDisk IsWriteDisk (D.known disk.old) (D.known disk.new) result }
        ensures memory { IsErrOf result WriteFault.Memory → (disk.new ≡ disk.old)
            ⊎ Rose (D.known disk.old).counts.wants (D.known disk.new).counts.wants }
        ensures reads { (D.known disk.new).counts.reads ≡ (D.known disk.old).counts.reads }
    {
        self.journal.append(alloc, disk, body)?;
        Ok(())
    }

    /// Adds a source, and its entry, unless something is in its way.
    fn add_source<D: Disk>(
        &mut self,
        alloc: Global,
        disk: &mut D,
        name: Name,
        tree: S,
    ) -> Result<(), LoadFault>
        requires stands { IsDatabase R.contents S.contents self.old }
        requires ready { IfKnown (D.known disk.old) (λ v. IsReady self.old v) }
        requires source { IsSource name (S.contents tree) }
        ensures loaded { (s : State) → HoldsState R.contents S.contents self.old s
            → HasLoaded R.contents S.contents self.old s name (S.contents tree) self.new result }
        ensures kept { IfKnown (D.known disk.old) (λ v. (h : List HistoryEntry)
            → Stands R.contents S.contents true self.old h → IsKept true self.old h v
            → OnOk result (IsKept true self.new (h ++ load name (S.contents tree) ∷ []) (D.known disk.new).view)) }
        ensures crash { IfKnown (D.known disk.old) (λ v. (h : List HistoryEntry)
            → Stands R.contents S.contents true self.old h → IsKept true self.old h v
            → ViewKeeps (StandsForEither h (h ++ load name (S.contents tree) ∷ [])) v (D.known disk.new).view) }
        ensures room { has_room (end_in self.old) (load_size name (S.contents tree)) ≡ false → disk.new ≡ disk.old }
        ensures ready { OnOk result (IfKnown (D.known disk.new) (λ v. IsReady self.new v)) }
        ensures durable { OnOk result (IsSettled (D.known disk.new)) }
        ensures version { version_in self.new ≡ version_in self.old }
        ensures file { KeepsVersion (D.known disk.old) (D.known disk.new) }
        ensures spent { is_spent self.new ≡ is_spent self.old }
        ensures unchanged { ¬ (IsOk result) → ¬ (IsErrOf result LoadFault.Disk)
            → ¬ (IsErrOf result LoadFault.Memory) → disk.new ≡ disk.old }
        ensures cause { UsesDisk IsLoadDisk (D.known disk.old) (D.known disk.new) result }
        ensures memory { IsErrOf result LoadFault.Memory → (disk.new ≡ disk.old)
            ⊎ Rose (D.known disk.old).counts.wants (D.known disk.new).counts.wants }
        ensures reads { (D.known disk.new).counts.reads ≡ (D.known disk.old).counts.reads }
    {
        if let Some(fault) = self.in_the_way(&name) {
            return Err(fault);
        }
        let body = load_bytes(alloc, &name, &tree)?;
        if !self.has_room(body.len()) {
            return Err(LoadFault::TooLarge);
        }
        self.committed.sources.add(name, tree)?;
        self.append(alloc, disk, &body)?;
        Ok(())
    }

    /// Adds a commit, and its entry.
    fn add_commit<D: Disk>(
        &mut self,
        alloc: Global,
        disk: &mut D,
        transaction: Txn<R>,
        stamp: Stamp,
    ) -> Result<Tids, CommitFault>
        requires version { version_in self.old ≡ 2 }
        requires stands { IsDatabase R.contents S.contents self.old }
        requires ready { IfKnown (D.known disk.old) (λ v. IsReady self.old v) }
        requires come { (p : Progress) × HasCome R.contents S.contents self.old transaction p }
        ensures committed { (p : Progress) → HasCome R.contents S.contents self.old transaction p
            → (s : State) → HoldsState R.contents S.contents self.old s
            → HasCommitted R.contents S.contents self.old s stamp p self.new result }
        ensures kept { IfKnown (D.known disk.old) (λ v. (ops : List OpValue)
            → HasCome R.contents S.contents self.old transaction (going ops) → (h : List HistoryEntry)
            → Stands R.contents S.contents true self.old h → IsKept true self.old h v
            → OnOk result (IsKept true self.new (h ++ commit stamp ops ∷ []) (D.known disk.new).view)) }
        ensures crash { IfKnown (D.known disk.old) (λ v. (p : Progress)
            → HasCome R.contents S.contents self.old transaction p → (h : List HistoryEntry)
            → Stands R.contents S.contents true self.old h → IsKept true self.old h v
            → ViewKeeps (IsBeforeOrCommitted h stamp p) v (D.known disk.new).view) }
        ensures room { (ops : List OpValue)
            → HasCome R.contents S.contents self.old transaction (going ops)
            → (s : State) → HoldsState R.contents S.contents self.old s
            → has_room (end_in self.old) (commit_size s stamp ops) ≡ false → disk.new ≡ disk.old }
        ensures ready { OnOk result (IfKnown (D.known disk.new) (λ v. IsReady self.new v)) }
        ensures durable { OnOk result (IsSettled (D.known disk.new)) }
        ensures version { version_in self.new ≡ version_in self.old }
        ensures file { KeepsVersion (D.known disk.old) (D.known disk.new) }
        ensures unchanged { ¬ (IsOk result) → ¬ (IsErrOf result CommitFault.Disk) → ¬ (IsErrOf result CommitFault.Memory)
            → disk.new ≡ disk.old }
        ensures spent { is_spent self.new ≡ is_spent self.old }
        ensures cause { UsesDisk IsCommitDisk (D.known disk.old) (D.known disk.new) result }
        ensures memory { IsErrOf result CommitFault.Memory → (disk.new ≡ disk.old)
            ⊎ Rose (D.known disk.old).counts.wants (D.known disk.new).counts.wants }
        ensures reads { (D.known disk.new).counts.reads ≡ (D.known disk.old).counts.reads }
    {
        let step = transaction.finish(alloc, commit_limit(&stamp))?;
        Ok(self.add_step(alloc, disk, step, stamp)?)
    }

    /// Adds what a transaction has made, and its entry.
    fn add_step<D: Disk>(
        &mut self,
        alloc: Global,
        disk: &mut D,
        step: Step<R>,
        stamp: Stamp,
    ) -> Result<Tids, WriteFault>
        requires version { version_in self.old ≡ 2 }
        requires stands { IsDatabase R.contents S.contents self.old }
        requires ready { IfKnown (D.known disk.old) (λ v. IsReady self.old v) }
        requires made { (ops : List OpValue) × HasMade R.contents S.contents self.old ops step }
        ensures committed { (ops : List OpValue) → HasMade R.contents S.contents self.old ops step
            → (s : State) → HoldsState R.contents S.contents self.old s
            → HasStepped R.contents S.contents self.old s stamp ops self.new result }
        ensures kept { IfKnown (D.known disk.old) (λ v. (ops : List OpValue)
            → HasMade R.contents S.contents self.old ops step → (h : List HistoryEntry)
            → Stands R.contents S.contents true self.old h → IsKept true self.old h v
            → OnOk result (IsKept true self.new (h ++ commit stamp ops ∷ []) (D.known disk.new).view)) }
        ensures crash { IfKnown (D.known disk.old) (λ v. (ops : List OpValue)
            → HasMade R.contents S.contents self.old ops step → (h : List HistoryEntry)
            → Stands R.contents S.contents true self.old h → IsKept true self.old h v
            → ViewKeeps (StandsForEither h (h ++ commit stamp ops ∷ [])) v (D.known disk.new).view) }
        ensures room { (ops : List OpValue) → HasMade R.contents S.contents self.old ops step
            → (s : State) → HoldsState R.contents S.contents self.old s
            → has_room (end_in self.old) (commit_size s stamp ops) ≡ false → disk.new ≡ disk.old }
        ensures ready { OnOk result (IfKnown (D.known disk.new) (λ v. IsReady self.new v)) }
        ensures durable { OnOk result (IsSettled (D.known disk.new)) }
        ensures version { version_in self.new ≡ version_in self.old }
        ensures file { KeepsVersion (D.known disk.old) (D.known disk.new) }
        ensures spent { is_spent self.new ≡ is_spent self.old }
        ensures unchanged { IsErrOf result WriteFault.TooLarge → disk.new ≡ disk.old }
        ensures cause { UsesDisk IsWriteDisk (D.known disk.old) (D.known disk.new) result }
        ensures memory { IsErrOf result WriteFault.Memory → (disk.new ≡ disk.old)
            ⊎ Rose (D.known disk.old).counts.wants (D.known disk.new).counts.wants }
        ensures reads { (D.known disk.new).counts.reads ≡ (D.known disk.old).counts.reads }
    {
        let low = self.committed.store.upto() + 1;
        let entry = Entry::Stamped {
            stamp,
            ops: step.ops,
            records: step.rows,
        };
        let Ok(body) = entry_bytes(alloc, &entry) else {
            drop(entry);
            return Err(WriteFault::Memory);
        };
        if !self.has_room(body.len()) {
            drop(entry);
            return Err(WriteFault::TooLarge);
        }
        let kept = self
            .committed
            .keep_records(alloc, step.tids, stamped_records(&entry));
        drop(entry);
        kept?;
        self.committed.tree = step.tree;
        self.append(alloc, disk, &body)?;
        Ok(Tids {
            low,
            high: self.committed.store.upto(),
        })
    }
}
