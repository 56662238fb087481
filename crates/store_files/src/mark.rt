//! The mark that a writer leaves in the file `lock` for the next one: a line that tells what is known of the files.

ghost use Rattle.std.specs.Prelude.{◌≡◌, ◌≢◌, ◌<◌, ◌≤◌, ◌⊎◌, ◌++◌, [], ◌∷◌, ℕ, List, length, All, IsTrue, IfOk, IfSome};
ghost use Rattle.std.specs.Prelude.{OnOk, string_bytes};
ghost use Rattle.std.specs.Prelude.{false};
ghost use Rattle.store_files.specs.Knowledge.{is_part, said, rank};
ghost use Rattle.store_files.specs.Mark.{others_of, claims_entries, named, claimed, Covers, ClaimsNoMore};
ghost use Rattle.store_files.specs.Mark.{word, texts, fields, mark_bytes, IsMarkOf, IsBlank};

use crate::knowledge::{Doing, Knowledge, Standing, is_beside};
use std::alloc::{AllocError, Global};

/// How the writer of a mark stood.
#[derive(Clone, Copy, PartialEq, Eq)]
pub enum MarkKind {
    /// It has ended, and everything is on the disk.
    Ended,
    /// It is at work, or was killed. The files that the mark doesn't name are on the disk.
    Open,
    /// The same, but the files that the mark doesn't name may not be on the disk.
    Unsure,
}

/// A mark. Of the files that it names a sync may have failed.
#[derive(Clone, Drop)]
pub struct Mark {
    pub(crate) kind: MarkKind,
    pub(crate) names: Vec<Vec<u8>>,
}

// Whether a name is among these.
fn has_name(names: &[Vec<u8>], name: &[u8]) -> bool
    ensures { result ≡ named names.now name.now }
{
    for known in names {
        if known.as_slice() == name {
            return true;
        }
    }
    false
}

impl MarkKind {
    /// What a mark claims of the files that it does not name.
    pub(crate) fn others(self) -> Standing
        ensures { result ≡ others_of self }
    {
        match self {
            MarkKind::Ended | MarkKind::Open => Standing::Synced,
            MarkKind::Unsure => Standing::Unsynced,
        }
    }
}

impl Mark {
    // The mark that names this file, too.
    fn and(self, alloc: Global, name: &str) -> Result<Mark, AllocError>
        ensures kind { IfOk result (λ m. m.kind ≡ self.kind) }
        ensures less { IfOk result (λ m. (n : List ℕ) → rank (claimed m n) ≤ rank (claimed self n)) }
        ensures named { IfOk result (λ m. claimed m name.now ≡ Standing.Failed) }
    {
        let Mark { kind, mut names } = self;
        let name = name.as_bytes().to_vec(alloc)?;
        names.push(name)?;
        Ok(Mark { kind, names })
    }

    // Whether it claims nothing of this file.
    fn is_silent_of(&self, name: &str) -> bool
        ensures { IsTrue result → claimed self.now name.now ≡ Standing.Failed }
    {
        is_beside(name.as_bytes()) || has_name(&self.names, name.as_bytes())
    }

    /// Whether this may be done under the mark.
    pub(crate) fn is_enough(&self, knowledge: &Knowledge, doing: &Doing<'_>) -> bool
        ensures { IsTrue result → Covers self.now (said knowledge.now) doing.now }
    {
        match *doing {
            Doing::Created(name) => self.kind != MarkKind::Ended && self.is_silent_of(name),
            Doing::Appended(name) | Doing::SyncFailed(name) => self.is_silent_of(name),
            Doing::Moved(from, to) => {
                self.kind != MarkKind::Ended && (self.is_silent_of(to) || knowledge.is_synced(from))
            }
            Doing::Removed(_) => self.kind != MarkKind::Ended,
            Doing::FileSynced(_) | Doing::FolderSynced => true,
        }
    }
}

// The kind of a mark of a writer that is at work, by what is known of the files that it did not touch.
fn kind_beside(others: Standing) -> MarkKind
    ensures kind { result ≢ MarkKind.Ended }
    ensures others { others ≢ Standing.Failed → others_of result ≡ others }
{
    match others {
        Standing::Synced => MarkKind::Open,
        _ => MarkKind::Unsure,
    }
}

// The mark of a writer that is at work. It names the files of which less is known than of the others.
fn work_mark(alloc: Global, knowledge: &Knowledge) -> Result<Mark, AllocError>
    ensures kind { IfOk result (λ m. m.kind ≢ MarkKind.Ended) }
    ensures claims { IfOk result (λ m. knowledge.now.others ≢ Standing.Failed → ClaimsNoMore m knowledge.now.others
        (said knowledge.now) knowledge.now.has_kept_entries) }
{
    let names = knowledge.lesser_names(alloc)?;
    Ok(Mark {
        kind: kind_beside(knowledge.others()),
        names,
    })
}

// The same mark, which names this file, too.
fn naming_mark(alloc: Global, knowledge: &Knowledge, name: &str) -> Result<Mark, AllocError>
    ensures kind { IfOk result (λ m. m.kind ≢ MarkKind.Ended) }
    ensures claims { IfOk result (λ m. knowledge.now.others ≢ Standing.Failed → ClaimsNoMore m knowledge.now.others
        (said knowledge.now) knowledge.now.has_kept_entries) }
    ensures named { IfOk result (λ m. claimed m name.now ≡ Standing.Failed) }
{
    let mark = work_mark(alloc, knowledge)?;
    mark.and(alloc, name)
}

/// The mark under which this may be done.
pub fn mark_before(
    alloc: Global,
    knowledge: &Knowledge,
    doing: &Doing<'_>,
) -> Result<Mark, AllocError>
    ensures covers { IfOk result (λ m. Covers m (said knowledge.now) doing.now) }
    ensures claims { IfOk result (λ m. knowledge.now.others ≢ Standing.Failed → ClaimsNoMore m knowledge.now.others
        (said knowledge.now) knowledge.now.has_kept_entries) }
{
    match *doing {
        Doing::Created(name) => naming_mark(alloc, knowledge, name),
        Doing::Appended(name) => naming_mark(alloc, knowledge, name),
        Doing::SyncFailed(name) => naming_mark(alloc, knowledge, name),
        Doing::Moved(_, to) => naming_mark(alloc, knowledge, to),
        Doing::Removed(_) | Doing::FileSynced(_) | Doing::FolderSynced => work_mark(
            alloc, knowledge,
        ),
    }
}

// Whether a file is on the disk, or lies beside another, so that no mark claims that it is.
fn has_end(knowledge: &Knowledge, name: &str) -> bool
    ensures { IsTrue result → is_part name.now ≡ false → said knowledge.now name.now ≡ Standing.Synced }
{
    is_beside(name.as_bytes()) || knowledge.is_synced(name)
}

// Whether each of these files is so.
fn are_synced(knowledge: &Knowledge, names: &[String]) -> bool
    ensures { IsTrue result → All (λ name. is_part (string_bytes name) ≡ false
        → said knowledge.now (string_bytes name) ≡ Standing.Synced) names.now }
{
    for name in names {
        let is_synced = has_end(knowledge, name.as_str());
        if !is_synced {
            return false;
        }
    }
    true
}

/// The mark of a writer that ends in a folder of these files.
pub fn end_mark(alloc: Global, knowledge: &Knowledge, names: &[String]) -> Result<Mark, AllocError>
    ensures claims { IfOk result (λ m. knowledge.now.others ≢ Standing.Failed → All (λ name.
        rank (claimed m (string_bytes name)) ≤ rank (said knowledge.now (string_bytes name))) names.now) }
    ensures entries { IfOk result (λ m. knowledge.now.others ≢ Standing.Failed
        → IsTrue (claims_entries m.kind) → IsTrue knowledge.now.has_kept_entries) }
{
    if knowledge.has_kept_entries() && are_synced(knowledge, names) {
        return Ok(Mark {
            kind: MarkKind::Ended,
            names: Vec::new(alloc),
        });
    }
    work_mark(alloc, knowledge)
}

// The bytes before the first byte 0, and those after it. None where there is no such byte.
fn split_field(bytes: &[u8]) -> Option<(&[u8], &[u8])>
    ensures parts { IfSome result (λ x. bytes.now ≡ x.0.now ++ 0 ∷ x.1.now) }
    ensures shorter { IfSome result (λ x. length x.1.now < length bytes.now) }
{
    for (i, byte) in bytes.iter().enumerate() {
        if *byte == 0 {
            return Some((&bytes[..i], &bytes[i + 1..]));
        }
    }
    None
}

// Adds bytes, and a byte 0.
fn push_field(bytes: &mut Vec<u8>, field: &[u8]) -> Result<(), AllocError>
    ensures { OnOk result (bytes.new.items ≡ bytes.old.items ++ fields (field.now ∷ []) []) }
{
    bytes.extend_from_slice(field)?;
    bytes.push(0)?;
    Ok(())
}

// The names at the front of these bytes, up to an empty one. None where the bytes end before it.
fn read_names(alloc: Global, bytes: &[u8]) -> Result<Option<Vec<Vec<u8>>>, AllocError>
    ensures { IfOk result (λ found. IfSome found (λ names. (rest : List ℕ)
        × (bytes.now ≡ fields (texts names.items) (0 ∷ rest)))) }
{
    let mut names = Vec::new(alloc);
    let mut left = bytes;
    while let Some((name, rest)) = split_field(left) {
        if name.is_empty() {
            return Ok(Some(names));
        }
        names.push(name.to_vec(alloc)?)?;
        left = rest;
    }
    Ok(None)
}

impl MarkKind {
    // What a mark of this kind begins with.
    fn word(self) -> &'static [u8]
        ensures { result.now ≡ word self }
    {
        match self {
            MarkKind::Ended => b"ended",
            MarkKind::Open => b"open",
            MarkKind::Unsure => b"unsure",
        }
    }
}

// The bytes of a mark up to its names.
fn head(alloc: Global, kind: MarkKind, boot: &[u8], inode: &[u8]) -> Result<Vec<u8>, AllocError>
    ensures { IfOk result (λ v. v.items ≡ fields (word kind ∷ boot.now ∷ inode.now ∷ []) []) }
{
    let mut bytes = Vec::new(alloc);
    push_field(&mut bytes, kind.word())?;
    push_field(&mut bytes, boot)?;
    push_field(&mut bytes, inode)?;
    Ok(bytes)
}

// Adds each name, and an empty one.
fn push_names(bytes: &mut Vec<u8>, names: &[Vec<u8>]) -> Result<(), AllocError>
    ensures { OnOk result (bytes.new.items ≡ bytes.old.items ++ fields (texts names.now) (0 ∷ [])) }
{
    for name in names {
        push_field(bytes, name)?;
    }
    bytes.push(0)?;
    Ok(())
}

impl Mark {
    /// A mark that claims nothing but that no sync has failed.
    pub fn blank(alloc: Global) -> Mark
        ensures { IsBlank result }
    {
        Mark {
            kind: MarkKind::Unsure,
            names: Vec::new(alloc),
        }
    }

    /// Its bytes, for this start of the machine and the file of this inode.
    pub fn to_bytes(&self, alloc: Global, boot: &[u8], inode: &[u8]) -> Result<Vec<u8>, AllocError>
        ensures { IfOk result (λ v. v.items
            ≡ mark_bytes (word self.now.kind) boot.now inode.now (texts self.now.names.items) []) }
    {
        let mut bytes = head(alloc, self.kind, boot, inode)?;
        push_names(&mut bytes, &self.names)?;
        Ok(bytes)
    }
}

// The mark of this kind at the front of these bytes, if there is one.
fn mark_of_kind(
    alloc: Global,
    bytes: &[u8],
    kind: MarkKind,
    boot: &[u8],
    inode: &[u8],
) -> Result<Option<Mark>, AllocError>
    ensures { IfOk result (λ found. IfSome found (IsMarkOf bytes.now boot.now inode.now)) }
{
    let head = head(alloc, kind, boot, inode)?;
    let Some(rest) = bytes.strip_prefix(head.as_slice()) else {
        return Ok(None);
    };
    match read_names(alloc, rest)? {
        Some(names) => Ok(Some(Mark { kind, names })),
        None => Ok(None),
    }
}

/// The mark in the bytes of a file `lock`, if it was left at this start of the machine in the file of this inode. One
/// of another start, of another folder or that is not whole claims nothing.
pub fn read_mark(alloc: Global, bytes: &[u8], boot: &[u8], inode: &[u8]) -> Result<Mark, AllocError>
    ensures { IfOk result (λ m. IsMarkOf bytes.now boot.now inode.now m ⊎ IsBlank m) }
{
    for kind in [MarkKind::Ended, MarkKind::Open, MarkKind::Unsure] {
        if let Some(mark) = mark_of_kind(alloc, bytes, kind, boot, inode)? {
            return Ok(mark);
        }
    }
    Ok(Mark::blank(alloc))
}
