ghost use Rattle.std.specs.Prelude.{◌≡◌, ◌<◌, ◌≤◌, ◌^◌, ◌++◌, Some, None, [], length, take};
ghost use Rattle.std.specs.Prelude.{option_map, unwrap_or, OnOk, OnErr, IsErrOf, IsTrue, IsFalse};
ghost use Rattle.std.specs.Prelude.{string_bytes};
ghost use Rattle.std.specs.List.{position};
ghost use Rattle.dnr_base.specs.Faults.{next_count};
ghost use Rattle.dnr_io.specs.Files.{is_named, held_in, left_in, bytes_at};

use crate::ShelfRefusal;
use crate::faultless_source::copy_front;
use dnr_base::{Items, Text};
use std::marker::Model;

/// A file in memory.
#[derive(Drop)]
pub struct MemoryFile {
    /// The name by which it is asked for.
    pub name: Text,
    /// All its bytes.
    pub bytes: Items<u8>,
}

impl MemoryFile {
    /// A file of this name and these bytes, which are not copied.
    pub fn new(name: String, bytes: Vec<u8>) -> MemoryFile
        ensures { result ≡ record { name = string_bytes name; bytes = bytes.items } }
    {
        MemoryFile {
            name: Text::build(name),
            bytes: Items::build(bytes),
        }
    }
}

/// Files in memory, of which one at a time is read from first to last.
#[derive(Drop)]
pub struct OpenFiles {
    files: Vec<MemoryFile>,
    reading: Option<usize>,
    at: usize,
    most: usize,
    starts: u64,
}

impl Model for OpenFiles {
    ghost use Rattle.std.specs.Prelude.{◌<◌};
    ghost use Rattle.dnr_io.specs.Files.{OpenFiles, left_in};

    ghost Value = { OpenFiles };

    ghost view = { λ f. record { files = f.files.items; left = left_in f.files.items f.reading f.at; starts = f.starts } };

    ghost invariant = { λ f. 0 < f.most };
}

impl OpenFiles {
    /// Files of which none is read. A read gives at most `most` bytes.
    pub fn new(files: Vec<MemoryFile>, most: usize) -> OpenFiles
        requires { 0 < most }
        ensures { result ≡ record { files = files.items; left = []; starts = 0 } }
    {
        OpenFiles {
            files,
            reading: None,
            at: 0,
            most,
            starts: 0,
        }
    }

    /// The bytes of the first file of a name.
    pub fn held(&self, name: &str) -> Option<&[u8]>
        ensures { option_map (λ bytes. bytes.now) result ≡ held_in self.now.files name.now }
    {
        self.files
            .iter()
            .find(|file| file.name.as_str() == name)
            .map(|file| file.bytes.as_slice())
    }

    /// Reads on in the first file of a name, from its first byte, and says whether there is one. Where
    /// there is none, nothing changes.
    pub fn start(&mut self, name: &str) -> bool
        ensures found { IsTrue result → Some self.new.left ≡ held_in self.old.files name.now }
        ensures counted { IsTrue result → self.new.starts ≡ next_count self.old.starts }
        ensures missing { IsFalse result → self.new ≡ self.old }
        ensures files { self.new.files ≡ self.old.files }
    {
        let place = place_of(&self.files, name);
        if place.is_none() {
            return false;
        }
        self.reading = place;
        self.at = 0;
        self.starts = self.starts.saturating_add(1);
        true
    }

    /// The same, where a name that no file has stands for no bytes.
    pub fn start_or_end(&mut self, name: &str)
        ensures left { self.new.left ≡ unwrap_or (held_in self.old.files name.now) [] }
        ensures counted { self.new.starts ≡ next_count self.old.starts }
        ensures files { self.new.files ≡ self.old.files }
    {
        self.reading = place_of(&self.files, name);
        self.at = 0;
        self.starts = self.starts.saturating_add(1);
    }

    /// Takes the first bytes that are left of the file that is read into `buf`, and says how many.
    pub fn read(&mut self, buf: &mut [u8]) -> usize
        ensures bound { result ≤ length buf.new }
        ensures bytes { self.old.left ≡ take result buf.new ++ self.new.left }
        ensures end { result ≡ 0 → 0 < length buf.new → self.new.left ≡ [] }
        ensures files { self.new.files ≡ self.old.files }
        ensures starts { self.new.starts ≡ self.old.starts }
    {
        let count = copy_front(left_of(&self.files, self.reading, self.at), buf, self.most);
        self.at += count;
        count
    }
}

// The place of the first file of a name.
fn place_of(files: &[MemoryFile], name: &str) -> Option<usize>
    ensures { result ≡ position (is_named name.now) files.now }
{
    files.iter().position(|file| file.name.as_str() == name)
}

// The bytes that are left of the file at a place, of which so many were given.
fn left_of(files: &[MemoryFile], place: Option<usize>, given: usize) -> &[u8]
    ensures left { result.now ≡ left_in files.now place given }
    ensures small { length (bytes_at files.now place) < 2 ^ 64 }
{
    match place.and_then(|place| files.get(place)) {
        Some(file) => file.bytes.as_slice().get(given..).unwrap_or(&[]),
        None => &[],
    }
}

/// Puts these bytes in place of what `into` has, if they are at most `limit`.
pub fn hand_over(bytes: &[u8], limit: u64, into: &mut Vec<u8>) -> Result<(), ShelfRefusal>
    ensures bytes { OnOk result (into.new.items ≡ bytes.now) }
    ensures within { OnOk result (length bytes.now ≤ limit) }
    ensures too_long { IsErrOf result ShelfRefusal.TooLong → limit < length bytes.now }
    ensures no_fault { IsErrOf result ShelfRefusal.Failed → ⊥ }
    ensures refused { OnErr result (into.new.items ≡ []) }
{
    into.clear();
    if limit < bytes.len() as u64 {
        return Err(ShelfRefusal::TooLong);
    }
    if into.extend_from_slice(bytes).is_err() {
        return Err(ShelfRefusal::NoMemory);
    }
    Ok(())
}
