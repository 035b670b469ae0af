// Files by their names.
ghost use Rattle.std.specs.Prelude.{◌≡◌, ◌≤◌, List, ℕ, length, map, string_bytes, IsSomeAnd};
ghost use Rattle.std.specs.declared.option.Option.{Option};
ghost use Rattle.std.specs.declared.option.Option.TheVariants.{Some};
ghost use Rattle.std.specs.Option.{option_copied};
ghost use Rattle.tw_ports.specs.Files.{Held, held_under, HoldsOn, Tells, Within, FileCounts, LooksUp};
ghost use Rattle.tw_ports.specs.MemoryFiles.{Shelf, ShelfRead};

use std::alloc::Global;
use std::marker::Model;

/// The answer to a call for a file.
#[derive(Drop)]
pub enum FileAnswer {
    /// The bytes held under the name.
    Found(Vec<u8>),
    /// No file has the name.
    Absent,
    /// The file has more bytes than the limit.
    TooLong,
    /// The call failed.
    Failed,
    /// Memory was wanting.
    NoMemory,
}

/// Where files come from.
pub trait Files {
    /// The files, where the store tells them.
    ghost held: { Self → Option Held };

    /// How many calls have failed; the count stands still at `u64::MAX`.
    ghost faults: { Self → ℕ };

    /// The file of this name, which may have at most `limit` bytes.
    fn read_file(&mut self, alloc: Global, name: &str, limit: usize) -> FileAnswer
        ensures tells { Tells (held self.old) name.now limit result }
        ensures within { Within limit result }
        ensures same { HoldsOn (held self.old) (held self.new) }
        ensures counts { FileCounts (faults self.old) (faults self.new) result };
}

/// Files in memory. No call fails. Of two files with one name the first counts.
#[derive(Drop)]
pub struct SureFiles {
    files: Vec<(String, Vec<u8>)>,
}

impl Model for SureFiles {
    ghost Value = { Held };

    ghost view = { λ s. map (λ f. (string_bytes f.0, f.1.items)) s.files.items };
}

impl SureFiles {
    /// A store of these names, each with its bytes.
    pub fn new(files: Vec<(String, Vec<u8>)>) -> SureFiles
        ensures { result ≡ map (λ f. (string_bytes f.0, f.1.items)) files.items }
    {
        SureFiles { files }
    }
}

impl Files for SureFiles {
    ghost held = { λ s. Some s };

    ghost faults = { λ s. 0 };

    fn read_file(&mut self, alloc: Global, name: &str, limit: usize) -> FileAnswer
        ensures tells { Tells (Some self.old) name.now limit result }
        ensures within { Within limit result }
        ensures same { HoldsOn (Some self.old) (Some self.new) }
        ensures counts { FileCounts 0 0 result }
        // Memory is wanted for a file that is found, and for nothing else.
        ensures memory { result ≡ FileAnswer.NoMemory → IsSomeAnd (held_under name.now self.old) (λ bytes. length bytes ≤ limit) }
    {
        look_up(&self.files, alloc, name, limit)
    }
}

/// Files in memory. The calls whose numbers, from 1, stand in `fails` fail. Of two files with one name the first counts.
#[derive(Drop)]
pub struct MemFiles {
    files: Vec<(String, Vec<u8>)>,
    fails: Vec<u64>,
    calls: u64,
    faults: u64,
}

impl Model for MemFiles {
    ghost Value = { Shelf };

    ghost view = { λ s. record { held = map (λ f. (string_bytes f.0, f.1.items)) s.files.items; fails = s.fails.items; calls = s.calls; faults = s.faults } };
}

impl MemFiles {
    /// A store of these names, each with its bytes.
    pub fn new(files: Vec<(String, Vec<u8>)>, fails: Vec<u64>) -> MemFiles
        ensures { result ≡ record { held = map (λ f. (string_bytes f.0, f.1.items)) files.items; fails = fails.items; calls = 0; faults = 0 } }
    {
        MemFiles {
            files,
            fails,
            calls: 0,
            faults: 0,
        }
    }
}

impl Files for MemFiles {
    ghost held = { λ s. Some s.held };

    ghost faults = { λ s. s.faults };

    fn read_file(&mut self, alloc: Global, name: &str, limit: usize) -> FileAnswer
        ensures tells { Tells (Some self.old.held) name.now limit result }
        ensures within { Within limit result }
        ensures same { HoldsOn (Some self.old.held) (Some self.new.held) }
        ensures counts { FileCounts self.old.faults self.new.faults result }
        ensures exact { ShelfRead self.old self.new name.now limit result }
    {
        self.calls = self.calls.saturating_add(1);
        if self.fails.contains(&self.calls) {
            self.faults = self.faults.saturating_add(1);
            return FileAnswer::Failed;
        }
        look_up(&self.files, alloc, name, limit)
    }
}

// What a store of these files answers where the call doesn't fail.
fn look_up(files: &[(String, Vec<u8>)], alloc: Global, name: &str, limit: usize) -> FileAnswer
    ensures { LooksUp (map (λ f. (string_bytes f.0, f.1.items)) files.now) name.now limit result }
{
    match bytes_under(files, name) {
        None => FileAnswer::Absent,
        Some(bytes) if bytes.len() > limit => FileAnswer::TooLong,
        Some(bytes) => match bytes.to_vec(alloc) {
            Ok(bytes) => FileAnswer::Found(bytes),
            Err(_) => FileAnswer::NoMemory,
        },
    }
}

// The bytes of the first file of this name.
fn bytes_under<'a>(files: &'a [(String, Vec<u8>)], name: &str) -> Option<&'a [u8]>
    ensures { option_copied result ≡ held_under name.now (map (λ f. (string_bytes f.0, f.1.items)) files.now) }
{
    for file in files {
        if file.0.as_str() == name {
            return Some(&file.1);
        }
    }
    None
}
