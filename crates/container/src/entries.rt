//! The entries of a bin, seen as a finite map.
ghost use Rattle.std.specs.Prelude.{◌≡◌, ◌↔◌, Some, Err, IfErr, IsSome, OnErr, OnOk, not, is_some, if◌then◌else◌};
ghost use Rattle.std.specs.FinMap as fin;
ghost use Rattle.container.specs.Names.{is_of};
ghost use Rattle.container.specs.Refusals.{refused_cell};

use crate::refusals::InsertError;
use crate::version_entries::{
    VersionEntries, add_cell, count_cells, drop_cells, find_cell, replace_cell, take_cell,
};
use app_core::CellName;
use std::alloc::Global;
use std::marker::Model;

/// Entries by name. Contracts see a finite map from names to cells.
#[derive(Drop)]
pub(crate) struct Entries<C: Copy> {
    versions: Vec<VersionEntries<C>>,
    alloc: Global,
}

impl<C: Copy> Model for Entries<C> {
    ghost use Rattle.std.specs.FinMap as fin;
    ghost use Rattle.container.specs.Names.{name_cmp, name_code};
    ghost use Rattle.container.specs.VersionEntries.{all_entries};

    ghost Value = { fin.FinMap name_cmp C };

    ghost coded = { fin.code name_code C.code };

    ghost view = { λ e. fin.from_entries (all_entries e.versions.items) };
}

impl<C: Copy> Entries<C> {
    // No entries. It takes no memory.
    pub(crate) fn new(alloc: Global) -> Entries<C>
        ensures { result ≡ fin.empty }
    {
        Entries {
            versions: Vec::new(alloc),
            alloc,
        }
    }

    // The cell of a name. None exactly where the name isn't there. It takes no memory.
    pub(crate) fn find(&self, name: CellName) -> Option<C>
        ensures { result ≡ fin.get self.now name }
    {
        find_cell(&self.versions, name)
    }

    // Adds an entry. `Present` exactly where the name has one. Each refusal hands the cell back, and the entries stay.
    pub(crate) fn insert(&mut self, name: CellName, cell: C) -> Result<(), InsertError<C>>
        ensures ok { OnOk result (self.new ≡ fin.insert self.old name cell) }
        ensures present { (result ≡ Err (InsertError.Present cell)) ↔ IsSome (fin.get self.old name) }
        ensures back { IfErr result (λ e. refused_cell e ≡ cell) }
        ensures same { OnErr result (self.new ≡ self.old) }
    {
        add_cell(self.alloc, &mut self.versions, name, cell)
    }

    // Puts a cell in the place of the one that the name has, which comes out. None exactly where the name isn't
    // there, and all stays. It takes no memory.
    pub(crate) fn replace(&mut self, name: CellName, cell: C) -> Option<C>
        ensures old { result ≡ fin.get self.old name }
        ensures new { self.new ≡ (if is_some (fin.get self.old name) then fin.insert self.old name cell else self.old) }
    {
        replace_cell(&mut self.versions, name, cell)
    }

    // The cell of a name, taken out. None exactly where there was none. It takes no memory.
    pub(crate) fn erase(&mut self, name: CellName) -> Option<C>
        ensures cell { result ≡ fin.get self.old name }
        ensures rest { self.new ≡ fin.remove self.old name }
    {
        take_cell(&mut self.versions, name)
    }

    // How many entries have the version. It takes no memory.
    pub(crate) fn size_of(&self, version: u32) -> u64
        ensures { result ≡ fin.len (fin.retain_keys self.now (is_of version)) }
    {
        count_cells(&self.versions, version)
    }

    // Lets all entries of a version go, and says how many there were. It takes no memory.
    pub(crate) fn drop_version(&mut self, version: u32) -> u64
        ensures count { result ≡ fin.len (fin.retain_keys self.old (is_of version)) }
        ensures rest { self.new ≡ fin.retain_keys self.old (λ n. not (is_of version n)) }
    {
        let count = count_cells(&self.versions, version);
        drop_cells(&mut self.versions, version);
        count
    }
}
