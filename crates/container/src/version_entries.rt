//! Entries by version, as a bin has them: the version that came last is first.
ghost use Rattle.std.specs.Prelude.{◌≡◌, ◌≢◌, ◌↔◌, ◌==◌, None, Some, Err, IfSome, IfNone, IfErr, IsSome, OnSome, OnOk, OnErr, All, not, nat_eq};
ghost use Rattle.std.specs.List.{filter};
ghost use Rattle.std.specs.HashMap as hash;
ghost use Rattle.container.specs.VersionEntries.{IsFirstAt, find_in, Updates, FindsTheSame, Counts, HasTheSame};
ghost use Rattle.container.specs.Refusals.{refused_cell};

use crate::refusals::InsertError;
use app_core::CellName;
use std::alloc::Global;
use std::collections::HashMap;
use std::mem;

/// The entries of one version, by place.
#[derive(Drop)]
pub(crate) struct VersionEntries<C> {
    pub(crate) version: u32,
    pub(crate) cells: HashMap<u64, C>,
}

// The index of a version in the list. None where it isn't there.
fn index_of<C>(versions: &[VersionEntries<C>], version: u32) -> Option<usize>
    ensures found { IfSome result (λ i. IsFirstAt version versions.now i) }
    ensures missing { IfNone result (All (λ e. e.version ≢ version) versions.now) }
{
    for (i, entries) in versions.iter().enumerate() {
        if entries.version == version {
            return Some(i);
        }
    }
    None
}

// The cell of a name.
pub(crate) fn find_cell<C: Copy>(versions: &[VersionEntries<C>], name: CellName) -> Option<C>
    ensures { result ≡ find_in versions.now name }
{
    let i = index_of(versions, name.version)?;
    versions[i].cells.get(&name.place).copied()
}

// Adds an entry whose name has none.
pub(crate) fn add_cell<C: Copy>(
    alloc: Global,
    versions: &mut Vec<VersionEntries<C>>,
    name: CellName,
    cell: C,
) -> Result<(), InsertError<C>>
    ensures ok { OnOk result (Updates versions.old.items versions.new.items name (Some cell)) }
    ensures present { (result ≡ Err (InsertError.Present cell)) ↔ IsSome (find_in versions.old.items name) }
    ensures back { IfErr result (λ e. refused_cell e ≡ cell) }
    ensures same { OnErr result (FindsTheSame versions.old.items versions.new.items) }
{
    match index_of(versions, name.version) {
        Some(i) => add_at(&mut versions[i].cells, name.place, cell),
        None => add_version(alloc, versions, name, cell),
    }
}

// Adds the first entry of a version.
fn add_version<C: Copy>(
    alloc: Global,
    versions: &mut Vec<VersionEntries<C>>,
    name: CellName,
    cell: C,
) -> Result<(), InsertError<C>>
    requires { All (λ e. e.version ≢ name.version) versions.old.items }
    ensures ok { OnOk result (Updates versions.old.items versions.new.items name (Some cell)) }
    ensures full { IfErr result (λ e. e ≡ InsertError.OutOfMemory cell) }
    ensures same { OnErr result (versions.new.items ≡ versions.old.items) }
{
    let mut cells = HashMap::new(alloc);
    if cells.insert(name.place, cell).is_err() {
        return Err(InsertError::OutOfMemory(cell));
    }
    let entries = VersionEntries {
        version: name.version,
        cells,
    };
    if versions.insert(0, entries).is_err() {
        return Err(InsertError::OutOfMemory(cell));
    }
    Ok(())
}

// Adds an entry of one version. An entry that has the place is put back.
fn add_at<C: Copy>(cells: &mut HashMap<u64, C>, place: u64, cell: C) -> Result<(), InsertError<C>>
    ensures ok { OnOk result (hash.Updates nat_eq cells.old cells.new place (Some cell)) }
    ensures present { (result ≡ Err (InsertError.Present cell)) ↔ IsSome (hash.get nat_eq cells.old place) }
    ensures back { IfErr result (λ e. refused_cell e ≡ cell) }
    ensures same { OnErr result (HasTheSame cells.old cells.new) }
{
    match cells.insert(place, cell) {
        Ok(None) => Ok(()),
        Ok(Some(present)) => {
            let _ = cells.insert(place, present);
            Err(InsertError::Present(cell))
        }
        Err(_) => Err(InsertError::OutOfMemory(cell)),
    }
}

// Puts a cell in the place of another.
pub(crate) fn replace_cell<C: Copy>(
    versions: &mut Vec<VersionEntries<C>>,
    name: CellName,
    cell: C,
) -> Option<C>
    ensures old { result ≡ find_in versions.old.items name }
    ensures some { OnSome result (Updates versions.old.items versions.new.items name (Some cell)) }
    ensures none { IfNone result (FindsTheSame versions.old.items versions.new.items) }
{
    let i = index_of(versions, name.version)?;
    replace_at(&mut versions[i].cells, name.place, cell)
}

fn replace_at<C: Copy>(cells: &mut HashMap<u64, C>, place: u64, cell: C) -> Option<C>
    ensures old { result ≡ hash.get nat_eq cells.old place }
    ensures some { OnSome result (hash.Updates nat_eq cells.old cells.new place (Some cell)) }
    ensures none { IfNone result (HasTheSame cells.old cells.new) }
{
    match cells.get_mut(&place) {
        Some(present) => Some(mem::replace(present, cell)),
        None => None,
    }
}

// Takes an entry out.
pub(crate) fn take_cell<C: Copy>(versions: &mut Vec<VersionEntries<C>>, name: CellName) -> Option<C>
    ensures old { result ≡ find_in versions.old.items name }
    ensures rest { Updates versions.old.items versions.new.items name None }
{
    let i = index_of(versions, name.version)?;
    versions[i].cells.remove(&name.place)
}

// How many entries have the version.
pub(crate) fn count_cells<C: Copy>(versions: &[VersionEntries<C>], version: u32) -> u64
    ensures { Counts version versions.now result }
{
    match index_of(versions, version) {
        Some(i) => versions[i].cells.len() as u64,
        None => 0,
    }
}

// Lets the entries of a version go.
pub(crate) fn drop_cells<C: Copy>(versions: &mut Vec<VersionEntries<C>>, version: u32)
    ensures { versions.new.items ≡ filter (λ e. not (e.version == version)) versions.old.items }
{
    versions.retain(|entries| entries.version != version);
}
