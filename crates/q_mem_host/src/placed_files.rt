//! Files by area and name. They stand in the order of their places, each place once, and a
//! place is found by search.
ghost use Rattle.std.specs.Prelude.{◌≡◌, ◌≤◌, ◌<◌, IfErr, IfOk, IfSome, insert, IsNone, IsSome, IsSomeAnd, length, None, OnErr, OnOk, option_copied, Some, vec_capacity, vec_len};
ghost use Rattle.std.specs.Option.{option_map};
ghost use Rattle.q_host.specs.Files.{area_number, put};
ghost use Rattle.q_mem_host.specs.Kept.{fallen, overwritten, synced};
ghost use Rattle.q_mem_host.specs.Data.{IsChanged, IsMoved, kept, table};
ghost use Rattle.q_mem_host.specs.Order.{InOrder, IsAt, IsGap, placed_cmp};

use crate::Rot;
use crate::file::File;
use q_model::{Area, Name};
use std::alloc::{AllocError, Global};
use std::cmp::Ordering;

/// A file and its place.
#[derive(Drop)]
pub(crate) struct PlacedFile {
    pub area: Area,
    pub name: Name,
    pub file: File,
}

/// The number of an area.
pub(crate) fn number(area: Area) -> u8
    ensures { result ≡ area_number area }
{
    area as u8
}

/// How the file goes with a place: before it, at it or behind it.
pub(crate) fn compare(placed: &PlacedFile, area: Area, name: &Name) -> Ordering
    ensures { result ≡ placed_cmp area name.now placed.now }
{
    let areas = number(placed.area).cmp(&number(area));
    areas.then(placed.name.cmp(name))
}

// The index of the place's file, or else the one where it would stand.
fn search(files: &[PlacedFile], area: Area, name: &Name) -> Result<usize, usize>
    requires { InOrder files.now }
    ensures found { IfOk result (λ i. IsAt files.now i area name.now) }
    ensures missing { IfErr result (λ i. IsGap files.now i area name.now) }
{
    files.binary_search_by(|placed| compare(placed, area, name))
}

// The index of the place's file.
fn position(files: &[PlacedFile], area: Area, name: &Name) -> Option<usize>
    requires { InOrder files.now }
    ensures some { IfSome result (λ i. IsAt files.now i area name.now) }
    ensures none { IsNone result → table files.now area name.now ≡ None }
{
    match search(files, area, name) {
        Ok(i) => Some(i),
        Err(_) => None,
    }
}

/// The file of a place.
pub(crate) fn find<'a>(files: &'a [PlacedFile], area: Area, name: Name) -> Option<&'a File>
    requires { InOrder files.now }
    ensures { option_map kept (option_copied result) ≡ table files.now area name }
{
    match position(files, area, &name) {
        Some(i) => Some(&files[i].file),
        None => None,
    }
}

fn insert_within(files: &mut Vec<PlacedFile>, i: usize, placed: PlacedFile)
    requires index { i ≤ vec_len files.old }
    requires room { vec_len files.old < vec_capacity files.old }
    ensures { files.new.items ≡ insert files.old.items i placed }
{
    let _ = files.insert(i, placed);
}

/// Takes the file of a place away.
pub(crate) fn take_away(files: &mut Vec<PlacedFile>, area: Area, name: Name)
    requires { InOrder files.old.items }
    ensures table { table files.new.items ≡ put (table files.old.items) area name None }
    ensures order { InOrder files.new.items }
{
    if let Some(i) = position(files, area, &name) {
        files.remove(i);
    }
}

/// Puts a file at a place, in the room that is there.
pub(crate) fn put_file(files: &mut Vec<PlacedFile>, area: Area, name: Name, file: File)
    requires order { InOrder files.old.items }
    requires room { vec_len files.old < vec_capacity files.old }
    ensures table { table files.new.items
        ≡ put (table files.old.items) area name (Some (kept file)) }
    ensures order { InOrder files.new.items }
{
    match search(files, area, &name) {
        Ok(i) => files[i].file = file,
        Err(i) => insert_within(files, i, PlacedFile { area, name, file }),
    }
}

/// Writes over the bytes of a place's file, which reaches that far. Where memory runs out, nothing
/// has changed.
pub(crate) fn overwrite_at(
    alloc: Global,
    files: &mut Vec<PlacedFile>,
    area: Area,
    name: Name,
    at: u64,
    over: &[u8],
) -> Result<(), AllocError>
    requires order { InOrder files.old.items }
    requires reaches { IsSomeAnd (table files.old.items area name) (λ k. at ≤ length k.bytes) }
    ensures ok { OnOk result (IsChanged area name
        (overwritten at over.now) files.old.items files.new.items) }
    ensures err { OnErr result (table files.new.items ≡ table files.old.items) }
    ensures order { InOrder files.new.items }
{
    if let Some(i) = position(files, area, &name) {
        files[i].file.overwrite(alloc, at as usize, over)?;
    }
    Ok(())
}

/// Syncs the file of a place.
pub(crate) fn sync_at(files: &mut Vec<PlacedFile>, area: Area, name: Name)
    requires order { InOrder files.old.items }
    requires there { IsSome (table files.old.items area name) }
    ensures synced { IsChanged area name synced files.old.items files.new.items }
    ensures order { InOrder files.new.items }
{
    if let Some(i) = position(files, area, &name) {
        files[i].file.sync();
    }
}

/// Moves the file of a place to another, over any file there.
pub(crate) fn move_file(files: &mut Vec<PlacedFile>, area: Area, name: Name, to: Area, new: Name)
    requires order { InOrder files.old.items }
    requires there { IsSome (table files.old.items area name) }
    ensures moved { IsMoved area name to new files.old.items files.new.items }
    ensures order { InOrder files.new.items }
{
    if let Some(i) = position(files, area, &name) {
        let placed = files.remove(i);
        put_file(files, to, new, placed.file);
    }
}

/// What a crash makes of the files.
pub(crate) fn fall_all(files: &mut Vec<PlacedFile>, choice: Rot)
    requires { InOrder files.old.items }
    ensures fallen { table files.new.items ≡ (λ a n.
        option_map (fallen choice) (table files.old.items a n)) }
    ensures order { InOrder files.new.items }
{
    for i in 0..files.len() {
        files[i].file.fall(choice);
    }
}
