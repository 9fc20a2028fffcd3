//! A disk of many files in areas, and told output, with one clock.
ghost use Rattle.std.specs.Prelude.{◌≡◌, ◌≤◌, Bool, length, IsTrue, IsSome, IfOk, OnOk, OnErr, IsSomeAnd, is_some, false};
ghost use Rattle.q_host.specs.Files.{SameNames, same_place};
ghost use Rattle.q_host.specs.Reads.{IsListing, IsPart, IsSize, Rise};
ghost use Rattle.q_host.specs.View.{CountsNow, now, Remains, Told, View};
ghost use Rattle.q_host.specs.Calls.{Creates, MayCreate, MayRemove, MayRename, Removes, Renames, Stays, Syncs, TellsAll, TellsSome, WritesAll, WritesSome};
ghost use Rattle.q_host.specs.Faults.{DiskCause, Faults, MemoryCause, TellCause};

use crate::HostError;
use q_model::{Area, Name, Names};

/// A disk of many files in areas, and told output, with one clock. A file is named by its area
/// and a name in it; offsets and sizes count bytes from 0. The told output only grows.
///
/// A crash may come at any moment, inside a call too. Making, renaming and removing a file happen
/// whole or not at all and are durable once they answer Ok (as rename(2) in a folder that is
/// synced). Bytes that were written are durable once their file was synced (fsync(2)). What was
/// told stays told.
///
/// Every call may answer `NoMemory`, and the host is then as it was. Else the calls for files
/// answer only `Disk`, and `tell` only `Tell`, and each such answer is counted. Where a host tells
/// its files, it is an error to read, change, move or take away one that isn't there, to write past
/// its end or to move it to its own place; where it doesn't, that is a disk fault.
pub trait Host {
    /// Whether it tells its content. Where it doesn't, as a host over the system's files cannot,
    /// its view says nothing, and what is said of its view holds of no call.
    ghost tells: { Bool };

    /// What reads give, what was told, and what a crash may leave now and may have left since
    /// an earlier moment.
    ghost view: { Self → View };

    /// How often the disk has failed, and how often telling has. Neither count falls; each may
    /// stop at 2^64 - 1.
    ghost faults: { Self → Faults };

    /// Replaces what stands in `out` by the names of an area after `after` (all where it is
    /// `None`), in the order of bytes: the 64 least of them, or all.
    fn list_after(
        &mut self,
        area: Area,
        after: Option<Name>,
        out: &mut Names,
    ) -> Result<(), HostError>
        ensures form { OnOk result (Rise after out.new × (length out.new ≤ 64)) }
        ensures names { OnOk result (IsTrue tells → IsListing ((view self.old).files area) after out.new) }
        ensures stays { Told tells view self.old self.new Stays }
        ensures memory { MemoryCause tells view faults self.old self.new result }
        ensures cause { DiskCause (faults self.old) (faults self.new) result };

    /// Whether a file stands there.
    fn has(&mut self, area: Area, name: Name) -> Result<bool, HostError>
        ensures found { IfOk result (λ found. IsTrue tells → found ≡ is_some ((view self.old).files area name)) }
        ensures stays { Told tells view self.old self.new Stays }
        ensures memory { MemoryCause tells view faults self.old self.new result }
        ensures cause { DiskCause (faults self.old) (faults self.new) result };

    /// How many bytes a file has.
    fn size(&mut self, area: Area, name: Name) -> Result<u64, HostError>
        requires { IsTrue tells → IsSome ((view self.old).files area name) }
        ensures size { IfOk result (λ size. IsTrue tells → IsSize (view self.old) area name size) }
        ensures stays { Told tells view self.old self.new Stays }
        ensures memory { MemoryCause tells view faults self.old self.new result }
        ensures cause { DiskCause (faults self.old) (faults self.new) result };

    /// Reads from an offset on, until the buffer is full or the file ends, and answers how many
    /// bytes it put at the buffer's front; none where the offset is at the file's end or past it.
    fn read(&mut self, area: Area, name: Name, at: u64, buf: &mut [u8]) -> Result<usize, HostError>
        requires { IsTrue tells → IsSome ((view self.old).files area name) }
        ensures within { IfOk result (λ count. count ≤ length buf.new) }
        ensures bytes { IfOk result (λ n. IsTrue tells → IsPart (view self.old) area name at buf.old buf.new n) }
        ensures stays { Told tells view self.old self.new Stays }
        ensures memory { MemoryCause tells view faults self.old self.new result }
        ensures cause { DiskCause (faults self.old) (faults self.new) result };

    /// Makes an empty file, in place of any of that name. After a fault it is made or not.
    fn create(&mut self, area: Area, name: Name) -> Result<(), HostError>
        ensures ok { OnOk result (Told tells view self.old self.new (Creates area name)) }
        ensures err { OnErr result (Told tells view self.old self.new (MayCreate area name)) }
        ensures memory { MemoryCause tells view faults self.old self.new result }
        ensures cause { DiskCause (faults self.old) (faults self.new) result };

    /// Writes over what is there and past the end, from an offset on that is at most the file's
    /// length. Until it is synced, a crash may leave any bytes in the range, and any length from
    /// the old one to the new. After a fault some first part is written, perhaps all.
    fn write_at(&mut self, area: Area, name: Name, at: u64, bytes: &[u8]) -> Result<(), HostError>
        requires { IsTrue tells → IsSomeAnd ((view self.old).files area name) (λ file. at ≤ length file) }
        ensures ok { OnOk result (Told tells view self.old self.new (WritesAll area name at bytes.now)) }
        ensures err { OnErr result (Told tells view self.old self.new (WritesSome area name at bytes.now)) }
        ensures memory { MemoryCause tells view faults self.old self.new result }
        ensures cause { DiskCause (faults self.old) (faults self.new) result };

    /// Makes a file's bytes durable: after it, a crash leaves of this file what a read gives.
    /// After a fault nothing has changed.
    fn sync(&mut self, area: Area, name: Name) -> Result<(), HostError>
        requires { IsTrue tells → IsSome ((view self.old).files area name) }
        ensures ok { OnOk result (Told tells view self.old self.new (Syncs area name)) }
        ensures err { OnErr result (Told tells view self.old self.new Stays) }
        ensures memory { MemoryCause tells view faults self.old self.new result }
        ensures cause { DiskCause (faults self.old) (faults self.new) result };

    /// Moves a file to another place, over any file there. The two places differ. After a fault
    /// it is moved or not.
    fn rename(&mut self, area: Area, name: Name, to: Area, new: Name) -> Result<(), HostError>
        requires there { IsTrue tells → IsSome ((view self.old).files area name) }
        requires differ { IsTrue tells → same_place area name to new ≡ false }
        ensures ok { OnOk result (Told tells view self.old self.new (Renames area name to new)) }
        ensures err { OnErr result (Told tells view self.old self.new (MayRename area name to new)) }
        ensures memory { MemoryCause tells view faults self.old self.new result }
        ensures cause { DiskCause (faults self.old) (faults self.new) result };

    /// Takes a file away. After a fault it is taken away or not.
    fn remove(&mut self, area: Area, name: Name) -> Result<(), HostError>
        requires { IsTrue tells → IsSome ((view self.old).files area name) }
        ensures ok { OnOk result (Told tells view self.old self.new (Removes area name)) }
        ensures err { OnErr result (Told tells view self.old self.new (MayRemove area name)) }
        ensures memory { MemoryCause tells view faults self.old self.new result }
        ensures cause { DiskCause (faults self.old) (faults self.new) result };

    /// Adds bytes at the end of what is told. A crash during it, or a fault, leaves some first
    /// part of them told.
    fn tell(&mut self, bytes: &[u8]) -> Result<(), HostError>
        ensures ok { OnOk result (Told tells view self.old self.new (TellsAll bytes.now)) }
        ensures err { OnErr result (Told tells view self.old self.new (TellsSome bytes.now)) }
        ensures memory { MemoryCause tells view faults self.old self.new result }
        ensures cause { TellCause (faults self.old) (faults self.new) result };

    /// What a crash may leave now, it may have left since any moment up to now.
    ghost counts_now: { (h : Self) → CountsNow (view h) };

    /// What it may have left since now, it may leave now.
    ghost only_now: { (h : Self) (c : Remains) → (view h).left_since (view h).moment c → (view h).may_leave c };

    /// A crash leaves all that was told, and nothing else told.
    ghost told_stays: { (h : Self) (c : Remains) → (view h).may_leave c → c.told ≡ (view h).told };

    /// A crash leaves a file exactly where reads give one: making, renaming and removing a file
    /// are durable at once.
    ghost names_stay: { (h : Self) (c : Remains) → (view h).may_leave c → SameNames (view h).files c.files };

    /// A crash may leave what reads give.
    ghost stays_whole: { (h : Self) → (view h).may_leave (now (view h)) };
}
