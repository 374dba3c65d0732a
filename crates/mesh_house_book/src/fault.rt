// Where a book first breaks the rules of a well-formed one.
ghost use Rattle.std.specs.Prelude.{◌≡◌, ◌↔◌, IsNone, IsTrue};
ghost use Rattle.mesh_house_book.specs.WellFormed.{book_fault, envs_breach, is_well_formed_book, front_breach, snapshots_breach, versions_breach};

use crate::book::{BOOK_VERSION, Book, OLD_VERSION};
use crate::fits::{is_above, is_env_fit, is_snapshot_fit};
use crate::versions::{Version, Versions};
use mesh_base::{Envs, Snapshots};
use mesh_base_values::{FIRST_MOMENT, LAST_MOMENT};

/// The moment and the version, in `BookFault`.
pub const MOMENT_PART: u8 = 1;

/// The snapshots, in `BookFault`.
pub const SNAPSHOTS_PART: u8 = 2;

/// The versions, in `BookFault`.
pub const VERSIONS_PART: u8 = 3;

/// The environments, in `BookFault`.
pub const ENVIRONMENTS_PART: u8 = 4;

/// A part of a book, and the first place in it, from 0, that breaks a rule.
#[derive(Clone, Copy, PartialEq, Eq)]
pub struct BookFault {
    pub part: u8,
    pub place: u64,
}

fn front_breach(moment: i64, version: u32) -> Option<u64>
    ensures { result ≡ front_breach moment version }
{
    let is_moment = moment >= FIRST_MOMENT && moment <= LAST_MOMENT;
    if is_moment && (version == OLD_VERSION || version == BOOK_VERSION) {
        None
    } else {
        Some(0)
    }
}

fn snapshots_breach(version: u32, all: &Snapshots) -> Option<u64>
    ensures { result ≡ snapshots_breach version all.now }
{
    let mut before = None;
    for (i, snapshot) in all.as_slice().iter().enumerate() {
        if !is_snapshot_fit(version, all, before, snapshot) {
            return Some(i as u64);
        }
        before = Some(snapshot);
    }
    None
}

fn versions_breach(versions: &Versions) -> Option<u64>
    ensures { result ≡ versions_breach versions.now }
{
    let mut before: Option<&Version> = None;
    for (i, version) in versions.as_slice().iter().enumerate() {
        if !is_above(before, version) {
            return Some(i as u64);
        }
        before = Some(version);
    }
    None
}

fn envs_breach(all: &Snapshots, envs: &Envs) -> Option<u64>
    ensures { result ≡ envs_breach all.now envs.now }
{
    let mut before = None;
    for (i, env) in envs.as_slice().iter().enumerate() {
        if !is_env_fit(all, before, env) {
            return Some(i as u64);
        }
        before = Some(env);
    }
    None
}

fn first_fault(b: &Book) -> Option<BookFault>
    ensures { result ≡ book_fault b.now }
{
    if let Some(place) = front_breach(b.moment, b.version) {
        return Some(BookFault {
            part: MOMENT_PART,
            place,
        });
    }
    if let Some(place) = snapshots_breach(b.version, &b.snapshots) {
        return Some(BookFault {
            part: SNAPSHOTS_PART,
            place,
        });
    }
    if let Some(place) = versions_breach(&b.versions) {
        return Some(BookFault {
            part: VERSIONS_PART,
            place,
        });
    }
    match envs_breach(&b.snapshots, &b.environments) {
        Some(place) => Some(BookFault {
            part: ENVIRONMENTS_PART,
            place,
        }),
        None => None,
    }
}

/// The first place where the book breaks a rule of well-formed ones, or none where it keeps them all. It takes no
/// memory.
pub fn book_fault(b: &Book) -> Option<BookFault>
    ensures first { result ≡ book_fault b.now }
    ensures none { IsNone result ↔ IsTrue (is_well_formed_book b.now) }
{
    first_fault(b)
}
