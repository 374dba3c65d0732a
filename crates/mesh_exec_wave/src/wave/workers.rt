// Workers that draw the numbers of their units from one word.
ghost use Rattle.std.specs.Prelude.{◌≡◌, ◌<◌, ◌≤◌, ◌*◌, ◌++◌, [], List, Ok, IfOk};
ghost use Rattle.std.specs.Thread.{IsSync};
ghost use Rattle.mesh_exec_wave.specs.claims.Claims.{joined};
ghost use Rattle.mesh_exec_wave.specs.wave.Workers.{IsDone};
ghost use Rattle.mesh_exec_wave.specs.declared.wave.parts.Part.{Part};

use crate::claims::{ClaimSeat, ClaimTable, absorb, another, draw};
use crate::wave::parts::{Parts, joined, with_part};
use crate::wave::units::Units;
use mesh_list::{Memory, Seq};
use std::alloc::Global;
use std::thread::{Threads, join};

/// What workers leave: a seat with the numbers that they drew, and the rows of the jobs of these numbers.
#[derive(Drop)]
pub(crate) struct Done {
    pub(crate) seat: ClaimSeat,
    pub(crate) made: Result<Parts, Memory>,
}

/// One worker: it draws numbers until one names no unit, and makes the rows of the others.
fn work<U: Units>(alloc: Global, units: &U, claims: &ClaimTable, mut seat: ClaimSeat) -> Done
    requires word { (claims.now.shared.table_id.words ≡ 1) × (seat.table_id ≡ claims.now.shared.table_id) }
    requires fresh { (0 < seat.me.0.parts) × (seat.me.0.drawn ≡ []) × (seat.me.1 ≡ []) }
    ensures word { (result.seat.table_id ≡ claims.now.shared.table_id) × (result.seat.me.0.parts ≡ seat.me.0.parts) × (result.seat.me.1 ≡ []) }
    ensures done { IsDone (U.wanted units.now) 257 result.seat.me.0.drawn result.made }
{
    let count = units.count();
    let mut made = Ok(Seq::new(alloc));
    for _ in 0..count + 1 {
        let number = draw(claims, &mut seat);
        if number >= count as u64 {
            break;
        }
        made = with_part(alloc, made, units, number as usize);
    }
    Done { seat, made }
}

/// Two seats in one, with what was made by both.
fn both(claims: &ClaimTable, left: Done, right: Done) -> Done
    requires word { claims.now.shared.table_id.words ≡ 1 }
    requires seats { (left.seat.table_id ≡ claims.now.shared.table_id) × (right.seat.table_id ≡ claims.now.shared.table_id) × (left.seat.me.1 ≡ []) × (right.seat.me.1 ≡ []) }
    ensures word { (result.seat.table_id ≡ claims.now.shared.table_id) × (result.seat.me.1 ≡ []) }
    ensures numbers { result.seat.me.0 ≡ joined left.seat.me.0 right.seat.me.0 }
    ensures made { IfOk result.made (λ parts. (first : List Part) × (second : List Part) × (left.made ≡ Ok first) × (right.made ≡ Ok second) × (parts ≡ first ++ second)) }
{
    let Done { mut seat, made } = left;
    absorb(claims, &mut seat, right.seat);
    Done {
        seat,
        made: joined(made, right.made),
    }
}

/// So many workers, half of them beside the other half. Where no thread can be made, one half follows the other.
#[cycle(work_all)]
pub(crate) fn work_all<R: Threads + Sync, U: Units + Sync>(
    rt: &R,
    alloc: Global,
    units: &U,
    claims: &ClaimTable,
    seat: ClaimSeat,
    workers: u32,
) -> Done
    requires word { (claims.now.shared.table_id.words ≡ 1) × (seat.table_id ≡ claims.now.shared.table_id) }
    requires fresh { (1 ≤ workers) × (workers ≤ seat.me.0.parts) × (seat.me.0.drawn ≡ []) × (seat.me.1 ≡ []) }
    ensures word { (result.seat.table_id ≡ claims.now.shared.table_id) × (result.seat.me.0.parts ≡ seat.me.0.parts) × (result.seat.me.1 ≡ []) }
    ensures done { IsDone (U.wanted units.now) (257 * workers) result.seat.me.0.drawn result.made }
{
    if workers <= 1 {
        return work(alloc, units, claims, seat);
    }
    let half = workers / 2;
    let others = workers - half;
    let mut mine = seat;
    let theirs = another(claims, &mut mine);
    let left = move || -> Done
        requires { IsSync R.row × IsSync U.row
            × (claims.now.shared.table_id.words ≡ 1) × (theirs.table_id ≡ claims.now.shared.table_id)
            × (1 ≤ half) × (half ≤ theirs.me.0.parts) × (theirs.me.0.drawn ≡ []) × (theirs.me.1 ≡ []) }
        ensures { (result.seat.table_id ≡ claims.entry.now.shared.table_id) × (result.seat.me.0.parts ≡ theirs.me.0.parts) × (result.seat.me.1 ≡ [])
            × IsDone (U.wanted units.entry.now) (257 * half) result.seat.me.0.drawn result.made }
    { work_all(rt, alloc, units, claims, theirs, half) };
    let right = move || -> Done
        requires { IsSync R.row × IsSync U.row
            × (claims.now.shared.table_id.words ≡ 1) × (mine.table_id ≡ claims.now.shared.table_id)
            × (1 ≤ others) × (others ≤ mine.me.0.parts) × (mine.me.0.drawn ≡ []) × (mine.me.1 ≡ []) }
        ensures { (result.seat.table_id ≡ claims.entry.now.shared.table_id) × (result.seat.me.0.parts ≡ mine.me.0.parts) × (result.seat.me.1 ≡ [])
            × IsDone (U.wanted units.entry.now) (257 * others) result.seat.me.0.drawn result.made }
    { work_all(rt, alloc, units, claims, mine, others) };
    let (theirs, mine) = join(rt, left, right);
    both(claims, mine, theirs)
}
