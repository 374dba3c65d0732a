// How many nodes a CASE would have once its operand is written again for each WHEN.
ghost use Rattle.std.specs.Prelude.{◌≡◌, ◌-◌, ◌≤◌, map, IsTrue};
ghost use Rattle.std.specs.List.{sum};
ghost use Rattle.mesh_base.specs.Nodes.{nodes};
ghost use Rattle.mesh_resolve_types.specs.Sizes.{when_size, else_size, arm_size, case_size, largest_case, IsSmall};

use crate::typed::{Arms, Typed};
use mesh_base::{Expr, When};

/// The most nodes that an expression has once the operand of each CASE is written again for each WHEN.
pub const LARGEST_CASE: u64 = 16_777_216;

/// What is left of the room once each node of the expression has taken a place of it. The walk ends where none is left.
#[cycle(sizes)]
fn room_beside(e: &Expr, room: u64) -> u64
    ensures { result ≡ room - nodes e.now }
{
    if room == 0 {
        return 0;
    }
    let room = room - 1;
    match e {
        Expr::Literal(_) | Expr::Col { .. } | Expr::Macro(_) | Expr::CountAll => room,
        Expr::Neg(value)
        | Expr::Not(value)
        | Expr::IsNull(value)
        | Expr::Cast { value, .. }
        | Expr::Agg { value, .. } => room_beside(value.get(), room),
        Expr::Binary { left, right, .. } => {
            let room = room_beside(left.get(), room);
            room_beside(right.get(), room)
        }
        Expr::Between { value, low, high } => {
            let room = room_beside(value.get(), room);
            let room = room_beside(low.get(), room);
            room_beside(high.get(), room)
        }
        Expr::OneOf { value, of } => {
            let room = room_beside(value.get(), room);
            room_beside_all(of.as_slice(), room)
        }
        Expr::Call { args, .. } => room_beside_all(args.as_slice(), room),
        Expr::Case { whens, otherwise } => {
            let room = room_beside(otherwise.get(), room);
            room_beside_whens(whens.as_slice(), room)
        }
    }
}

#[cycle(sizes)]
fn room_beside_all(all: &[Expr], room: u64) -> u64
    ensures { result ≡ room - sum (map nodes all.now) }
{
    let mut left = room;
    for e in all {
        left = room_beside(e, left);
    }
    left
}

#[cycle(sizes)]
fn room_beside_whens(whens: &[When], room: u64) -> u64
    ensures { result ≡ room - sum (map when_size whens.now) }
{
    let mut left = room;
    for w in whens {
        left = room_beside_when(w, left);
    }
    left
}

#[cycle(sizes)]
fn room_beside_when(w: &When, room: u64) -> u64
    ensures { result ≡ room - when_size w.now }
{
    let room = room_beside(&w.test, room);
    room_beside(&w.value, room)
}

fn room_beside_arm(a: &(Typed, Typed), operand: u64, room: u64) -> u64
    ensures { result ≡ room - arm_size operand a.now }
{
    let room = room.saturating_sub(1).saturating_sub(operand);
    let room = room_beside(a.0.expr.get(), room);
    room_beside(a.1.expr.get(), room)
}

fn room_beside_arms(arms: &[(Typed, Typed)], operand: u64, room: u64) -> u64
    ensures { result ≡ room - sum (map (arm_size operand) arms.now) }
{
    let mut left = room;
    for a in arms {
        left = room_beside_arm(a, operand, left);
    }
    left
}

fn room_beside_else(otherwise: &Option<Typed>, room: u64) -> u64
    ensures { result ≡ room - else_size otherwise.now }
{
    match otherwise {
        Some(t) => room_beside(t.expr.get(), room),
        None => room.saturating_sub(1),
    }
}

/// The operand is counted once, and then for each WHEN.
fn fits(operand: &Typed, arms: &Arms, otherwise: &Option<Typed>) -> bool
    ensures { IsTrue result → (case_size operand.now arms.now otherwise.now ≤ largest_case) }
{
    let left = room_beside(operand.expr.get(), LARGEST_CASE + 1);
    let operand = LARGEST_CASE + 1 - left;
    let room = room_beside_else(otherwise, LARGEST_CASE);
    let room = room_beside_arms(arms.as_slice(), operand, room);
    0 < left && 0 < room
}

/// Whether a CASE may be written out, which is known before anything is copied.
pub(crate) fn is_small(operand: &Option<Typed>, arms: &Arms, otherwise: &Option<Typed>) -> bool
    ensures { IsTrue result → IsSmall operand.now arms.now otherwise.now }
{
    match operand {
        Some(operand) => fits(operand, arms, otherwise),
        None => true,
    }
}
