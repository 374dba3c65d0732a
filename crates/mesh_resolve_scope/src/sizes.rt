// How many nodes an expression would have once the operand of each CASE is written again for each WHEN.
ghost use Rattle.std.specs.Prelude.{◌≡◌, ◌-◌, ◌≤◌, ◌<◌, ◌^◌, ℕ, map};
ghost use Rattle.std.specs.List.{sum};
ghost use Rattle.std.specs.Option.{option_map};
ghost use Rattle.mesh_resolve_scope.specs.Sizes.{size, and_size, not_size, test_size, cat_size, sum_size, add_size, product_size, mul_size, unary_size, value_size, arm_size, args_size, copied, otherwise_size, when_size, is_too_large};

use mesh_list::{Boxed, Seq};
use mesh_query_grammar::surface::{
    AddExpr, AddStep, AndExpr, Args, Arm, CatExpr, MulExpr, MulStep, NotExpr, OrExpr, Primary,
    Test, Unary,
};
use mesh_resolve_types::LARGEST_CASE;

/// Whether an expression would take more nodes than one may, which is known before anything of it is made.
pub(crate) fn is_too_large(e: &OrExpr) -> bool
    ensures { result ≡ is_too_large e.now }
{
    room_beside(e, LARGEST_CASE + 1) == 0
}

/// What is left of the room once each node of the expression has taken a place of it.
#[cycle(sizes)]
fn room_beside(e: &OrExpr, room: u64) -> u64
    ensures { result ≡ room - size e.now }
{
    let parts = e.parts.as_slice();
    let mut left = beside_operators(parts.len(), room);
    for part in parts {
        left = and_room(part, left);
    }
    left
}

// So many parts have an operator between each two.
fn beside_operators(parts: usize, room: u64) -> u64
    ensures { result ≡ room - (parts - 1) }
{
    room.saturating_sub(parts.saturating_sub(1) as u64)
}

#[cycle(sizes)]
fn and_room(e: &AndExpr, room: u64) -> u64
    ensures { result ≡ room - and_size e.now }
{
    let parts = e.parts.as_slice();
    let mut left = beside_operators(parts.len(), room);
    for part in parts {
        left = not_room(part, left);
    }
    left
}

#[cycle(sizes)]
fn not_room(e: &NotExpr, room: u64) -> u64
    ensures { result ≡ room - not_size e.now }
{
    match e {
        NotExpr::Not { inner, .. } => not_room(inner.get(), room.saturating_sub(1)),
        NotExpr::Plain { pred, .. } => {
            let room = cat_room(&pred.left, room);
            test_room(&pred.test, room)
        }
    }
}

#[cycle(sizes)]
fn test_room(test: &Test, room: u64) -> u64
    ensures { result ≡ room - test_size test.now }
{
    match test {
        Test::Nothing => room,
        Test::Compare { right, .. } => cat_room(right, room.saturating_sub(1)),
        Test::IsNull { .. } => room.saturating_sub(1),
        Test::Between { low, high, .. } => {
            let room = cat_room(low, room.saturating_sub(1));
            cat_room(high, room)
        }
        Test::OneOf { of, .. } => room_beside_all(of, room.saturating_sub(1)),
    }
}

#[cycle(sizes)]
fn room_beside_all(all: &Seq<OrExpr>, room: u64) -> u64
    ensures { result ≡ room - sum (map size all.now) }
{
    let mut left = room;
    for e in all.as_slice() {
        left = room_beside(e, left);
    }
    left
}

#[cycle(sizes)]
fn cat_room(e: &CatExpr, room: u64) -> u64
    ensures { result ≡ room - cat_size e.now }
{
    let parts = e.parts.as_slice();
    let mut left = beside_operators(parts.len(), room);
    for part in parts {
        left = sum_room(part, left);
    }
    left
}

#[cycle(sizes)]
fn sum_room(e: &AddExpr, room: u64) -> u64
    ensures { result ≡ room - sum_size e.now }
{
    let mut left = product_room(&e.first, room);
    for step in e.rest.as_slice() {
        left = add_room(step, left);
    }
    left
}

#[cycle(sizes)]
fn add_room(step: &AddStep, room: u64) -> u64
    ensures { result ≡ room - add_size step.now }
{
    product_room(&step.part, room.saturating_sub(1))
}

#[cycle(sizes)]
fn product_room(e: &MulExpr, room: u64) -> u64
    ensures { result ≡ room - product_size e.now }
{
    let mut left = unary_room(&e.first, room);
    for step in e.rest.as_slice() {
        left = mul_room(step, left);
    }
    left
}

#[cycle(sizes)]
fn mul_room(step: &MulStep, room: u64) -> u64
    ensures { result ≡ room - mul_size step.now }
{
    unary_room(&step.part, room.saturating_sub(1))
}

#[cycle(sizes)]
fn unary_room(e: &Unary, room: u64) -> u64
    ensures { result ≡ room - unary_size e.now }
{
    match e {
        Unary::Minus { inner, .. } => unary_room(inner.get(), room.saturating_sub(1)),
        Unary::Plain { post, .. } => {
            let room = value_room(&post.value, room);
            room.saturating_sub(post.casts.as_slice().len() as u64)
        }
    }
}

#[cycle(sizes)]
fn value_room(value: &Primary, room: u64) -> u64
    ensures { result ≡ room - value_size value.now }
{
    match value {
        Primary::Number { .. }
        | Primary::Text { .. }
        | Primary::Date { .. }
        | Primary::Truth { .. }
        | Primary::Null { .. }
        | Primary::Macro { .. }
        | Primary::Column { .. } => room.saturating_sub(1),
        Primary::Call { args, .. } => args_room(args, room.saturating_sub(1)),
        Primary::Group { inner, .. } => room_beside(inner.get(), room),
        Primary::Case {
            operand,
            arms,
            otherwise,
            ..
        } => {
            let copy = copy_size(operand);
            let room = otherwise_room(otherwise, room.saturating_sub(1));
            arms_room(arms, operand, copy, room)
        }
        Primary::Cast { value, .. } => room_beside(value.get(), room.saturating_sub(1)),
    }
}

// How many nodes the comparison with a copy of the operand has, or the greatest number where there are more.
#[cycle(sizes)]
fn copy_size(operand: &Option<Boxed<OrExpr>>) -> u64
    ensures { (room : ℕ) → room < 2 ^ 64 → room - result ≡ room - copied (option_map size operand.now) }
{
    match operand {
        None => 0,
        Some(e) => u64::MAX - room_beside(e.get(), u64::MAX - 1),
    }
}

#[cycle(sizes)]
fn otherwise_room(e: &Option<Boxed<OrExpr>>, room: u64) -> u64
    ensures { result ≡ room - otherwise_size (option_map size e.now) }
{
    match e {
        None => room.saturating_sub(1),
        Some(e) => room_beside(e.get(), room),
    }
}

#[cycle(sizes)]
fn arms_room(arms: &Seq<Arm>, operand: &Option<Boxed<OrExpr>>, copy: u64, room: u64) -> u64
    requires { (room : ℕ) → room < 2 ^ 64 → room - copy ≡ room - copied (option_map size operand.now) }
    ensures { result ≡ room - sum (map (when_size (option_map size operand.now)) (map arm_size arms.now)) }
{
    let mut left = room;
    for arm in arms.as_slice() {
        left = arm_room(arm, left.saturating_sub(copy));
    }
    left
}

#[cycle(sizes)]
fn arm_room(arm: &Arm, room: u64) -> u64
    ensures { result ≡ room - arm_size arm.now }
{
    let room = room_beside(&arm.test, room);
    room_beside(&arm.value, room)
}

#[cycle(sizes)]
fn args_room(args: &Args, room: u64) -> u64
    ensures { result ≡ room - args_size args.now }
{
    match args {
        Args::Star { .. } => room,
        Args::Distinct { value, .. } => room_beside(value.get(), room),
        Args::List { values, .. } => room_beside_all(values, room),
    }
}
