// The changes of a promotion are made.
ghost use Rattle.std.specs.Prelude.{◌≡◌, length, IfOk, IsTrue};
ghost use Rattle.mesh_list.specs.Counts.{risen};
ghost use Rattle.mesh_house_book.specs.WellFormed.{is_moment};
ghost use Rattle.mesh_house.specs.Runs.{Makes};
ghost use Rattle.mesh_janitor.specs.promote.Promotion.{promotion};

use crate::making::make_counted;
use crate::promote::changes::promotion;
use mesh_base::Refs;
use mesh_base_values::{Names, Str};
use mesh_house::{Warehouse, WhFail};
use mesh_house_book::Book;
use std::alloc::Global;

/// Gives the environment the list, points the view of each of its models at that model's object, drops the views of
/// the models that it had before and has no more, and finalizes it. The environment's record is that of this book,
/// which was read before. The answer is the number of the changes, each one call.
pub fn promote<W: Warehouse>(
    alloc: Global,
    house: &mut W,
    b: &Book,
    env: &Str,
    list: &Refs,
    objects: &Names,
    t: i64,
) -> Result<u64, WhFail>
    requires { IsTrue (is_moment t) }
    ensures makes { Makes (λ w. promotion b.now env.now list.now objects.now t) (W.told house.old) (W.told house.new) result }
    ensures number { IfOk result (λ made. made ≡ length (promotion b.now env.now list.now objects.now t)) }
    ensures calls { IfOk result (λ made. (W.told house.new).calls ≡ risen made (W.told house.old).calls) }
{
    let changes = promotion(alloc, b, env, list, objects, t)?;
    make_counted(alloc, house, changes.as_slice())
}
