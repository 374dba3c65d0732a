// Copies of what a warehouse has, which are equal to it.
ghost use Rattle.std.specs.Prelude.{◌≡◌, IfOk, Ok, Some};

use crate::objects::{Body, Object};
use crate::world::{ViewOf, World};
use mesh_base::Own;
use mesh_base_values::{Columns, Name, Pairs, Rows};
use mesh_list::{Duplicate, Memory, both, together};

/// A copy of what is there.
pub(crate) fn some_copied<T: Duplicate>(item: &T) -> Result<Option<T>, Memory>
    ensures { IfOk result (λ made. made ≡ Some item.now) }
{
    Ok(Some(item.copy()?))
}

/// A table's body with these rows.
pub(crate) fn table_of(rows: &Rows) -> Result<Body, Memory>
    ensures { IfOk result (λ made. made ≡ Body.Rows rows.now) }
{
    Ok(Body::Rows(rows.copy()?))
}

/// A stored query's body.
pub(crate) fn query_of(own: &Own, targets: &Pairs) -> Result<Body, Memory>
    ensures { IfOk result (λ made. made ≡ Body.Stored own.now targets.now) }
{
    let (own, targets) = both(own, targets)?;
    Ok(Body::Stored { own, targets })
}

/// An object of these parts, where all of them were made.
pub(crate) fn object_of(
    head: Result<(Name, Columns), Memory>,
    body: Result<Body, Memory>,
) -> Result<Object, Memory>
    ensures { IfOk result (λ made. (head ≡ Ok (made.name, made.columns)) × (body ≡ Ok made.body)) }
{
    let ((name, columns), body) = together(head, body)?;
    Ok(Object {
        name,
        columns,
        body,
    })
}

impl Duplicate for Body {
    fn copy(&self) -> Result<Body, Memory> {
        match self {
            Body::Rows(rows) => table_of(rows),
            Body::Stored { own, targets } => query_of(own, targets),
        }
    }
}

impl Duplicate for Object {
    fn copy(&self) -> Result<Object, Memory> {
        object_of(both(&self.name, &self.columns), self.body.copy())
    }
}

impl Duplicate for ViewOf {
    fn copy(&self) -> Result<ViewOf, Memory> {
        let (view, target) = both(&self.view, &self.target)?;
        Ok(ViewOf { view, target })
    }
}

impl Duplicate for World {
    fn copy(&self) -> Result<World, Memory> {
        let first = both(&self.sources, &self.objects);
        let ((sources, objects), (views, book)) = together(first, both(&self.views, &self.book))?;
        Ok(World {
            sources,
            objects,
            views,
            book,
        })
    }
}
