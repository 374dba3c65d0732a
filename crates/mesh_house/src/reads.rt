// What is read of a world.
ghost use Rattle.std.specs.Prelude.{◌≡◌, IfOk, Some};
ghost use Rattle.mesh_house.specs.World.{head, body};

use crate::copies::{some_copied, table_of};
use crate::objects::Body;
use crate::world::World;
use mesh_base::Input;
use mesh_base_values::{Columns, Name, has_two_underscores};
use mesh_list::Memory;

// What a source keeps.
fn source_body(source: &Input) -> Result<Option<Body>, Memory>
    ensures { IfOk result (λ kept. kept ≡ Some (Body.Rows source.now.rows)) }
{
    let body = table_of(&source.rows)?;
    Ok(Some(body))
}

impl World {
    /// The columns of the object of that name where two underscores adjoin in its schema, and else of the source.
    pub fn head(&self, name: &Name) -> Result<Option<Columns>, Memory>
        ensures { IfOk result (λ columns. columns ≡ head self.now name.now) }
    {
        if has_two_underscores(name.schema.as_slice()) {
            match self.objects.find(name) {
                Some(object) => some_copied(&object.columns),
                None => Ok(None),
            }
        } else {
            match self.sources.find(name) {
                Some(source) => some_copied(&source.columns),
                None => Ok(None),
            }
        }
    }

    /// What the object of that name keeps where two underscores adjoin in its schema, and else the source's rows.
    pub fn body(&self, name: &Name) -> Result<Option<Body>, Memory>
        ensures { IfOk result (λ kept. kept ≡ body self.now name.now) }
    {
        if has_two_underscores(name.schema.as_slice()) {
            match self.objects.find(name) {
                Some(object) => some_copied(&object.body),
                None => Ok(None),
            }
        } else {
            match self.sources.find(name) {
                Some(source) => source_body(source),
                None => Ok(None),
            }
        }
    }
}
