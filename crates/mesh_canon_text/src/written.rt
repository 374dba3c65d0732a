// What has a text, and lists of it.
ghost use Rattle.std.specs.Prelude.{◌≡◌, ◌++◌, ℕ, List, OnOk};
ghost use Rattle.mesh_canon_text.specs.Text.{list_of, members, spaced};

use crate::number_text::put;
use mesh_list::Memory;

/// A value that is written at the end of what is written so far.
pub(crate) trait Written {
    ghost text: { Self → List ℕ };

    fn put(&self, out: &mut Vec<u8>) -> Result<(), Memory>
        ensures { OnOk result (out.new.items ≡ out.old.items ++ text self.now) };
}

/// The members in brackets, with a space between.
#[tactic(auto, unfolding(crate::specs::Text::list_of))]
pub(crate) fn put_list<T: Written>(out: &mut Vec<u8>, all: &[T]) -> Result<(), Memory>
    ensures { OnOk result (out.new.items ≡ out.old.items ++ list_of T.text all.now) }
{
    put(out, b"[")?;
    put_members(out, all)?;
    put(out, b"]")
}

/// The same, and these bytes behind it.
pub(crate) fn put_list_then<T: Written>(
    out: &mut Vec<u8>,
    all: &[T],
    behind: &[u8],
) -> Result<(), Memory>
    ensures { OnOk result (out.new.items ≡ out.old.items ++ (list_of T.text all.now ++ behind.now)) }
{
    put_list(out, all)?;
    put(out, behind)
}

#[tactic(auto, unfolding(crate::specs::Text::members))]
fn put_members<T: Written>(out: &mut Vec<u8>, all: &[T]) -> Result<(), Memory>
    ensures { OnOk result (out.new.items ≡ out.old.items ++ members T.text all.now) }
{
    match all {
        [] => Ok(()),
        [first, rest @ ..] => {
            first.put(out)?;
            put_spaced(out, rest)
        }
    }
}

// Each member behind a space.
#[tactic(auto, unfolding(crate::specs::Text::spaced))]
fn put_spaced<T: Written>(out: &mut Vec<u8>, all: &[T]) -> Result<(), Memory>
    ensures { OnOk result (out.new.items ≡ out.old.items ++ spaced T.text all.now) }
{
    for item in all {
        out.push(b' ')?;
        item.put(out)?;
    }
    Ok(())
}
