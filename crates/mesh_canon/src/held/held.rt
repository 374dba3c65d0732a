// What fits because it is held, and lists of it.
ghost use Rattle.std.specs.Prelude.{◌≡◌, Bool, true};
ghost use Rattle.std.specs.List.{list_all};

use mesh_list::Seq;

/// A value that fits wherever a program holds it.
pub(crate) trait Held {
    ghost fits: { Self → Bool };

    /// It fits.
    fn rule(&self)
        ensures { fits self.now ≡ true };
}

/// All of these fit.
pub(crate) fn all_rule<T: Held>(all: &[T])
    ensures { list_all T.fits all.now ≡ true }
{
    for item in all {
        item.rule();
    }
}

impl<T: Held> Held for Seq<T> {
    ghost fits = { list_all T.fits };

    fn rule(&self) {
        all_rule(self.as_slice())
    }
}
