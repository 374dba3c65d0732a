// Tests whether two values of a warehouse are the same.
use crate::objects::{Body, Object};
use crate::world::{ViewOf, World};
use mesh_list::Same;

impl Same for Body {
    fn same(&self, other: &Body) -> bool {
        match self {
            Body::Rows(mine) => match other {
                Body::Rows(others) => mine.same(others),
                Body::Stored { .. } => false,
            },
            Body::Stored { own, targets } => match other {
                Body::Rows(_) => false,
                Body::Stored { own: o, targets: t } => own.same(o) && targets.same(t),
            },
        }
    }
}

impl Same for Object {
    fn same(&self, other: &Object) -> bool {
        self.name.same(&other.name)
            && self.columns.same(&other.columns)
            && self.body.same(&other.body)
    }
}

impl Same for ViewOf {
    fn same(&self, other: &ViewOf) -> bool {
        self.view.same(&other.view) && self.target.same(&other.target)
    }
}

impl Same for World {
    fn same(&self, other: &World) -> bool {
        self.sources.same(&other.sources)
            && self.objects.same(&other.objects)
            && self.views.same(&other.views)
            && self.book.same(&other.book)
    }
}
