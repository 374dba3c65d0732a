//! The syntax tree of a query: one type for each rule of the grammar, with a field for each part of the rule and a
//! variant for each of its alternatives.

mod expressions;
mod queries;
mod signs;

pub use expressions::{
    AddExpr, AddStep, AndExpr, Args, Arm, CatExpr, MulExpr, MulStep, NotExpr, OrExpr, Post, Pred,
    Primary, Test, Unary,
};
pub use queries::{
    Surface, SurfaceCte, SurfaceFrom, SurfaceItem, SurfaceJoin, SurfaceRel, SurfaceSelect,
    SurfaceUnion,
};
pub use signs::{AddSign, Cmp, Function, MulSign};
