// Queries in print.
use crate::tree::{put_expr, put_qualified};
use mesh_base_values::Str;
use mesh_cases::Pen;
use mesh_query_grammar::surface::{
    OrExpr, Surface, SurfaceFrom, SurfaceItem, SurfaceJoin, SurfaceRel, SurfaceSelect, SurfaceUnion,
};

pub fn put_query(pen: &mut Pen, query: &Surface) {
    for cte in query.ctes.as_slice() {
        pen.put(b"with ");
        pen.put(cte.name.as_slice());
        pen.put(b"{");
        put_union(pen, &cte.body);
        pen.put(b"} ");
    }
    put_union(pen, &query.body);
}

fn put_union(pen: &mut Pen, union: &SurfaceUnion) {
    for select in union.selects.as_slice() {
        put_select(pen, select);
    }
}

fn put_select(pen: &mut Pen, select: &SurfaceSelect) {
    pen.put(b"<");
    pen.put_if(select.distinct, b"distinct");
    for item in select.items.as_slice() {
        pen.put(b" ");
        put_item(pen, item);
    }
    if let Some(from) = &select.from {
        put_from(pen, from);
    }
    put_condition(pen, b"|where ", &select.filter);
    for key in select.keys.as_slice() {
        pen.put(b"|key ");
        put_expr(pen, key);
    }
    put_condition(pen, b"|having ", &select.having);
    pen.put(b">");
}

fn put_condition(pen: &mut Pen, word: &[u8], condition: &Option<OrExpr>) {
    if let Some(condition) = condition {
        pen.put(word);
        put_expr(pen, condition);
    }
}

fn put_item(pen: &mut Pen, item: &SurfaceItem) {
    match item {
        SurfaceItem::All { .. } => pen.put(b"*"),
        SurfaceItem::AllOf { item, .. } => {
            pen.put(item.as_slice());
            pen.put(b".*");
        }
        SurfaceItem::Value { value, alias, .. } => {
            put_expr(pen, value);
            put_alias(pen, alias);
        }
    }
}

fn put_alias(pen: &mut Pen, alias: &Option<Str>) {
    if let Some(name) = alias {
        pen.put(b"=");
        pen.put(name.as_slice());
    }
}

fn put_from(pen: &mut Pen, from: &SurfaceFrom) {
    pen.put(b"|from ");
    put_rel(pen, &from.first);
    for join in from.joins.as_slice() {
        put_join(pen, join);
    }
}

fn put_join(pen: &mut Pen, join: &SurfaceJoin) {
    match join {
        SurfaceJoin::Comma { rel, .. } => {
            pen.put(b",");
            put_rel(pen, rel);
        }
        SurfaceJoin::Cross { rel, .. } => {
            pen.put(b" cross ");
            put_rel(pen, rel);
        }
        SurfaceJoin::Inner { rel, on, .. } => {
            pen.put(b" inner ");
            put_rel_on(pen, rel, on);
        }
        SurfaceJoin::Left { rel, on, .. } => {
            pen.put(b" left ");
            put_rel_on(pen, rel, on);
        }
    }
}

fn put_rel_on(pen: &mut Pen, rel: &SurfaceRel, on: &OrExpr) {
    put_rel(pen, rel);
    pen.put(b"?");
    put_expr(pen, on);
}

fn put_rel(pen: &mut Pen, rel: &SurfaceRel) {
    put_qualified(pen, &rel.schema, &rel.name);
    put_alias(pen, &rel.alias);
}
