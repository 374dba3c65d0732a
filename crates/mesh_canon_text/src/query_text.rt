// Queries, written.
ghost use Rattle.std.specs.Prelude.{◌≡◌, ◌++◌, codes, OnOk};
ghost use Rattle.std.specs.Fmt.{decimal};
ghost use Rattle.mesh_canon_text.specs.Text.{◌·◌, cte_text, distinct_word, expr_text, from_text, grouped_word, item_text, join_word, list_of, option_text, query_text, rel_text, select_text};

use crate::expression_text::{put_last, put_option_then};
use crate::number_text::{put, put_between, put_number, put_pair, put_text_behind};
use crate::value_text::{put_name_between, type_word};
use crate::written::{Written, put_list_then};
use mesh_base::{FromItem, Item, Join, Query, Rel, Select, Selects};
use mesh_list::Memory;

impl Written for Item {
    ghost text = { item_text };

    #[tactic(auto, unfolding(crate::specs::Text::item_text))]
    fn put(&self, out: &mut Vec<u8>) -> Result<(), Memory> {
        put_text_behind(out, b"(as ", self.name.as_slice())?;
        put_pair(out, b" ", type_word(self.kind))?;
        put_last(out, b" ", &self.expr)
    }
}

// A CTE by its place.
fn put_place(out: &mut Vec<u8>, at: u32) -> Result<(), Memory>
    ensures { OnOk result (out.new.items ≡ out.old.items ++ (codes "(cte " · decimal at · codes ")")) }
{
    put(out, b"(cte ")?;
    put_number(out, u64::from(at))?;
    put(out, b")")
}

#[tactic(auto, unfolding(crate::specs::Text::rel_text))]
fn put_rel(out: &mut Vec<u8>, rel: &Rel) -> Result<(), Memory>
    ensures { OnOk result (out.new.items ≡ out.old.items ++ rel_text rel.now) }
{
    match rel {
        Rel::Named(name) => put_name_between(out, b"(rel ", name, b")"),
        Rel::Cte(at) => put_place(out, *at),
    }
}

fn join_word(join: Join) -> &'static [u8]
    ensures { result.now ≡ join_word join }
{
    match join {
        Join::First => b"first",
        Join::Inner => b"inner",
        Join::Left => b"left",
        Join::Cross => b"cross",
    }
}

impl Written for FromItem {
    ghost text = { from_text };

    #[tactic(auto, unfolding(crate::specs::Text::from_text))]
    fn put(&self, out: &mut Vec<u8>) -> Result<(), Memory> {
        put_between(out, b"(item ", join_word(self.join), b" ")?;
        put_rel(out, &self.rel)?;
        put(out, b" ")?;
        put_option_then(out, &self.on, b")")
    }
}

fn distinct_word(distinct: bool) -> &'static [u8]
    ensures { result.now ≡ distinct_word distinct }
{
    if distinct { b"distinct" } else { b"all" }
}

fn grouped_word(grouped: bool) -> &'static [u8]
    ensures { result.now ≡ grouped_word grouped }
{
    if grouped { b"grouped" } else { b"plain" }
}

// Whether a SELECT is distinct, and whether it is grouped.
fn put_words(out: &mut Vec<u8>, s: &Select) -> Result<(), Memory>
    ensures { OnOk result (out.new.items ≡ out.old.items ++ (codes "(select " · distinct_word s.now.distinct · codes " " · grouped_word s.now.grouped · codes " ")) }
{
    put_between(out, b"(select ", distinct_word(s.distinct), b" ")?;
    put_pair(out, grouped_word(s.grouped), b" ")
}

// The items, and what they are read from.
fn put_items(out: &mut Vec<u8>, s: &Select) -> Result<(), Memory>
    ensures { OnOk result (out.new.items ≡ out.old.items ++ (list_of item_text s.now.items · codes " " · list_of from_text s.now.from · codes " ")) }
{
    put_list_then(out, s.items.as_slice(), b" ")?;
    put_list_then(out, s.from.as_slice(), b" ")
}

// WHERE, GROUP BY and HAVING.
fn put_conditions(out: &mut Vec<u8>, s: &Select) -> Result<(), Memory>
    ensures { OnOk result (out.new.items ≡ out.old.items ++ (option_text s.now.filter · codes " " · list_of expr_text s.now.keys · codes " " · option_text s.now.having · codes ")")) }
{
    put_option_then(out, &s.filter, b" ")?;
    put_list_then(out, s.keys.as_slice(), b" ")?;
    put_option_then(out, &s.having, b")")
}

impl Written for Select {
    ghost text = { select_text };

    #[tactic(auto, unfolding(crate::specs::Text::select_text))]
    fn put(&self, out: &mut Vec<u8>) -> Result<(), Memory> {
        put_words(out, self)?;
        put_items(out, self)?;
        put_conditions(out, self)
    }
}

impl Written for Selects {
    ghost text = { cte_text };

    #[tactic(auto, unfolding(crate::specs::Text::cte_text))]
    fn put(&self, out: &mut Vec<u8>) -> Result<(), Memory> {
        put(out, b"(cte ")?;
        put_list_then(out, self.as_slice(), b")")
    }
}

#[tactic(auto, unfolding(crate::specs::Text::query_text))]
pub(crate) fn put_query(out: &mut Vec<u8>, query: &Query) -> Result<(), Memory>
    ensures { OnOk result (out.new.items ≡ out.old.items ++ query_text query.now) }
{
    put(out, b"(query ")?;
    put_list_then(out, query.ctes.as_slice(), b" ")?;
    put_list_then(out, query.selects.as_slice(), b")")
}
