// The rows of the words' query.
ghost use Rattle.std.specs.Prelude.{Result};
ghost use Rattle.mesh_query_grammar.specs.declared.surface.queries.Surface.{Surface};
ghost use Rattle.mesh_query_tokens.specs.declared.faults.ReadFault.{ReadFault};
ghost use Rattle.mesh_model.specs.Reads.{IsQueryRead};
ghost use Rattle.mesh_cli_look.specs.asking.Looks.{Looks};
ghost use Rattle.mesh_cli_look.specs.asking.Fetched.{fetched, word_tokens};

use crate::asking::books::book_of;
use crate::asking::printed::asked_text;
use crate::asking::words::worded;
use mesh_base_values::Str;
use mesh_cli_print::printed::Refusal;
use mesh_house::Warehouse;
use mesh_house_book::Book;
use std::alloc::Global;

fn fetched<W: Warehouse>(
    alloc: Global,
    house: &mut W,
    b: &Book,
    query: &Str,
    env: &Str,
) -> Result<Str, Refusal>
    ensures { (tree : Result Surface ReadFault) × IsQueryRead (word_tokens query.now) 0 tree
        × Looks (fetched b.now env.now query.now tree) (W.told house.old) (W.told house.new) result }
{
    let q = worded(alloc, b, env, query)?;
    asked_text(alloc, house, b, env, &q)
}

/// The rows of a query over the models of an environment, as they are printed. The query sees no sources and no macros.
pub fn fetchdf<W: Warehouse>(
    alloc: Global,
    house: &mut W,
    query: &Str,
    env: &Str,
) -> Result<Str, Refusal>
    ensures { (tree : Result Surface ReadFault) × IsQueryRead (word_tokens query.now) 0 tree
        × Looks (λ w. fetched w.book env.now query.now tree w) (W.told house.old) (W.told house.new) result }
{
    let b = book_of(alloc, house)?;
    fetched(alloc, house, &b, query, env)
}
