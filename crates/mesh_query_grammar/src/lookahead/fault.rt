// Why tokens are no query, by the number of the token at fault.
ghost use Rattle.std.specs.Prelude.{◌≡◌};
ghost use Rattle.mesh_query_grammar.specs.declared.lookahead.fault.Fault.TheVariants.{Memory as OutOfMemory};

use mesh_list::Memory;

/// Memory is out, a token can't stand there, or too much is open at once.
#[derive(Clone, Copy)]
pub enum Fault {
    Memory,
    Syntax { token: usize },
    Nesting,
}

impl From<Memory> for Fault {
    ghost from_gives = { λ _ e. e ≡ OutOfMemory };

    fn from(_memory: Memory) -> Fault {
        Fault::Memory
    }
}
