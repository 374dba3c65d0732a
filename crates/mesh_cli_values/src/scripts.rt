//! The lines of a script, and their words. Its contract: `line_words` answers the words of a line, some in double
//! quotes, or that it has none that can be told; `is_skipped` whether a line asks for nothing.

// The lines of a script.
ghost use Rattle.std.specs.Prelude.{◌≡◌, ◌++◌, ◌∷◌, [], IfOk, OnOk};
ghost use Rattle.mesh_cli_values.specs.declared.scripts.State.TheVariants as state;
ghost use Rattle.mesh_cli_values.specs.scripts.Scripts.{is_skipped, words_of};
ghost use Rattle.mesh_cli_values.specs.scripts.Splitting.{Steps, resumed};

use mesh_base_values::{Str, Strs};
use mesh_list::{Duplicate, Memory, Seq};
use std::alloc::Global;

/// Whether a line asks for nothing: it is empty, or begins with `#`.
pub fn is_skipped(line: &[u8]) -> bool
    ensures { result ≡ is_skipped line.now }
{
    match line {
        [] => true,
        [first, ..] => *first == b'#',
    }
}

/// Where splitting stands: between two words, in a plain word, in a quoted word, behind one, or at a quote that can't
/// stand.
#[derive(Clone, Copy)]
pub enum State {
    Between,
    Plain,
    Quoted,
    Closed,
    Wrong,
}

/// The words so far, and the one that was begun.
#[derive(Drop)]
pub struct Splitting {
    pub state: State,
    pub word: Str,
    pub words: Strs,
}

impl Splitting {
    /// The word that was begun is one.
    fn end(&mut self, state: State) -> Result<(), Memory>
        ensures { OnOk result ((self.new.state ≡ state) × (self.new.words ≡ self.old.words ++ self.old.word ∷ [])) }
    {
        let word = self.word.copy()?;
        self.words.push(word)?;
        self.state = state;
        Ok(())
    }

    /// A plain word begins.
    fn begin_plain(&mut self, b: u8) -> Result<(), Memory>
        ensures { OnOk result ((self.new.state ≡ state.Plain) × (self.new.word ≡ b ∷ []) × (self.new.words ≡ self.old.words)) }
    {
        self.state = State::Plain;
        self.word = Seq::new(self.words.alloc());
        self.word.push(b)
    }

    /// A byte between two words.
    fn begin(&mut self, b: u8) -> Result<(), Memory>
        requires { self.old.state ≡ state.Between }
        ensures { OnOk result (Steps b self.old self.new) }
    {
        if b == b' ' {
            return Ok(());
        }
        if b == b'"' {
            self.state = State::Quoted;
            self.word = Seq::new(self.words.alloc());
            return Ok(());
        }
        self.begin_plain(b)
    }

    /// A byte behind one of a plain word.
    fn go_on(&mut self, b: u8) -> Result<(), Memory>
        requires { self.old.state ≡ state.Plain }
        ensures { OnOk result (Steps b self.old self.new) }
    {
        if b == b' ' {
            return self.end(State::Between);
        }
        if b == b'"' {
            self.state = State::Wrong;
            return Ok(());
        }
        self.word.push(b)
    }

    /// A byte behind a quote.
    fn quote(&mut self, b: u8) -> Result<(), Memory>
        requires { self.old.state ≡ state.Quoted }
        ensures { OnOk result (Steps b self.old self.new) }
    {
        if b == b'"' {
            return self.end(State::Closed);
        }
        self.word.push(b)
    }

    /// A byte behind a quoted word.
    fn close(&mut self, b: u8)
        requires { self.old.state ≡ state.Closed }
        ensures { Steps b self.old self.new }
    {
        if b == b' ' {
            self.state = State::Between;
        } else {
            self.state = State::Wrong;
        }
    }

    /// One byte more of the line.
    fn step(&mut self, b: u8) -> Result<(), Memory>
        ensures { OnOk result (Steps b self.old self.new) }
    {
        match self.state {
            State::Between => self.begin(b),
            State::Plain => self.go_on(b),
            State::Quoted => self.quote(b),
            State::Closed => {
                self.close(b);
                Ok(())
            }
            State::Wrong => Ok(()),
        }
    }

    /// The words, once the line is at its end.
    fn ended(mut self) -> Result<Option<Strs>, Memory>
        ensures { IfOk result (λ words. words ≡ resumed self []) }
    {
        match self.state {
            State::Between | State::Closed => Ok(Some(self.words)),
            State::Plain => {
                self.end(State::Between)?;
                Ok(Some(self.words))
            }
            State::Quoted | State::Wrong => Ok(None),
        }
    }
}

/// The words of a line of a script.
pub fn line_words(alloc: Global, line: &[u8]) -> Result<Option<Strs>, Memory>
    ensures { IfOk result (λ words. words ≡ words_of line.now) }
{
    let mut splitting = Splitting {
        state: State::Between,
        word: Seq::new(alloc),
        words: Seq::new(alloc),
    };
    for b in line {
        splitting.step(*b)?;
    }
    splitting.ended()
}
