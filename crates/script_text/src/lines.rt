//! The lines of scripts.
ghost use Rattle.std.specs.Prelude.{◌≡◌};
ghost use Rattle.std.specs.Iterator.{YieldsFirst, item_count};
ghost use Rattle.script_text.specs.Scripts.{AreLawful};

use hsm_types::Daemon;
use plain_model::{Action, Actor};
use std::marker::Model;

/// A line of a script.
#[derive(Drop)]
pub enum Line {
    /// An event, which the history will have with its answer. The seed is that of data that were given as `p:LEN:SEED`, and the action has
    /// their bytes.
    Event {
        actor: Actor,
        action: Action,
        seed: Option<u8>,
    },
    /// Starts the daemon.
    Start(Daemon),
    /// Drops the daemon's machine.
    Kill(Daemon),
    /// Lets the daemon do one act, and nothing where it isn't running.
    Step(Daemon),
    /// Lets the daemons act, and callers resume whose accesses may go on, until all of them rest.
    Settle,
}

/// Which lines a command takes.
#[derive(Clone, Copy)]
pub enum Allowed {
    /// Lines of every kind.
    All,
    /// The calls that callers issue. A resume is none.
    Calls,
}

/// The lines of a script, in order, each lawful after those before it. Contracts see them as a list.
#[derive(Drop)]
pub struct Script {
    items: Vec<Line>,
}

impl Model for Script {
    ghost use Rattle.std.specs.Prelude.{List};
    ghost use Rattle.script_text.specs.declared.lines.Line.{Line};
    ghost use Rattle.script_text.specs.Scripts.{AreLawful};

    ghost Value = { List Line };

    ghost view = { λ s. s.items.items };

    ghost invariant = { λ s. AreLawful s.items.items };
}

impl Script {
    pub fn new(items: Vec<Line>) -> Script
        requires { AreLawful items.items }
        ensures { result ≡ items.items }
    {
        Script { items }
    }

    pub fn as_slice(&self) -> &[Line]
        ensures items { result.now ≡ self.now }
        ensures lawful { AreLawful self.now }
    {
        self.items.as_slice()
    }

    /// The lines, to be run one by one.
    pub fn into_lines(self) -> LinesLeft
        ensures lines { result ≡ self }
        ensures lawful { AreLawful self }
    {
        let mut turned = self.items;
        turned.as_mut_slice().reverse();
        LinesLeft { turned }
    }
}

/// After how many lines their memory is given back.
const LINES_AT_ONCE: usize = 4096;

/// The lines of a script that are left to be run. What those before them took is given back as they go. Contracts see them as a list.
#[derive(Drop)]
pub struct LinesLeft {
    /// The last one first.
    turned: Vec<Line>,
}

impl Model for LinesLeft {
    ghost use Rattle.std.specs.Prelude.{List, reverse};
    ghost use Rattle.script_text.specs.declared.lines.Line.{Line};

    ghost Value = { List Line };

    ghost view = { λ l. reverse l.turned.items };
}

impl Iterator for LinesLeft {
    type Item = Line;

    ghost next_gives = { YieldsFirst (λ l. l) };

    ghost remaining = { item_count (λ l. l) };

    fn next(&mut self) -> Option<Line> {
        let line = self.turned.pop()?;
        if self.turned.len() % LINES_AT_ONCE == 0 {
            self.turned.shrink_to_fit();
        }
        Some(line)
    }
}
