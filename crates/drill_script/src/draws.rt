//! What a drill draws.

use hsm_types::BLOCK_BYTES;

/// By what a draw multiplies.
const MULTIPLIER: u64 = 6364136223846793005;

/// What a draw then adds.
const INCREMENT: u64 = 1442695040888963407;

/// How many actions there are to draw.
const ACTIONS: u64 = 10;

/// How many files there are to draw.
pub const FILES: u64 = 40;

/// How many blocks of a file there are to draw.
const BLOCKS: u64 = 64;

/// How many seeds there are to draw.
const SEEDS: u64 = 256;

/// What a turn draws.
#[derive(Clone, Copy)]
pub struct Turn {
    pub action: u64,
    pub file: u64,
    /// In bytes, where a block begins.
    pub offset: u64,
    pub seed: u8,
}

/// Numbers that look random, and are always the same.
#[derive(Drop)]
pub struct Draws {
    x: u64,
}

impl Draws {
    ghost use Rattle.std.specs.Prelude.{◌≡◌, ◌<◌};
    ghost use Rattle.drill_script.specs.Drill.{next, draw, turn_from, next_turn};

    pub fn new(x: u64) -> Draws
        ensures { result.x ≡ x }
    {
        Draws { x }
    }

    /// A number below m.
    fn draw(&mut self, m: u64) -> u64
        requires { 0 < m }
        ensures drawn { result ≡ draw m self.old.x }
        ensures below { result < m }
        ensures next { self.new.x ≡ next self.old.x }
    {
        self.x = MULTIPLIER.wrapping_mul(self.x).wrapping_add(INCREMENT);
        (self.x >> 33) % m
    }

    pub fn turn(&mut self) -> Turn
        ensures turn { result ≡ turn_from self.old.x }
        ensures next { self.new.x ≡ next_turn self.old.x }
    {
        let action = self.draw(ACTIONS);
        let file = self.draw(FILES);
        let offset = BLOCK_BYTES * self.draw(BLOCKS);
        let seed = self.draw(SEEDS) as u8;
        Turn {
            action,
            file,
            offset,
            seed,
        }
    }
}
