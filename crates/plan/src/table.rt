ghost use Rattle.std.specs.Prelude.{◌≡◌, ◌≤◌, vec_len, vec_capacity};

use super::note::Note;
use super::step::Step;

// What a plan over a network of so many places and ways works on: it is made once, so that no call can want memory.
// Its methods require that it fits the network and the lent rows (`Ready`): a struct of the three would need two clauses a method, that its references stay the same, for this one.
#[derive(Drop)]
pub(crate) struct Table {
    pub(crate) loads: Vec<u32>,
    pub(crate) rests: Vec<i64>,
    pub(crate) count: u32,
    pub(crate) notes: Vec<Note>,
    pub(crate) path: Vec<Step>,
    ghost level: { vec_len notes ≡ vec_len rests },
    ghost room: { vec_len rests ≤ vec_capacity path },
}
