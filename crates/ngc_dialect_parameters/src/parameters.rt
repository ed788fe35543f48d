ghost use Rattle.std.specs.Prelude.{◌≡◌, ◌≤◌, vec_len};

use crate::names::Names;
use arrayvec::ArrayVec;
use ngc_dialect_names::Dialect;
use ngc_dialect_numbers::Number;
use std::alloc::Allocator;

/// What a call keeps of its caller: the values of its numbered parameters from 1 on, and its names.
#[derive(Drop)]
pub(crate) struct Call<A: Allocator> {
    pub(crate) numbers: ArrayVec<Option<Number>, 33>,
    pub(crate) names: Names<A>,
}

/// The parameters of a program: numbered ones, and named ones that belong to the current call or, if
/// they begin with `_`, to all calls.
#[derive(Drop)]
pub struct Parameters<A: Allocator> {
    pub(crate) dialect: Dialect,
    pub(crate) alloc: A,
    pub(crate) numbers: Vec<Option<Number>, A>,
    pub(crate) globals: Names<A>,
    pub(crate) locals: Names<A>,
    pub(crate) calls: Vec<Call<A>, A>,
    ghost all: { vec_len numbers ≡ 6000 },
    ghost nested: { vec_len calls ≤ 10 },
}
