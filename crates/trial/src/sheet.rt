// One member in a fire. On the contract of a public call the clause `law` follows from the other clauses, each of them a goal of its own.
mod calling;
mod heating;
mod keeping;
mod questions;

use crate::column::Column;
use member_check::Member;

// A member in a steel and a fire, its load, and the steps that stand.
// Contracts cite `view_of` and no `impl Model`: a view holds functions, which a model would have to code by tables of all their values.
#[derive(Drop)]
pub struct Sheet<S, F> {
    member: Member,
    steel: S,
    fire: F,
    load: u64,
    column: Column,
}
