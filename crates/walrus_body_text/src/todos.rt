//! The list of what is left to do.

ghost use Rattle.std.specs.Prelude.{◌≡◌, ◌<◌, [], ◌∷◌, ◌++◌, MatchOption, OnOk};
ghost use Rattle.std.specs.Vec.{vec_len, vec_capacity};

use crate::todo::{Closer, Place, Todo};
use std::alloc::{AllocError, Global};
use std::marker::Model;

/// What is left to do, the next last.
#[derive(Drop)]
pub struct Todos {
    rest: Vec<Todo>,
    // The last, if it is kept apart: most often what was put there last is taken next, and the list is then left alone.
    next: Option<Todo>,
}

impl Model for Todos {
    ghost use Rattle.std.specs.Prelude.{List};
    ghost use Rattle.walrus_body_text.specs.declared.todo.Todo.{Todo as One};
    ghost use Rattle.walrus_body_text.specs.Nexts.{with_next};

    ghost Value = { List One };

    ghost view = { λ t. with_next t.rest.items t.next };
}

// Makes room for one more. It isn't inlined, as mostly there is some.
#[inline(never)]
fn grow(rest: &mut Vec<Todo>) -> Result<(), AllocError>
    ensures items { rest.new.items ≡ rest.old.items }
    ensures room { OnOk result (vec_len rest.new < vec_capacity rest.new) }
{
    rest.reserve(1)
}

#[inline(always)]
fn make_room(rest: &mut Vec<Todo>) -> Result<(), AllocError>
    ensures items { rest.new.items ≡ rest.old.items }
    ensures room { OnOk result (vec_len rest.new < vec_capacity rest.new) }
{
    if rest.len() < rest.capacity() {
        return Ok(());
    }
    grow(rest)
}

// Puts this into the list.
#[inline(always)]
fn put(rest: &mut Vec<Todo>, one: Todo) -> Result<(), AllocError>
    ensures { OnOk result (rest.new.items ≡ rest.old.items ++ one ∷ []) }
{
    // The prover has to meet the types of what an item holds, before it is pushed.
    let _held: Option<(Closer, Place)> = None;
    make_room(rest)?;
    rest.push_reserved(one);
    Ok(())
}

impl Todos {
    /// This alone. Takes no memory.
    pub fn new(alloc: Global, one: Todo) -> Self
        ensures { result ≡ one ∷ [] }
    {
        Todos {
            rest: Vec::new(alloc),
            next: Some(one),
        }
    }

    /// Puts this behind the others.
    #[inline(always)]
    pub(crate) fn push(&mut self, one: Todo) -> Result<(), AllocError>
        ensures { OnOk result (self.new ≡ self.old ++ one ∷ []) }
    {
        if let Some(next) = self.next {
            put(&mut self.rest, next)?;
        }
        self.next = Some(one);
        Ok(())
    }

    /// Takes the last.
    #[inline]
    pub fn pop(&mut self) -> Option<Todo>
        ensures items { MatchOption result (self.old ≡ []) (λ top. self.old ≡ self.new ++ top ∷ []) }
    {
        if let Some(next) = self.next {
            self.next = None;
            return Some(next);
        }
        self.rest.pop()
    }
}
