//! Types.
ghost use Rattle.std.specs.Prelude.{[], ◌∷◌, ◌≡◌, ◌≤◌, ◌<◌};
ghost use Rattle.da_phrases.specs.Exprs.{at_depth};
ghost use Rattle.da_phrases.specs.Holds.{HoldsTypes};
ghost use Rattle.da_phrases.specs.Lists.{closed, separated};
ghost use Rattle.da_phrases.specs.Reader.{Reads};
ghost use Rattle.da_phrases.specs.Types as spec;
ghost use Rattle.da_phrases.specs.Types.{type_below};

use crate::cursor::{Cursor, Stop};
use crate::place::{opening, opens};
use da_lang::Ty;
use da_values::{Boxed, List, Mark};
use std::alloc::Global;

/// The rules of types where `depth` things are open, with the function that reads a type one deeper.
#[derive(Clone, Copy)]
pub struct TypeRules<T> {
    pub alloc: Global,
    pub depth: usize,
    pub ty: T,
}

impl<T: Fn(Global, &mut Cursor<'_>, usize) -> Result<Ty, Stop>> TypeRules<T> {
    /// A type, one deeper.
    fn inner(&self, tokens: &mut Cursor<'_>) -> Result<Ty, Stop>
        requires holds { HoldsTypes self.now.depth (T.pre self.now.ty) (T.post self.now.ty) }
        requires room { self.now.depth < 32 }
        ensures { Reads (type_below self.now.depth tokens.old) result tokens.new }
    {
        (self.ty)(self.alloc, tokens, self.depth + 1)
    }

    /// One or more types with commas between, after those found.
    #[tactic(auto, using(crate::proofs::Loops::separated_loop))]
    fn types(&self, tokens: &mut Cursor<'_>, mut found: List<Ty>) -> Result<List<Ty>, Stop>
        requires holds { HoldsTypes self.now.depth (T.pre self.now.ty) (T.post self.now.ty) }
        requires room { self.now.depth < 32 }
        ensures { Reads (separated Mark.Comma (type_below self.now.depth) found tokens.old) result tokens.new }
    {
        for _turn in 0..tokens.left() {
            found.push(self.inner(tokens)?)?;
            if !tokens.eat(Mark::Comma) {
                return Ok(found);
            }
        }
        Err(tokens.refuse())
    }

    /// Types after those found, up to `)`.
    #[tactic(auto, unfolding(crate::specs::Lists::closed))]
    pub fn closed_types(&self, tokens: &mut Cursor<'_>, found: List<Ty>) -> Result<List<Ty>, Stop>
        requires holds { HoldsTypes self.now.depth (T.pre self.now.ty) (T.post self.now.ty) }
        requires room { self.now.depth < 32 }
        ensures { Reads (closed Mark.CloseParen (type_below self.now.depth) found tokens.old) result tokens.new }
    {
        if tokens.eat(Mark::CloseParen) {
            return Ok(found);
        }
        let all = self.types(tokens, found)?;
        tokens.expect(Mark::CloseParen)?;
        Ok(all)
    }

    /// What stands after `set`.
    #[tactic(auto, unfolding(crate::specs::Types::set_type))]
    fn set_type(&self, tokens: &mut Cursor<'_>) -> Result<Ty, Stop>
        requires holds { HoldsTypes self.now.depth (T.pre self.now.ty) (T.post self.now.ty) }
        ensures { Reads (spec.set_type (at_depth self.now.depth).may_open (type_below self.now.depth) tokens.old) result tokens.new }
    {
        opening(tokens, Mark::OpenBracket, self.depth)?;
        let elements = Boxed::new(self.alloc, self.inner(tokens)?)?;
        tokens.expect(Mark::CloseBracket)?;
        Ok(Ty::Set(elements))
    }

    /// What stands after `(`: the parts of a tuple.
    #[tactic(auto, unfolding(crate::specs::Types::tuple_type))]
    fn tuple_type(&self, tokens: &mut Cursor<'_>) -> Result<Ty, Stop>
        requires holds { HoldsTypes self.now.depth (T.pre self.now.ty) (T.post self.now.ty) }
        requires room { self.now.depth < 32 }
        ensures { Reads (spec.tuple_type (at_depth self.now.depth).may_open (type_below self.now.depth) tokens.old) result tokens.new }
    {
        let mut parts = List::new(self.alloc);
        parts.push(self.inner(tokens)?)?;
        tokens.expect(Mark::Comma)?;
        Ok(Ty::Tuple(self.closed_types(tokens, parts)?))
    }

    /// A type.
    #[tactic(auto, unfolding(crate::specs::Types::type_in))]
    fn any(&self, tokens: &mut Cursor<'_>) -> Result<Ty, Stop>
        requires holds { HoldsTypes self.now.depth (T.pre self.now.ty) (T.post self.now.ty) }
        ensures { Reads (spec.type_in (at_depth self.now.depth).may_open (type_below self.now.depth) tokens.old) result tokens.new }
    {
        match tokens.mark() {
            Some(Mark::Int) => {
                tokens.take();
                Ok(Ty::Int)
            }
            Some(Mark::Bool) => {
                tokens.take();
                Ok(Ty::Bool)
            }
            Some(Mark::Str) => {
                tokens.take();
                Ok(Ty::Text)
            }
            Some(Mark::Proc) => {
                tokens.take();
                Ok(Ty::Proc)
            }
            Some(Mark::Set) => {
                tokens.take();
                self.set_type(tokens)
            }
            Some(Mark::OpenParen) => {
                opens(tokens, self.depth)?;
                self.tuple_type(tokens)
            }
            _ => Err(tokens.refuse()),
        }
    }
}

/// A type where `depth` things are open.
#[tactic(auto, using(crate::proofs::Depth::types_there, crate::proofs::Depth::type_there))]
pub fn type_at(alloc: Global, tokens: &mut Cursor<'_>, depth: usize) -> Result<Ty, Stop>
    requires { depth ≤ 32 }
    ensures { Reads (spec.type_at depth tokens.old) result tokens.new }
{
    TypeRules {
        alloc,
        depth,
        ty: type_at,
    }
    .any(tokens)
}

/// The types of a message, after `(`.
#[tactic(auto, using(crate::proofs::Depth::type_there))]
pub fn closed_types(alloc: Global, tokens: &mut Cursor<'_>, depth: usize) -> Result<List<Ty>, Stop>
    requires { depth < 32 }
    ensures { Reads (closed Mark.CloseParen (type_below depth) [] tokens.old) result tokens.new }
{
    TypeRules {
        alloc,
        depth,
        ty: type_at,
    }
    .closed_types(tokens, List::new(alloc))
}
