//! Statements and blocks.
ghost use Rattle.std.specs.Prelude.{[], ◌∷◌, ◌≡◌, ◌≤◌, ◌<◌};
ghost use Rattle.da_phrases.specs.Exprs.{at_depth};
ghost use Rattle.da_parse.specs.HoldsBody.{HoldsBody};
ghost use Rattle.da_phrases.specs.Lists.{begun};
ghost use Rattle.da_phrases.specs.Reader.{Reads};
ghost use Rattle.da_parse.specs.Stmts as spec;
ghost use Rattle.da_parse.specs.Stmts.{body_below};

use crate::simple::{expression, simple};
use da_lang::{Branch, Expr, Stmt, TimeoutTree};
use da_phrases::{Cursor, Stop, opening};
use da_values::{Boxed, List, Mark};
use std::alloc::Global;

/// The rules of statements where `depth` things are open, with the function that reads a block's statements.
#[derive(Clone, Copy)]
pub struct Layer<B> {
    pub alloc: Global,
    pub depth: usize,
    pub body: B,
}

impl<B: Fn(Global, &mut Cursor<'_>, usize) -> Result<List<Stmt>, Stop>> Layer<B> {
    /// The statements of a block and its end.
    fn inner(&self, tokens: &mut Cursor<'_>) -> Result<List<Stmt>, Stop>
        requires holds { HoldsBody self.now.depth (B.pre self.now.body) (B.post self.now.body) }
        requires room { self.now.depth < 32 }
        ensures { Reads (body_below self.now.depth tokens.old) result tokens.new }
    {
        (self.body)(self.alloc, tokens, self.depth + 1)
    }

    /// A block, with the colon before it.
    #[tactic(auto, unfolding(crate::specs::Stmts::block_after_colon, crate::specs::Stmts::block))]
    pub fn block(&self, tokens: &mut Cursor<'_>) -> Result<List<Stmt>, Stop>
        requires holds { HoldsBody self.now.depth (B.pre self.now.body) (B.post self.now.body) }
        ensures { Reads (spec.block_after_colon (at_depth self.now.depth) (body_below self.now.depth) tokens.old) result tokens.new }
    {
        tokens.expect(Mark::Colon)?;
        tokens.expect(Mark::Newline)?;
        opening(tokens, Mark::Indent, self.depth)?;
        self.inner(tokens)
    }

    /// The word of a header, which is the next token, its condition, and its block.
    #[tactic(auto, unfolding(crate::specs::Stmts::branch))]
    fn branch(&self, tokens: &mut Cursor<'_>) -> Result<Branch, Stop>
        requires holds { HoldsBody self.now.depth (B.pre self.now.body) (B.post self.now.body) }
        requires within { self.now.depth ≤ 32 }
        ensures { Reads (spec.branch (at_depth self.now.depth) (body_below self.now.depth) tokens.old) result tokens.new }
    {
        let line = tokens.line();
        tokens.take();
        let cond = expression(self.alloc, tokens, self.depth)?;
        let body = self.block(tokens)?;
        Ok(Branch { cond, body, line })
    }

    /// Further branches, each begun by a token of this mark, after those found.
    #[tactic(auto, using(da_phrases::proofs::Loops::begun_loop))]
    fn branches(
        &self,
        tokens: &mut Cursor<'_>,
        mark: Mark,
        mut found: List<Branch>,
    ) -> Result<List<Branch>, Stop>
        requires holds { HoldsBody self.now.depth (B.pre self.now.body) (B.post self.now.body) }
        requires within { self.now.depth ≤ 32 }
        ensures { Reads (begun mark (spec.branch (at_depth self.now.depth) (body_below self.now.depth)) found tokens.old) result tokens.new }
    {
        for _turn in 0..tokens.left() {
            if !tokens.sees(mark) {
                return Ok(found);
            }
            found.push(self.branch(tokens)?)?;
        }
        Ok(found)
    }

    /// `else` and its block, or nothing.
    #[tactic(auto, unfolding(crate::specs::Stmts::otherwise))]
    fn otherwise(&self, tokens: &mut Cursor<'_>) -> Result<Option<List<Stmt>>, Stop>
        requires holds { HoldsBody self.now.depth (B.pre self.now.body) (B.post self.now.body) }
        ensures { Reads (spec.otherwise (at_depth self.now.depth) (body_below self.now.depth) tokens.old) result tokens.new }
    {
        if !tokens.eat(Mark::Else) {
            return Ok(None);
        }
        Ok(Some(self.block(tokens)?))
    }

    /// `timeout` and its block, or nothing.
    #[tactic(auto, unfolding(crate::specs::Stmts::timeout))]
    fn timeout(&self, tokens: &mut Cursor<'_>) -> Result<Option<TimeoutTree>, Stop>
        requires holds { HoldsBody self.now.depth (B.pre self.now.body) (B.post self.now.body) }
        ensures { Reads (spec.timeout (at_depth self.now.depth) (body_below self.now.depth) tokens.old) result tokens.new }
    {
        let line = tokens.line();
        if !tokens.eat(Mark::Timeout) {
            return Ok(None);
        }
        let body = self.block(tokens)?;
        Ok(Some(TimeoutTree { body, line }))
    }

    /// `if`, which is the next token, with each `elif` and `else`.
    #[tactic(auto, unfolding(crate::specs::Stmts::conditional))]
    fn conditional(&self, tokens: &mut Cursor<'_>, line: u32) -> Result<Stmt, Stop>
        requires holds { HoldsBody self.now.depth (B.pre self.now.body) (B.post self.now.body) }
        requires within { self.now.depth ≤ 32 }
        ensures { Reads (spec.conditional (at_depth self.now.depth) (body_below self.now.depth) line tokens.old) result tokens.new }
    {
        let mut found = List::new(self.alloc);
        found.push(self.branch(tokens)?)?;
        let branches = self.branches(tokens, Mark::Elif, found)?;
        let otherwise = self.otherwise(tokens)?;
        Ok(Stmt::If {
            branches,
            otherwise,
            line,
        })
    }

    /// What stands after `while`.
    #[tactic(auto, unfolding(crate::specs::Stmts::while_loop))]
    fn while_loop(&self, tokens: &mut Cursor<'_>, line: u32) -> Result<Stmt, Stop>
        requires holds { HoldsBody self.now.depth (B.pre self.now.body) (B.post self.now.body) }
        requires within { self.now.depth ≤ 32 }
        ensures { Reads (spec.while_loop (at_depth self.now.depth) (body_below self.now.depth) line tokens.old) result tokens.new }
    {
        let cond = expression(self.alloc, tokens, self.depth)?;
        let body = self.block(tokens)?;
        Ok(Stmt::While { cond, body, line })
    }

    /// What stands after `for`.
    #[tactic(auto, unfolding(crate::specs::Stmts::for_loop))]
    fn for_loop(&self, tokens: &mut Cursor<'_>, line: u32) -> Result<Stmt, Stop>
        requires holds { HoldsBody self.now.depth (B.pre self.now.body) (B.post self.now.body) }
        requires within { self.now.depth ≤ 32 }
        ensures { Reads (spec.for_loop (at_depth self.now.depth) (body_below self.now.depth) line tokens.old) result tokens.new }
    {
        let name = tokens.word(self.alloc, Mark::Name)?;
        tokens.expect(Mark::In)?;
        let over = expression(self.alloc, tokens, self.depth)?;
        let body = self.block(tokens)?;
        Ok(Stmt::For {
            name,
            over,
            body,
            line,
        })
    }

    /// What stands after the condition of the first alternative of an `await`.
    #[tactic(auto, unfolding(crate::specs::Stmts::alternatives))]
    fn alternatives(
        &self,
        tokens: &mut Cursor<'_>,
        cond: Boxed<Expr>,
        line: u32,
    ) -> Result<Stmt, Stop>
        requires holds { HoldsBody self.now.depth (B.pre self.now.body) (B.post self.now.body) }
        requires within { self.now.depth ≤ 32 }
        ensures { Reads (spec.alternatives (at_depth self.now.depth) (body_below self.now.depth) cond line tokens.old) result tokens.new }
    {
        let body = self.block(tokens)?;
        let mut found = List::new(self.alloc);
        found.push(Branch { cond, body, line })?;
        let alts = self.branches(tokens, Mark::Or, found)?;
        let timeout = self.timeout(tokens)?;
        Ok(Stmt::Await {
            alts,
            timeout,
            line,
        })
    }

    /// What stands after `await`.
    #[tactic(auto, unfolding(crate::specs::Stmts::awaiting))]
    fn awaiting(&self, tokens: &mut Cursor<'_>, line: u32) -> Result<Stmt, Stop>
        requires holds { HoldsBody self.now.depth (B.pre self.now.body) (B.post self.now.body) }
        requires within { self.now.depth ≤ 32 }
        ensures { Reads (spec.awaiting (at_depth self.now.depth) (body_below self.now.depth) line tokens.old) result tokens.new }
    {
        let cond = expression(self.alloc, tokens, self.depth)?;
        if tokens.eat(Mark::Newline) {
            return Ok(Stmt::AwaitOne { cond, line });
        }
        self.alternatives(tokens, cond, line)
    }

    /// A statement.
    #[tactic(auto, unfolding(crate::specs::Stmts::stmt))]
    fn stmt(&self, tokens: &mut Cursor<'_>) -> Result<Stmt, Stop>
        requires holds { HoldsBody self.now.depth (B.pre self.now.body) (B.post self.now.body) }
        requires within { self.now.depth ≤ 32 }
        ensures { Reads (spec.stmt (at_depth self.now.depth) (body_below self.now.depth) tokens.old) result tokens.new }
    {
        let line = tokens.line();
        match tokens.mark() {
            Some(Mark::If) => self.conditional(tokens, line),
            Some(Mark::While) => {
                tokens.take();
                self.while_loop(tokens, line)
            }
            Some(Mark::For) => {
                tokens.take();
                self.for_loop(tokens, line)
            }
            Some(Mark::Await) => {
                tokens.take();
                self.awaiting(tokens, line)
            }
            mark => simple(self.alloc, tokens, self.depth, line, mark),
        }
    }

    /// One or more statements, and the end of their block.
    #[tactic(auto, unfolding(crate::specs::Stmts::stmts), using(da_phrases::proofs::Loops::ended_loop))]
    fn stmts(&self, tokens: &mut Cursor<'_>) -> Result<List<Stmt>, Stop>
        requires holds { HoldsBody self.now.depth (B.pre self.now.body) (B.post self.now.body) }
        requires within { self.now.depth ≤ 32 }
        ensures { Reads (spec.stmts (at_depth self.now.depth) (body_below self.now.depth) tokens.old) result tokens.new }
    {
        let mut found = List::new(self.alloc);
        for _turn in 0..tokens.left() {
            found.push(self.stmt(tokens)?)?;
            if tokens.eat(Mark::Dedent) {
                return Ok(found);
            }
        }
        Err(tokens.refuse())
    }
}

/// The statements of a block where `depth` things are open, and its end.
#[tactic(auto, unfolding(crate::specs::Stmts::body_at), using(crate::proofs::BodyDepth::body_there))]
fn body_at(alloc: Global, tokens: &mut Cursor<'_>, depth: usize) -> Result<List<Stmt>, Stop>
    requires { depth ≤ 32 }
    ensures { Reads (spec.body_at depth tokens.old) result tokens.new }
{
    Layer {
        alloc,
        depth,
        body: body_at,
    }
    .stmts(tokens)
}

/// A block where `depth` things are open, with the colon before it.
#[tactic(auto, unfolding(crate::specs::Stmts::block_at), using(crate::proofs::BodyDepth::body_there))]
pub fn block_at(alloc: Global, tokens: &mut Cursor<'_>, depth: usize) -> Result<List<Stmt>, Stop>
    ensures { Reads (spec.block_at depth tokens.old) result tokens.new }
{
    Layer {
        alloc,
        depth,
        body: body_at,
    }
    .block(tokens)
}
