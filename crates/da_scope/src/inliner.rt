//! Statements, with the bodies of methods in the place of calls.
ghost use Rattle.da_lang.specs.declared.program.ItemKind.TheVariants as it;
ghost use Rattle.da_lang.specs.BodyMeaning.{Guarded, body_with, calling, copies, each, for_each, guarding, item_at, loop, stating};
ghost use Rattle.da_lang.specs.ExprMeaning.{Meaning, Tables as TablesOf};
ghost use Rattle.da_lang.specs.Scopes.{Scope as ScopeOf};
ghost use Rattle.da_scope.specs.Inlining.{Copies};
ghost use Rattle.std.specs.Prelude.{◌≡◌, ℕ, Option, Some, IfOk, OnOk, map};

use crate::awaiting::{await_one, waiting};
use crate::heads::{alt_head, branch_head, for_head};
use crate::home::Home;
use crate::simple::{add, assign, delete, item, output, send};
use da_lang::{Alt, Branch, Expr, Item, ItemKind, Name, RBranch, RExpr, Stmt};
use da_meaning::{Scope, Tables, all_outside, boxed_outside};
use da_values::{Boxed, List, NoMemory};
use std::alloc::Global;

/// What the bodies of a class are resolved with. In a copy of the body of a method, at most so many calls may be within
/// calls.
#[derive(Clone, Copy)]
pub struct Inliner<'a, 't, F> {
    pub alloc: Global,
    pub home: &'a Home<'t>,
    pub most: usize,
    pub copy: F,
}

impl<
    'a,
    't,
    F: Fn(Global, &Home<'_>, usize, &[u8], List<RExpr>, &mut Tables) -> Result<ItemKind, NoMemory>,
> Inliner<'a, 't, F> {
    /// The statements of a block. Names that come into scope in it leave with it.
    #[cycle(statements)]
    pub fn block(
        &self,
        stmts: &'t [Stmt],
        scope: &Scope<'t>,
        tables: &mut Tables,
    ) -> Result<List<Item>, NoMemory>
        requires { Copies self.now.home.now.class.now self.now.most (F.pre self.now.copy) (F.post self.now.copy) }
        ensures items { IfOk result (λ items. items ≡ (body_with (copies self.now.most self.now.home.now.class.now) stmts.now scope.now tables.old).0) }
        ensures tables { OnOk result (tables.new ≡ (body_with (copies self.now.most self.now.home.now.class.now) stmts.now scope.now tables.old).1) }
    {
        let mut inner = scope.copy(self.alloc)?;
        let mut items = List::new(self.alloc);
        let mut label = None;
        for stmt in stmts {
            items.push(self.statement(stmt, label, &mut inner, tables)?)?;
            label = self.label_of(stmt);
        }
        Ok(items)
    }

    // A statement after a label, where one stands directly before it. Names that it brings come into scope.
    #[cycle(statements)]
    #[tactic(auto, using(crate::proofs::StatementsAt::statements_at))]
    fn statement(
        &self,
        stmt: &'t Stmt,
        label: Option<u32>,
        scope: &mut Scope<'t>,
        tables: &mut Tables,
    ) -> Result<Item, NoMemory>
        requires { Copies self.now.home.now.class.now self.now.most (F.pre self.now.copy) (F.post self.now.copy) }
        ensures item { IfOk result (λ item. item ≡ (stating (copies self.now.most self.now.home.now.class.now) stmt.now label scope.old tables.old).item) }
        ensures scope { OnOk result (scope.new ≡ (stating (copies self.now.most self.now.home.now.class.now) stmt.now label scope.old tables.old).scope) }
        ensures tables { OnOk result (tables.new ≡ (stating (copies self.now.most self.now.home.now.class.now) stmt.now label scope.old tables.old).tables) }
    {
        match stmt {
            Stmt::Assign { name, value, line } => {
                assign(self.alloc, name, value, *line, scope, tables)
            }
            Stmt::Add { name, value, line } => add(self.alloc, name, value, *line, scope, tables),
            Stmt::Del { name, value, line } => delete(
                self.alloc, name, value, *line, scope, tables,
            ),
            Stmt::Send { message, to, line } => {
                send(self.alloc, message, to, *line, scope, tables)
            }
            Stmt::Output { value, line } => output(self.alloc, value, *line, scope, tables),
            Stmt::Pass { line } => Ok(item(*line, ItemKind::Pass)),
            Stmt::Label { name, line } => {
                Ok(item(*line, ItemKind::Label(self.home.label(name.as_slice()))))
            }
            Stmt::Call { name, args, line } => { self.call(name, args, *line, scope, tables) }
            Stmt::If {
                branches,
                otherwise,
                line,
            } => {
                let branches = self.branches(branches.as_slice(), scope, tables)?;
                match otherwise {
                    None => Ok(item(*line, ItemKind::If(branches, List::new(self.alloc)))),
                    Some(stmts) => { self.choice(stmts.as_slice(), branches, *line, scope, tables) }
                }
            }
            Stmt::While { cond, body, line } => {
                self.repeated(body.as_slice(), cond, *line, scope, tables)
            }
            Stmt::For {
                name,
                over,
                body,
                line,
            } => self.over_each(body.as_slice(), name, over, *line, scope, tables),
            Stmt::AwaitOne { cond, line } => {
                await_one(self.alloc, cond.get(), label, *line, scope, tables)
            }
            Stmt::Await {
                alts,
                timeout,
                line,
            } => {
                let alts = self.alternatives(alts.as_slice(), scope, tables)?;
                match timeout {
                    None => Ok(waiting(alts, None, label, *line)),
                    Some(late) => {
                        self.timed(late.body.as_slice(), alts, label, *line, scope, tables)
                    }
                }
            }
        }
    }

    // An `if` with these branches and an `else`.
    #[cycle(statements)]
    fn choice(
        &self,
        stmts: &'t [Stmt],
        branches: List<RBranch>,
        line: u32,
        scope: &Scope<'t>,
        tables: &mut Tables,
    ) -> Result<Item, NoMemory>
        requires { Copies self.now.home.now.class.now self.now.most (F.pre self.now.copy) (F.post self.now.copy) }
        ensures item { IfOk result (λ item. item ≡ item_at line (it.If branches (body_with (copies self.now.most self.now.home.now.class.now) stmts.now scope.now tables.old).0)) }
        ensures tables { OnOk result (tables.new ≡ (body_with (copies self.now.most self.now.home.now.class.now) stmts.now scope.now tables.old).1) }
    {
        let stmts = self.block(stmts, scope, tables)?;
        Ok(item(line, ItemKind::If(branches, stmts)))
    }

    // A `while`.
    #[cycle(statements)]
    fn repeated(
        &self,
        body: &'t [Stmt],
        cond: &'t Boxed<Expr>,
        line: u32,
        scope: &Scope<'t>,
        tables: &mut Tables,
    ) -> Result<Item, NoMemory>
        requires { Copies self.now.home.now.class.now self.now.most (F.pre self.now.copy) (F.post self.now.copy) }
        ensures item { IfOk result (λ item. item ≡ item_at line (loop cond.now (map (stating (copies self.now.most self.now.home.now.class.now)) body.now) scope.now tables.old).0) }
        ensures tables { OnOk result (tables.new ≡ (loop cond.now (map (stating (copies self.now.most self.now.home.now.class.now)) body.now) scope.now tables.old).1) }
    {
        let cond = boxed_outside(self.alloc, cond.get(), scope, tables)?;
        let body = self.block(body, scope, tables)?;
        Ok(item(line, ItemKind::While(cond, body)))
    }

    // A `for`.
    #[cycle(statements)]
    fn over_each(
        &self,
        body: &'t [Stmt],
        name: &'t Name,
        over: &'t Boxed<Expr>,
        line: u32,
        scope: &Scope<'t>,
        tables: &mut Tables,
    ) -> Result<Item, NoMemory>
        requires { Copies self.now.home.now.class.now self.now.most (F.pre self.now.copy) (F.post self.now.copy) }
        ensures item { IfOk result (λ item. item ≡ item_at line (for_each name.now over.now (map (stating (copies self.now.most self.now.home.now.class.now)) body.now) scope.now tables.old).0) }
        ensures tables { OnOk result (tables.new ≡ (for_each name.now over.now (map (stating (copies self.now.most self.now.home.now.class.now)) body.now) scope.now tables.old).1) }
    {
        let head = for_head(self.alloc, name, over, scope, tables)?;
        let body = self.block(body, &head.scope, tables)?;
        Ok(head.with_block(body, line))
    }

    // An `await` with these alternatives and a block for a timeout.
    #[cycle(statements)]
    fn timed(
        &self,
        stmts: &'t [Stmt],
        alts: List<Alt>,
        label: Option<u32>,
        line: u32,
        scope: &Scope<'t>,
        tables: &mut Tables,
    ) -> Result<Item, NoMemory>
        requires { Copies self.now.home.now.class.now self.now.most (F.pre self.now.copy) (F.post self.now.copy) }
        ensures item { IfOk result (λ item. item ≡ item_at line (it.Await alts (Some (body_with (copies self.now.most self.now.home.now.class.now) stmts.now scope.now tables.old).0) label)) }
        ensures tables { OnOk result (tables.new ≡ (body_with (copies self.now.most self.now.home.now.class.now) stmts.now scope.now tables.old).1) }
    {
        let stmts = self.block(stmts, scope, tables)?;
        Ok(waiting(alts, Some(stmts), label, line))
    }

    // The branches of an `if`.
    #[cycle(statements)]
    fn branches(
        &self,
        branches: &'t [Branch],
        scope: &Scope<'t>,
        tables: &mut Tables,
    ) -> Result<List<RBranch>, NoMemory>
        requires { Copies self.now.home.now.class.now self.now.most (F.pre self.now.copy) (F.post self.now.copy) }
        ensures branches { IfOk result (λ found. found ≡ (each (map (λ (b : Guarded). b.branch) (map (guarding (copies self.now.most self.now.home.now.class.now)) branches.now)) scope.now tables.old).0) }
        ensures tables { OnOk result (tables.new ≡ (each (map (λ (b : Guarded). b.branch) (map (guarding (copies self.now.most self.now.home.now.class.now)) branches.now)) scope.now tables.old).1) }
    {
        let mut found = List::new(self.alloc);
        for branch in branches {
            found.push(self.branch(branch, scope, tables)?)?;
        }
        Ok(found)
    }

    // A branch of an `if`.
    #[cycle(statements)]
    #[tactic(auto, using(crate::proofs::StatementsAt::branch_rules))]
    fn branch(
        &self,
        branch: &'t Branch,
        scope: &Scope<'t>,
        tables: &mut Tables,
    ) -> Result<RBranch, NoMemory>
        requires { Copies self.now.home.now.class.now self.now.most (F.pre self.now.copy) (F.post self.now.copy) }
        ensures branch { IfOk result (λ found. found ≡ ((guarding (copies self.now.most self.now.home.now.class.now) branch.now).branch scope.now tables.old).0) }
        ensures tables { OnOk result (tables.new ≡ ((guarding (copies self.now.most self.now.home.now.class.now) branch.now).branch scope.now tables.old).1) }
    {
        let head = branch_head(self.alloc, branch.cond.get(), scope, tables)?;
        let body = self.block(branch.body.as_slice(), &head.scope, tables)?;
        Ok(head.with_block(body, branch.line))
    }

    // The alternatives of an `await`.
    #[cycle(statements)]
    fn alternatives(
        &self,
        alts: &'t [Branch],
        scope: &Scope<'t>,
        tables: &mut Tables,
    ) -> Result<List<Alt>, NoMemory>
        requires { Copies self.now.home.now.class.now self.now.most (F.pre self.now.copy) (F.post self.now.copy) }
        ensures alts { IfOk result (λ found. found ≡ (each (map (λ (b : Guarded). b.alt) (map (guarding (copies self.now.most self.now.home.now.class.now)) alts.now)) scope.now tables.old).0) }
        ensures tables { OnOk result (tables.new ≡ (each (map (λ (b : Guarded). b.alt) (map (guarding (copies self.now.most self.now.home.now.class.now)) alts.now)) scope.now tables.old).1) }
    {
        let mut found = List::new(self.alloc);
        for alt in alts {
            found.push(self.alternative(alt, scope, tables)?)?;
        }
        Ok(found)
    }

    // An alternative of an `await`.
    #[cycle(statements)]
    #[tactic(auto, using(crate::proofs::StatementsAt::branch_rules))]
    fn alternative(
        &self,
        alt: &'t Branch,
        scope: &Scope<'t>,
        tables: &mut Tables,
    ) -> Result<Alt, NoMemory>
        requires { Copies self.now.home.now.class.now self.now.most (F.pre self.now.copy) (F.post self.now.copy) }
        ensures alt { IfOk result (λ found. found ≡ ((guarding (copies self.now.most self.now.home.now.class.now) alt.now).alt scope.now tables.old).0) }
        ensures tables { OnOk result (tables.new ≡ ((guarding (copies self.now.most self.now.home.now.class.now) alt.now).alt scope.now tables.old).1) }
    {
        let head = alt_head(self.alloc, alt.cond.get(), scope, tables)?;
        let body = self.block(alt.body.as_slice(), &head.scope, tables)?;
        Ok(head.with_block(body, alt.line))
    }

    // The number of the label that a statement is.
    #[tactic(auto, using(crate::proofs::StatementsAt::statements_at))]
    fn label_of(&self, stmt: &Stmt) -> Option<u32>
        ensures { (label : Option ℕ) (scope : ScopeOf Meaning) (tables : TablesOf) → result ≡ (stating (copies self.now.most self.now.home.now.class.now) stmt.now label scope tables).label }
    {
        match stmt {
            Stmt::Label { name, .. } => Some(self.home.label(name.as_slice())),
            Stmt::Assign { .. }
            | Stmt::Add { .. }
            | Stmt::Del { .. }
            | Stmt::Send { .. }
            | Stmt::Output { .. }
            | Stmt::Pass { .. }
            | Stmt::Call { .. }
            | Stmt::If { .. }
            | Stmt::While { .. }
            | Stmt::For { .. }
            | Stmt::AwaitOne { .. }
            | Stmt::Await { .. } => None,
        }
    }

    // A call: a copy of the body of the method, with its arguments.
    fn call(
        &self,
        name: &Name,
        args: &'t List<Expr>,
        line: u32,
        scope: &Scope<'t>,
        tables: &mut Tables,
    ) -> Result<Item, NoMemory>
        requires { Copies self.now.home.now.class.now self.now.most (F.pre self.now.copy) (F.post self.now.copy) }
        ensures item { IfOk result (λ item. item ≡ item_at line (calling (copies self.now.most self.now.home.now.class.now) name.now args.now scope.now tables.old).0) }
        ensures tables { OnOk result (tables.new ≡ (calling (copies self.now.most self.now.home.now.class.now) name.now args.now scope.now tables.old).1) }
    {
        let args = all_outside(self.alloc, args.as_slice(), scope, tables)?;
        let kind = (self.copy)(
            self.alloc,
            self.home,
            self.most,
            name.as_slice(),
            args,
            tables,
        )?;
        Ok(item(line, kind))
    }
}
