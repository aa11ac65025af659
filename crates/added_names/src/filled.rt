//! A program with the declarations that it lacks, by a list of types.
ghost use Rattle.added_names.specs.Filled as spec;
ghost use Rattle.std.specs.Prelude.{◌≡◌, ◌++◌, drop, take, IfOk, OnOk};

use crate::added::{AddedTag, AddedVariable, OpenPlace};
use crate::copy::{
    copy_body, copy_main, copy_messages, copy_name, copy_names, copy_pattern, copy_sender,
};
use crate::firsts::{added_tags, added_variables};
use da_lang::{
    ClassTree, Member, MessageDecl, Name, Param, PatternTree, Stmt, Tree, Ty, copy_type, copy_types,
};
use da_values::{List, NoMemory};
use std::alloc::Global;

/// What is left to hand out: the places of parameters that are still open, and the types.
#[derive(Clone, Copy)]
struct Rest<'a> {
    places: &'a [OpenPlace],
    types: &'a [Ty],
}

impl Rest<'_> {
    /// Whether the next open place is this one.
    #[tactic(auto, unfolding(crate::specs::Filled::is_next))]
    fn is_next(&self, class: usize, member: usize, at: usize) -> bool
        ensures { result ≡ spec.is_next class member at self.now.places.now }
    {
        match self.places {
            [] => false,
            [place, ..] => {
                place.class as usize == class
                    && place.member as usize == member
                    && place.param as usize == at
            }
        }
    }

    /// Hands the next type out; `int` where none is left.
    #[tactic(auto, unfolding(crate::specs::Filled::next_type))]
    fn next_type(&mut self, alloc: Global) -> Result<Ty, NoMemory>
        ensures ty { IfOk result (λ ty. ty ≡ spec.next_type self.old.types.now) }
        ensures left { self.new.types.now ≡ drop 1 self.old.types.now }
        ensures places { self.new.places.now ≡ self.old.places.now }
    {
        match self.types.split_first() {
            Some((ty, types)) => {
                self.types = types;
                copy_type(alloc, ty)
            }
            None => Ok(Ty::Int),
        }
    }

    /// Hands so many types out, or all where there are fewer.
    #[tactic(auto, using(crate::proofs::FillLaws::taking))]
    fn next_types(&mut self, alloc: Global, count: usize) -> Result<List<Ty>, NoMemory>
        ensures types { IfOk result (λ types. types ≡ take count self.old.types.now) }
        ensures left { self.new.types.now ≡ drop count self.old.types.now }
        ensures places { self.new.places.now ≡ self.old.places.now }
    {
        if count >= self.types.len() {
            let all = self.types;
            self.types = &[];
            copy_types(alloc, all)
        } else {
            let (first, types) = self.types.split_at(count);
            self.types = types;
            copy_types(alloc, first)
        }
    }

    /// Passes the next open place.
    fn pass(&mut self)
        ensures types { self.new.types.now ≡ self.old.types.now }
        ensures places { self.new.places.now ≡ drop 1 self.old.places.now }
    {
        if let [_, places @ ..] = self.places {
            self.places = places;
        }
    }
}

/// The type of a parameter.
#[tactic(auto, unfolding(crate::specs::Filled::type_filled, crate::specs::Filled::after_param))]
fn fill_type(ty: &Ty, alloc: Global, untyped: bool, rest: &mut Rest<'_>) -> Result<Ty, NoMemory>
    ensures filled { IfOk result (λ filled. filled ≡ spec.type_filled untyped ty.now (spec.left_of rest.old)) }
    ensures left { OnOk result (spec.left_of rest.new ≡ spec.after_param untyped (spec.left_of rest.old)) }
{
    if untyped {
        rest.pass();
        rest.next_type(alloc)
    } else {
        copy_type(alloc, ty)
    }
}

/// A parameter with its type.
#[tactic(auto, unfolding(crate::specs::Filled::param_filled, crate::specs::Filled::param_left))]
fn fill_param(
    param: &Param,
    alloc: Global,
    class: usize,
    member: usize,
    at: usize,
    rest: &mut Rest<'_>,
) -> Result<Param, NoMemory>
    ensures filled { IfOk result (λ filled. filled ≡ spec.param_filled class member at param.now (spec.left_of rest.old)) }
    ensures left { OnOk result (spec.left_of rest.new ≡ spec.param_left class member at param.now (spec.left_of rest.old)) }
{
    let untyped = rest.is_next(class, member, at);
    let name = copy_name(alloc, &param.name)?;
    let ty = fill_type(&param.ty, alloc, untyped, rest)?;
    Ok(Param { name, ty })
}

/// The parameters of a member with their types.
fn fill_params(
    params: &[Param],
    alloc: Global,
    class: usize,
    member: usize,
    rest: &mut Rest<'_>,
) -> Result<List<Param>, NoMemory>
    ensures filled { IfOk result (λ filled. filled ≡ spec.params_filled class member params.now (spec.left_of rest.old)) }
    ensures left { OnOk result (spec.left_of rest.new ≡ spec.params_left class member params.now (spec.left_of rest.old)) }
{
    let mut filled = List::new(alloc);
    for (at, param) in params.iter().enumerate() {
        filled.push(fill_param(param, alloc, class, member, at, rest)?)?;
    }
    Ok(filled)
}

/// A copy of a handler.
fn copy_handler(
    alloc: Global,
    message: &PatternTree,
    from: &Option<PatternTree>,
    at: &[Name],
    body: &[Stmt],
    line: u32,
) -> Result<Member, NoMemory>
    ensures { IfOk result (λ copy. copy ≡ spec.handler message.now from.now at.now body.now line) }
{
    let body = copy_body(alloc, body)?;
    let at = copy_names(alloc, at)?;
    let from = copy_sender(alloc, from)?;
    let message = copy_pattern(alloc, message)?;
    Ok(Member::Receive {
        message,
        from,
        at,
        body,
        line,
    })
}

/// A member with the types of its parameters.
#[tactic(auto, unfolding(crate::specs::Filled::member_filled, crate::specs::Filled::member_left))]
fn fill_member(
    member: &Member,
    alloc: Global,
    class: usize,
    place: usize,
    rest: &mut Rest<'_>,
) -> Result<Member, NoMemory>
    ensures filled { IfOk result (λ filled. filled ≡ spec.member_filled class place member.now (spec.left_of rest.old)) }
    ensures left { OnOk result (spec.left_of rest.new ≡ spec.member_left class place member.now (spec.left_of rest.old)) }
{
    match member {
        Member::Var { name, ty, line } => {
            let name = copy_name(alloc, name)?;
            let ty = copy_type(alloc, ty)?;
            Ok(Member::Var {
                name,
                ty,
                line: *line,
            })
        }
        Member::Setup { params, body, line } => {
            let params = fill_params(params.as_slice(), alloc, class, place, rest)?;
            let body = copy_body(alloc, body.as_slice())?;
            Ok(Member::Setup {
                params,
                body,
                line: *line,
            })
        }
        Member::Run { body, line } => {
            let body = copy_body(alloc, body.as_slice())?;
            Ok(Member::Run { body, line: *line })
        }
        Member::Method {
            name,
            params,
            body,
            line,
        } => {
            let name = copy_name(alloc, name)?;
            let params = fill_params(params.as_slice(), alloc, class, place, rest)?;
            let body = copy_body(alloc, body.as_slice())?;
            Ok(Member::Method {
                name,
                params,
                body,
                line: *line,
            })
        }
        Member::Receive {
            message,
            from,
            at,
            body,
            line,
        } => copy_handler(alloc, message, from, at.as_slice(), body.as_slice(), *line),
    }
}

/// Appends members with the types of their parameters.
fn fill_members(
    members: &[Member],
    alloc: Global,
    class: usize,
    rest: &mut Rest<'_>,
    out: &mut List<Member>,
) -> Result<(), NoMemory>
    ensures filled { OnOk result (out.new ≡ out.old ++ spec.filled_from (spec.member_filled class) (spec.member_left class) 0 members.now (spec.left_of rest.old)) }
    ensures left { OnOk result (spec.left_of rest.new ≡ spec.left_from (spec.member_left class) 0 members.now (spec.left_of rest.old)) }
{
    for (at, member) in members.iter().enumerate() {
        out.push(fill_member(member, alloc, class, at, rest)?)?;
    }
    Ok(())
}

/// Appends a line for each variable.
fn put_variable_lines(
    variables: &[AddedVariable],
    alloc: Global,
    rest: &mut Rest<'_>,
    out: &mut List<Member>,
) -> Result<(), NoMemory>
    ensures lines { OnOk result (out.new ≡ out.old ++ spec.variable_lines variables.now rest.old.types.now) }
    ensures left { OnOk result (spec.left_of rest.new ≡ spec.after_variables variables.now (spec.left_of rest.old)) }
{
    for variable in variables {
        let name = copy_name(alloc, &variable.name)?;
        let ty = rest.next_type(alloc)?;
        out.push(Member::Var {
            name,
            ty,
            line: variable.line,
        })?;
    }
    Ok(())
}

/// A class with its variables and the types of its parameters.
#[tactic(auto, unfolding(crate::specs::Filled::class_filled, crate::specs::Filled::class_left))]
fn fill_class(
    class: &ClassTree,
    alloc: Global,
    at: usize,
    rest: &mut Rest<'_>,
) -> Result<ClassTree, NoMemory>
    ensures filled { IfOk result (λ filled. filled ≡ spec.class_filled at class.now (spec.left_of rest.old)) }
    ensures left { OnOk result (spec.left_of rest.new ≡ spec.class_left at class.now (spec.left_of rest.old)) }
{
    let name = copy_name(alloc, &class.name)?;
    let variables = added_variables(alloc, class)?;
    let mut members = List::new(alloc);
    put_variable_lines(variables.as_slice(), alloc, rest, &mut members)?;
    fill_members(class.members.as_slice(), alloc, at, rest, &mut members)?;
    Ok(ClassTree {
        name,
        members,
        line: class.line,
    })
}

/// Classes with their variables and the types of their parameters.
fn fill_classes(
    classes: &[ClassTree],
    alloc: Global,
    rest: &mut Rest<'_>,
) -> Result<List<ClassTree>, NoMemory>
    ensures { IfOk result (λ filled. filled ≡ spec.filled_from spec.class_filled spec.class_left 0 classes.now (spec.left_of rest.old)) }
{
    let mut filled = List::new(alloc);
    for (at, class) in classes.iter().enumerate() {
        filled.push(fill_class(class, alloc, at, rest)?)?;
    }
    Ok(filled)
}

/// Appends a line for each tag.
fn put_message_lines(
    tags: &[AddedTag],
    alloc: Global,
    rest: &mut Rest<'_>,
    out: &mut List<MessageDecl>,
) -> Result<(), NoMemory>
    ensures lines { OnOk result (out.new ≡ out.old ++ spec.message_lines tags.now rest.old.types.now) }
    ensures left { OnOk result (spec.left_of rest.new ≡ spec.after_tags tags.now (spec.left_of rest.old)) }
{
    for one in tags {
        let tag = copy_name(alloc, &one.tag)?;
        let parts = rest.next_types(alloc, one.parts)?;
        out.push(MessageDecl {
            tag,
            parts,
            line: one.line,
        })?;
    }
    Ok(())
}

/// The program with the `message` and `var` lines that it lacks and with types for its open parameters, whose places are
/// given in the order of the text.
///
/// The types are, one each, those of the parts of the added tags, and then class by class of its added variables and its
/// open parameters. Where they are too few, a variable or parameter gets `int`, and a tag fewer parts.
#[tactic(auto, unfolding(crate::specs::Filled::filled))]
pub fn declared(
    alloc: Global,
    tree: &Tree,
    untyped: &[OpenPlace],
    types: &[Ty],
) -> Result<Tree, NoMemory>
    ensures { IfOk result (λ filled. filled ≡ spec.filled (record { tree = tree.now; untyped = untyped.now }) types.now) }
{
    let tags = added_tags(alloc, tree)?;
    let mut rest = Rest {
        places: untyped,
        types,
    };
    let mut messages = copy_messages(alloc, tree.messages.as_slice())?;
    put_message_lines(tags.as_slice(), alloc, &mut rest, &mut messages)?;
    let classes = fill_classes(tree.classes.as_slice(), alloc, &mut rest)?;
    let main = copy_main(alloc, tree.main.as_slice())?;
    Ok(Tree {
        kind: tree.kind,
        messages,
        classes,
        main,
    })
}
