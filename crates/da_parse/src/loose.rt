//! Parameters without types: `int` in their places, and the list of these.
ghost use Rattle.da_parse.specs.Loose as spec;
ghost use Rattle.std.specs.Prelude.{◌≡◌, ◌++◌, ◌∷◌, [], if◌then◌else◌, map, IfOk, OnOk};

use da_lang::{ClassTree, Member, Param, Tree, Ty};
use da_values::{List, NoMemory};
use std::alloc::Global;

/// The place of a parameter without a type: the class among the classes, the member among its members, and the parameter
/// among its parameters, each counted from 0.
#[derive(Clone, Copy)]
pub struct OpenParam {
    pub class: u32,
    pub member: u32,
    pub param: u32,
}

/// A program in which parameters may lack their types.
#[derive(Drop)]
pub struct LooseTree {
    /// Its tree, with `int` where there is no type.
    pub tree: Tree,
    /// The parameters without types, in text order.
    pub untyped: List<OpenParam>,
}

/// Whether a type stands for one that is missing.
#[tactic(auto, using(crate::proofs::OpenParams::type_forms))]
fn is_open(ty: &Ty) -> bool
    ensures { result ≡ spec.is_open ty.now }
{
    match ty {
        Ty::Tuple(parts) => parts.len() == 0,
        Ty::Int | Ty::Bool | Ty::Text | Ty::Proc | Ty::Set(_) => false,
    }
}

/// A place as a number of 32 bits. A place past these, which no text of 2^32 tokens or fewer has, is refused.
fn number_at(at: usize) -> Result<u32, NoMemory>
    ensures { IfOk result (λ n. n ≡ at) }
{
    match u32::try_from(at) {
        Ok(n) => Ok(n),
        Err(_) => Err(NoMemory),
    }
}

/// The place of a parameter.
#[tactic(auto, using(crate::proofs::OpenParams::place_same))]
fn place_at(class: usize, member: usize, param: usize) -> Result<OpenParam, NoMemory>
    ensures { IfOk result (λ place. place ≡ spec.place_at class member param) }
{
    let class = number_at(class)?;
    let member = number_at(member)?;
    let param = number_at(param)?;
    Ok(OpenParam {
        class,
        member,
        param,
    })
}

/// A parameter with a type, `int` where it has none; then it is noted.
fn give_param(
    class: usize,
    member: usize,
    at: usize,
    param: Param,
    untyped: &mut List<OpenParam>,
) -> Result<Param, NoMemory>
    ensures param { IfOk result (λ given. given ≡ spec.given_param param) }
    ensures noted { OnOk result (untyped.new ≡ untyped.old ++ spec.open_param class member at param) }
{
    if !is_open(&param.ty) {
        return Ok(param);
    }
    let place = place_at(class, member, at)?;
    untyped.push(place)?;
    let Param { name, .. } = param;
    Ok(Param { name, ty: Ty::Int })
}

/// The same for all parameters of a member.
fn give_params(
    alloc: Global,
    class: usize,
    member: usize,
    params: &mut List<Param>,
    untyped: &mut List<OpenParam>,
) -> Result<(), NoMemory>
    ensures params { OnOk result (params.new ≡ map spec.given_param params.old) }
    ensures noted { OnOk result (untyped.new ≡ untyped.old ++ spec.open_params class member 0 params.old) }
{
    for at in 0..params.len() {
        let blank = Param {
            name: List::new(alloc),
            ty: Ty::Int,
        };
        let param = params.replace(at, blank);
        let given = give_param(class, member, at, param, untyped)?;
        params.set(at, given);
    }
    Ok(())
}

/// The same for a member.
fn give_member(
    alloc: Global,
    class: usize,
    at: usize,
    member: Member,
    untyped: &mut List<OpenParam>,
) -> Result<Member, NoMemory>
    ensures member { IfOk result (λ given. given ≡ spec.given_member member) }
    ensures noted { OnOk result (untyped.new ≡ untyped.old ++ spec.open_params class at 0 (spec.params_of member)) }
{
    match member {
        Member::Setup {
            mut params,
            body,
            line,
        } => {
            give_params(alloc, class, at, &mut params, untyped)?;
            Ok(Member::Setup { params, body, line })
        }
        Member::Method {
            name,
            mut params,
            body,
            line,
        } => {
            give_params(alloc, class, at, &mut params, untyped)?;
            Ok(Member::Method {
                name,
                params,
                body,
                line,
            })
        }
        other => Ok(other),
    }
}

/// The same for all members of a class.
fn give_members(
    alloc: Global,
    class: usize,
    members: &mut List<Member>,
    untyped: &mut List<OpenParam>,
) -> Result<(), NoMemory>
    ensures members { OnOk result (members.new ≡ map spec.given_member members.old) }
    ensures noted { OnOk result (untyped.new ≡ untyped.old ++ spec.open_members class 0 members.old) }
{
    for at in 0..members.len() {
        let blank = Member::Run {
            body: List::new(alloc),
            line: 0,
        };
        let member = members.replace(at, blank);
        let given = give_member(alloc, class, at, member, untyped)?;
        members.set(at, given);
    }
    Ok(())
}

/// The same for a class.
fn give_class(
    alloc: Global,
    at: usize,
    class: ClassTree,
    untyped: &mut List<OpenParam>,
) -> Result<ClassTree, NoMemory>
    ensures class { IfOk result (λ given. given ≡ spec.given_class class) }
    ensures noted { OnOk result (untyped.new ≡ untyped.old ++ spec.open_members at 0 class.members) }
{
    let ClassTree {
        name,
        mut members,
        line,
    } = class;
    give_members(alloc, at, &mut members, untyped)?;
    Ok(ClassTree {
        name,
        members,
        line,
    })
}

/// The same for all classes.
fn give_classes(
    alloc: Global,
    classes: &mut List<ClassTree>,
    untyped: &mut List<OpenParam>,
) -> Result<(), NoMemory>
    ensures classes { OnOk result (classes.new ≡ map spec.given_class classes.old) }
    ensures noted { OnOk result (untyped.new ≡ untyped.old ++ spec.open_classes 0 classes.old) }
{
    for at in 0..classes.len() {
        let blank = ClassTree {
            name: List::new(alloc),
            members: List::new(alloc),
            line: 0,
        };
        let class = classes.replace(at, blank);
        let given = give_class(alloc, at, class, untyped)?;
        classes.set(at, given);
    }
    Ok(())
}

/// A tree with `int` where parameters have no types, and the list of these.
#[tactic(auto, unfolding(crate::specs::Loose::loose_of))]
pub fn with_types(alloc: Global, mut tree: Tree) -> Result<LooseTree, NoMemory>
    ensures { IfOk result (λ found. found ≡ spec.loose_of tree) }
{
    let mut untyped = List::new(alloc);
    give_classes(alloc, &mut tree.classes, &mut untyped)?;
    Ok(LooseTree { tree, untyped })
}
