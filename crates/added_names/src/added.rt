//! What is added to a program.

use da_lang::Name;

/// A tag that gets a `message` line.
#[derive(Drop)]
pub struct AddedTag {
    /// The tag.
    pub tag: Name,
    /// How many parts follow it where it appears first.
    pub parts: usize,
    /// The line on which it appears first: that of the statement, header or handler.
    pub line: u32,
}

/// A variable of a class that gets a `var` line.
#[derive(Drop)]
pub struct AddedVariable {
    /// The name.
    pub name: Name,
    /// The line on which it is changed first.
    pub line: u32,
}

/// The place of a parameter that has no type, each number counted from 0.
#[derive(Clone, Copy)]
pub struct OpenPlace {
    /// The class, among the classes.
    pub class: u32,
    /// The member, among all members of the class.
    pub member: u32,
    /// The parameter, among those of the member.
    pub param: u32,
}
